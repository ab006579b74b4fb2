//! The names of the kinds that have a constant.
ghost use Rattle.std.specs.Prelude.{◌≡◌, ◌++◌, IfOk};
ghost use Rattle.squawk_kinds.specs.EngineNames.{engine_names, names_in, names_of};

use crate::SyntaxKind;
use std::alloc::{AllocError, Global};

/// A kind's number and the name of its constant.
struct NamedKind {
    kind: u16,
    name: &'static str,
}

/// An array of the kinds that have a constant, in the order of their numbers: `kinds`, or `named` with their names.
#[rattlefmt::skip]
macro_rules! engine_kinds {
    (@kinds $($name:ident)*) => { [$(SyntaxKind::$name),*] };
    (@named $($name:ident)*) => {
        [$(NamedKind { kind: SyntaxKind::$name.0, name: stringify!($name) }),*]
    };
    ($form:ident) => {
        engine_kinds![@$form
            EOF TOMBSTONE ERROR IDENT COMMENT SEMICOLON COMMA DOT DOT_DOT L_PAREN R_PAREN
            L_BRACK R_BRACK L_CURLY R_CURLY AT POUND TILDE QUESTION COLON EQ BANG L_ANGLE
            R_ANGLE MINUS AMP PIPE PLUS STAR SLASH CARET PERCENT BACKTICK INT_NUMBER
            NUMERIC_NUMBER STRING NATIONAL_STRING BYTE_STRING BIT_STRING
            DOLLAR_QUOTED_STRING UNICODE_ESC_STRING ESC_STRING POSITIONAL_PARAM
            PSQL_COMMAND_TEXT PSQL_TERMINATOR_TEXT COLON_EQ NEQ NEQB LTEQ FAT_ARROW
            LESS_LESS GREATER_GREATER GTEQ LONG_ARROW SIMILAR_KW TO_KW AT_KW TIME_KW ZONE_KW
            LOCAL_KW IS_KW NOT_KW NFC_KW NFD_KW NFKC_KW NFKD_KW NORMALIZED_KW JSON_KW
            OBJECT_KW ARRAY_KW VALUE_KW SCALAR_KW DISTINCT_KW FROM_KW OPERATOR_KW LIKE_KW
            ILIKE_KW IN_KW WHITESPACE SIMILAR_TO AT_TIME_ZONE AT_LOCAL IS_NOT_NORMALIZED
            IS_NORMALIZED COLON_COLON IS_JSON IS_NOT_JSON IS_NOT_JSON_OBJECT
            IS_NOT_JSON_ARRAY IS_NOT_JSON_VALUE IS_NOT_JSON_SCALAR IS_JSON_OBJECT
            IS_JSON_ARRAY IS_JSON_VALUE IS_JSON_SCALAR NOT_SIMILAR_TO IS_NOT_DISTINCT_FROM
            OPERATOR_CALL IS_DISTINCT_FROM NOT_LIKE NOT_ILIKE NOT_IN IS_NOT CUSTOM_OP
            UNICODE_NORMAL_FORM
        ]
    };
}

pub(crate) use engine_kinds;

static NAMED_KINDS: [NamedKind; 105] = engine_kinds![named];

/// Each kind that has a constant with that constant's name, in the order of their numbers, then `own`.
///
/// The names are upstream's. [`KindNames`](crate::KindNames) reads a kind's first pair, so a pair of
/// `own` can't rename such a kind.
pub fn with_engine_names<'n>(
    alloc: Global,
    own: &[(SyntaxKind, &'n str)],
) -> Result<Vec<(SyntaxKind, &'n str)>, AllocError>
    ensures { IfOk result (λ all. names_of all.items ≡ engine_names ++ names_of own.now) }
{
    let kinds = named_kinds();
    let mut names = Vec::with_capacity(alloc, kinds.len() + own.len())?;
    for named in kinds {
        names.push_reserved((SyntaxKind(named.kind), named.name));
    }
    names.extend_from_slice(own)?;
    Ok(names)
}

fn named_kinds() -> &'static [NamedKind]
    ensures { names_in result.now ≡ engine_names }
{
    &NAMED_KINDS
}
