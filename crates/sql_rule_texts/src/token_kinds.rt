//! The tokens that are no keywords.

use crate::named_kind::NamedKind;
use squawk_kinds::SyntaxKind;

/// An array of tokens: their kinds, each with the name or the spelling that the rules have for it.
#[rattlefmt::skip]
macro_rules! token_kinds {
    ($($name:literal $kind:ident),*) => {
        [$(NamedKind { kind: SyntaxKind::$kind.0, name: $name }),*]
    };
}

/// The tokens. Those of several signs are composite.
#[rattlefmt::skip]
pub(crate) static TOKENS: [NamedKind; 36] = token_kinds![
    "IDENT" IDENT, "INT_NUMBER" INT_NUMBER, "NUMERIC_NUMBER" NUMERIC_NUMBER, "STRING" STRING,
    "NATIONAL_STRING" NATIONAL_STRING, "BYTE_STRING" BYTE_STRING, "BIT_STRING" BIT_STRING, "DOLLAR_QUOTED_STRING" DOLLAR_QUOTED_STRING,
    "UNICODE_ESC_STRING" UNICODE_ESC_STRING, "ESC_STRING" ESC_STRING, "POSITIONAL_PARAM" POSITIONAL_PARAM, "CUSTOM_OP" CUSTOM_OP,
    ";" SEMICOLON, "," COMMA, "." DOT, "(" L_PAREN,
    ")" R_PAREN, "[" L_BRACK, "]" R_BRACK, ":" COLON,
    "=" EQ, "<" L_ANGLE, ">" R_ANGLE, "-" MINUS,
    "+" PLUS, "*" STAR, "/" SLASH, "^" CARET,
    "%" PERCENT, ":=" COLON_EQ, "=>" FAT_ARROW, "::" COLON_COLON,
    "<>" NEQB, "!=" NEQ, "<=" LTEQ, ">=" GTEQ
];
