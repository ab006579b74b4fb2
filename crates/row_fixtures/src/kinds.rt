//! Names of the kinds that the tests use.

use squawk_parser::SyntaxKind;

// Kinds of nodes.
pub const ROOT: u16 = 700;

pub const NAME: u16 = 701;

pub const NAME_REF: u16 = 702;

pub const CALL: u16 = 703;

pub const FIELD: u16 = 704;

pub const BINARY: u16 = 705;

pub const PATH: u16 = 706;

pub const PAREN: u16 = 707;

pub const SOURCE_FILE: u16 = 710;

pub const SELECT: u16 = 711;

pub const SELECT_CLAUSE: u16 = 712;

pub const TARGET_LIST: u16 = 713;

pub const TARGET: u16 = 714;

pub const LITERAL: u16 = 715;

// Kinds of keywords.
pub const SELECT_KW: u16 = 200;

pub const MESSAGE_KW: u16 = 201;

pub const RAISE_KW: u16 = 202;

// Kinds of nodes that tell an answer.
pub const YES: u16 = NAME;

pub const NO: u16 = NAME_REF;

/// A name and its kind.
type Named = (&'static str, SyntaxKind);

/// The constants of these names, each with its name.
macro_rules! constants {
    ($($name:ident)*) => { [$((stringify!($name), SyntaxKind::$name)),*] };
}

/// These numbers, each with its name.
macro_rules! numbers {
    ($($name:ident)*) => { [$((stringify!($name), $name)),*] };
}

#[rattlefmt::skip]
const TOKENS: [Named; 20] = constants![
    EOF TOMBSTONE ERROR IDENT COMMENT WHITESPACE
    SEMICOLON COMMA L_PAREN R_PAREN COLON
    COLON_EQ NEQ NEQB LTEQ FAT_ARROW LESS_LESS GREATER_GREATER GTEQ LONG_ARROW
];

#[rattlefmt::skip]
const KEYWORDS: [Named; 21] = constants![
    SIMILAR_KW TO_KW AT_KW TIME_KW ZONE_KW LOCAL_KW IS_KW NOT_KW NFC_KW NORMALIZED_KW
    JSON_KW OBJECT_KW ARRAY_KW VALUE_KW SCALAR_KW DISTINCT_KW FROM_KW OPERATOR_KW LIKE_KW ILIKE_KW IN_KW
];

#[rattlefmt::skip]
const COMPOSITES: [Named; 26] = constants![
    SIMILAR_TO AT_TIME_ZONE AT_LOCAL IS_NOT_NORMALIZED IS_NORMALIZED COLON_COLON
    IS_JSON IS_NOT_JSON IS_NOT_JSON_OBJECT IS_NOT_JSON_ARRAY IS_NOT_JSON_VALUE IS_NOT_JSON_SCALAR
    IS_JSON_OBJECT IS_JSON_ARRAY IS_JSON_VALUE IS_JSON_SCALAR
    NOT_SIMILAR_TO IS_NOT_DISTINCT_FROM OPERATOR_CALL IS_DISTINCT_FROM NOT_LIKE NOT_ILIKE NOT_IN IS_NOT
    CUSTOM_OP UNICODE_NORMAL_FORM
];

#[rattlefmt::skip]
static NUMBERS: [(&str, u16); 17] = numbers![
    ROOT NAME NAME_REF CALL FIELD BINARY PATH PAREN
    SOURCE_FILE SELECT SELECT_CLAUSE TARGET_LIST TARGET LITERAL
    SELECT_KW MESSAGE_KW RAISE_KW
];

// A table is written out in one function alone: wherever it stands, the check takes the square of its
// length, so there are also several.

fn tokens() -> [Named; 20] {
    TOKENS
}

fn keywords() -> [Named; 21] {
    KEYWORDS
}

fn composites() -> [Named; 26] {
    COMPOSITES
}

fn name_in(table: &[Named], kind: SyntaxKind) -> Option<&'static str> {
    table
        .iter()
        .find(|(_, known)| *known == kind)
        .map(|(name, _)| *name)
}

fn kind_in(table: &[Named], name: &str) -> Option<SyntaxKind> {
    table
        .iter()
        .find(|(known, _)| *known == name)
        .map(|(_, kind)| *kind)
}

/// The name of a kind that has one here.
pub fn name_of(kind: SyntaxKind) -> Option<&'static str> {
    name_of_number(u16::from(kind))
        .or_else(|| name_in(&tokens(), kind))
        .or_else(|| name_in(&keywords(), kind))
        .or_else(|| name_in(&composites(), kind))
}

fn name_of_number(kind: u16) -> Option<&'static str> {
    NUMBERS
        .iter()
        .find(|(_, number)| *number == kind)
        .map(|(name, _)| *name)
}

/// The kind that has the name.
pub fn kind_named(name: &str) -> Option<SyntaxKind> {
    kind_of_number(name)
        .or_else(|| kind_in(&tokens(), name))
        .or_else(|| kind_in(&keywords(), name))
        .or_else(|| kind_in(&composites(), name))
}

fn kind_of_number(name: &str) -> Option<SyntaxKind> {
    NUMBERS
        .iter()
        .find(|(known, _)| *known == name)
        .map(|(_, number)| SyntaxKind::from(*number))
}
