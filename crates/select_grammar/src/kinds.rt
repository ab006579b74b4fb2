//! The kinds of the grammar, its keywords, and what errors call the kinds.

use squawk_parser::SyntaxKind;

pub const SELECT_KW: SyntaxKind = SyntaxKind(200);

pub const WHERE_KW: SyntaxKind = SyntaxKind(201);

pub const AND_KW: SyntaxKind = SyntaxKind(202);

pub const OR_KW: SyntaxKind = SyntaxKind(203);

pub const AS_KW: SyntaxKind = SyntaxKind(204);

pub const NULL_KW: SyntaxKind = SyntaxKind(205);

pub const SOURCE_FILE: SyntaxKind = SyntaxKind(700);

pub const SELECT: SyntaxKind = SyntaxKind(701);

pub const ITEM: SyntaxKind = SyntaxKind(702);

pub const FROM_CLAUSE: SyntaxKind = SyntaxKind(703);

pub const WHERE_CLAUSE: SyntaxKind = SyntaxKind(704);

pub const NAME_REF: SyntaxKind = SyntaxKind(705);

pub const LITERAL: SyntaxKind = SyntaxKind(706);

pub const LIST: SyntaxKind = SyntaxKind(707);

pub const BIN_EXPR: SyntaxKind = SyntaxKind(708);

pub const NOT_EXPR: SyntaxKind = SyntaxKind(709);

/// The keywords with their kinds.
pub const KEYWORDS: [(&str, SyntaxKind); 12] = [
    ("and", AND_KW),
    ("as", AS_KW),
    ("distinct", SyntaxKind::DISTINCT_KW),
    ("from", SyntaxKind::FROM_KW),
    ("in", SyntaxKind::IN_KW),
    ("is", SyntaxKind::IS_KW),
    ("like", SyntaxKind::LIKE_KW),
    ("not", SyntaxKind::NOT_KW),
    ("null", NULL_KW),
    ("or", OR_KW),
    ("select", SELECT_KW),
    ("where", WHERE_KW),
];

/// What errors call the kinds that are expected.
pub const NAMES: [(SyntaxKind, &str); 4] = [
    (SyntaxKind::FROM_KW, "FROM"),
    (SyntaxKind::SEMICOLON, ";"),
    (SyntaxKind::R_PAREN, ")"),
    (SyntaxKind::IDENT, "a name"),
];
