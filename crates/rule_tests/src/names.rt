//! Names of some tokens and nodes.
use squawk_kinds::{SyntaxKind, TokenSet, token_set};

/// Tokens.
pub(crate) const TOKENS: [(&str, SyntaxKind); 12] = [
    ("IDENT", SyntaxKind::IDENT),
    ("INT", SyntaxKind::INT_NUMBER),
    ("(", SyntaxKind::L_PAREN),
    (")", SyntaxKind::R_PAREN),
    (";", SyntaxKind::SEMICOLON),
    (",", SyntaxKind::COMMA),
    (".", SyntaxKind::DOT),
    ("+", SyntaxKind::PLUS),
    ("-", SyntaxKind::MINUS),
    ("*", SyntaxKind::STAR),
    ("=", SyntaxKind::EQ),
    ("::", SyntaxKind::COLON_COLON),
];

/// Nodes.
pub(crate) const NODES: [(&str, SyntaxKind); 11] = [
    ("FILE", SyntaxKind(700)),
    ("STATEMENT", SyntaxKind(701)),
    ("NAME", SyntaxKind(702)),
    ("PAREN", SyntaxKind(703)),
    ("SUM", SyntaxKind(704)),
    ("EQUALITY", SyntaxKind(705)),
    ("PRODUCT", SyntaxKind(706)),
    ("CALL", SyntaxKind(707)),
    ("NEGATION", SyntaxKind(708)),
    ("LIST", SyntaxKind(709)),
    ("CAST", SyntaxKind::COLON_COLON),
];

/// A class of tokens.
pub(crate) const CLASSES: [(&str, TokenSet); 1] = [("literal", token_set![SyntaxKind::INT_NUMBER])];
