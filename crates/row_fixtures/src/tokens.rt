//! Raw tokens, and the tables of texts without keywords.

use crate::keywords::NO_KEYWORDS;
use squawk_parser::{Base, LexedStr, LiteralKind, TableError, Token, TokenKind};
use std::alloc::Global;

/// A raw token of so many bytes.
pub fn token(kind: TokenKind, len: u32) -> Token {
    Token { kind, len }
}

/// The raw token of a word of so many bytes.
pub fn word(len: u32) -> Token {
    token(TokenKind::Ident, len)
}

/// The raw token of white space of so many bytes.
pub fn space(len: u32) -> Token {
    token(TokenKind::Whitespace, len)
}

pub fn literal(kind: LiteralKind) -> TokenKind {
    TokenKind::Literal { kind }
}

/// An integer that has digits.
pub fn int(base: Base, trailing_junk_start: u32) -> TokenKind {
    literal(LiteralKind::Int {
        empty_int: false,
        base,
        trailing_junk_start,
    })
}

/// The length of a text in bytes.
pub fn len_of(text: &str) -> u32 {
    u32::try_from(text.len()).unwrap_or(u32::MAX)
}

/// The table of a text without keywords.
pub fn table<'a>(
    alloc: Global,
    text: &'a str,
    tokens: &[Token],
) -> Result<LexedStr<'a>, TableError> {
    LexedStr::new(alloc, text, tokens, &NO_KEYWORDS)
}
