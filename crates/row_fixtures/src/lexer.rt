//! The raw tokens of simple texts.

use crate::tokens::{int, len_of, space};
use squawk_parser::{Base, Token, TokenKind};
use std::alloc::{AllocError, Global};

/// The raw tokens of a text of words, digits, signs, spaces and block comments without spaces. Each
/// digit, sign and space is one.
pub fn tokens_of(alloc: Global, text: &str) -> Result<Vec<Token>, AllocError> {
    let mut tokens = Vec::new(alloc);
    for (i, piece) in text.split(' ').enumerate() {
        if i > 0 {
            tokens.push(space(1))?;
        }
        push_piece(&mut tokens, piece)?;
    }
    Ok(tokens)
}

/// Adds the raw tokens between two spaces.
fn push_piece(tokens: &mut Vec<Token>, piece: &str) -> Result<(), AllocError> {
    if piece.starts_with("/*") {
        tokens.push(Token {
            kind: TokenKind::BlockComment { terminated: true },
            len: len_of(piece),
        })?;
        return Ok(());
    }
    for c in piece.chars() {
        push_char(tokens, c)?;
    }
    Ok(())
}

/// Adds the raw token of a character, or a letter to the word that it goes on.
fn push_char(tokens: &mut Vec<Token>, c: char) -> Result<(), AllocError> {
    let kind = kind_of(c);
    if let Some(last) = tokens.last_mut() {
        if last.kind == TokenKind::Ident && kind == TokenKind::Ident {
            last.len = last.len.saturating_add(1);
            return Ok(());
        }
    }
    tokens.push(Token {
        kind,
        len: c.len_utf8() as u32,
    })?;
    Ok(())
}

/// The kind of the raw token that a character begins.
fn kind_of(c: char) -> TokenKind {
    match c {
        '\u{feff}' => TokenKind::Whitespace,
        '0'..='9' => int(Base::Decimal, 1),
        'a'..='z' => TokenKind::Ident,
        ',' => TokenKind::Comma,
        ';' => TokenKind::Semi,
        '.' => TokenKind::Dot,
        ':' => TokenKind::Colon,
        '=' => TokenKind::Eq,
        '<' => TokenKind::Lt,
        '>' => TokenKind::Gt,
        '!' => TokenKind::Bang,
        '@' => TokenKind::At,
        '-' => TokenKind::Minus,
        '+' => TokenKind::Plus,
        '*' => TokenKind::Star,
        '(' => TokenKind::OpenParen,
        ')' => TokenKind::CloseParen,
        '/' => TokenKind::Slash,
        '~' => TokenKind::Tilde,
        '#' => TokenKind::Pound,
        '%' => TokenKind::Percent,
        '^' => TokenKind::Caret,
        '&' => TokenKind::And,
        '|' => TokenKind::Or,
        '`' => TokenKind::Backtick,
        '?' => TokenKind::Question,
        _ => TokenKind::Unknown,
    }
}
