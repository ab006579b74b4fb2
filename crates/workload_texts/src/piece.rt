//! Pieces of texts with their raw tokens.

use squawk_parser::{Base, LiteralKind, Token, TokenKind};
use std::alloc::{AllocError, Global};

/// A text with its raw tokens.
#[derive(Drop)]
pub struct Piece {
    pub text: String,
    pub tokens: Vec<Token>,
}

impl Piece {
    pub fn new(alloc: Global) -> Piece {
        Piece {
            text: String::new(alloc),
            tokens: Vec::new(alloc),
        }
    }

    /// Room for so many bytes and raw tokens.
    pub fn with_room(alloc: Global, bytes: usize, tokens: usize) -> Result<Piece, AllocError> {
        Ok(Piece {
            text: String::with_capacity(alloc, bytes)?,
            tokens: Vec::with_capacity(alloc, tokens)?,
        })
    }

    /// Adds a raw token.
    pub fn put(&mut self, kind: TokenKind, text: &str) -> Result<(), AllocError> {
        self.text.push_str(text)?;
        let len = u32::try_from(text.len()).unwrap_or(0);
        self.tokens.push(Token { kind, len })?;
        Ok(())
    }

    /// Adds a raw token that was begun where the text had so many bytes.
    pub fn end(&mut self, kind: TokenKind, start: usize) -> Result<(), AllocError> {
        let len = u32::try_from(self.text.len().saturating_sub(start)).unwrap_or(0);
        self.tokens.push(Token { kind, len })?;
        Ok(())
    }

    pub fn space(&mut self) -> Result<(), AllocError> {
        self.put(TokenKind::Whitespace, " ")
    }

    /// Adds a string, as its kind says it is.
    pub fn literal(&mut self, kind: LiteralKind, text: &str) -> Result<(), AllocError> {
        self.put(TokenKind::Literal { kind }, text)
    }

    /// Adds a whole number.
    pub fn int(&mut self, digits: &str) -> Result<(), AllocError> {
        let trailing_junk_start = u32::try_from(digits.len()).unwrap_or(0);
        let kind = LiteralKind::Int {
            empty_int: false,
            base: Base::Decimal,
            trailing_junk_start,
        };
        self.literal(kind, digits)
    }

    /// Adds another piece.
    pub fn append(&mut self, other: &Piece) -> Result<(), AllocError> {
        self.text.push_str(other.text.as_str())?;
        self.tokens.extend_from_slice(&other.tokens)?;
        Ok(())
    }
}
