//! A text with its raw tokens.

use crate::pieces::Piece;
use squawk_parser::{SyntaxKind, Token};
use std::alloc::{AllocError, Global};

/// A raw token, where it starts and ends in bytes, and how many that aren't trivia stand before it.
#[derive(Clone, Copy)]
pub struct Raw {
    pub kind: SyntaxKind,
    pub start: usize,
    pub end: usize,
    pub before: usize,
}

/// A text, its raw tokens for the engine, and for the editor those that aren't trivia and those that are.
#[derive(Drop)]
pub struct Source {
    pub text: String,
    pub raw_tokens: Vec<Token>,
    pub tokens: Vec<Raw>,
    pub trivia: Vec<Raw>,
}

impl Source {
    pub fn new(alloc: Global, pieces: &[Piece]) -> Result<Source, AllocError> {
        let mut text = String::new(alloc);
        let mut raw_tokens = Vec::new(alloc);
        let (mut tokens, mut trivia) = (Vec::new(alloc), Vec::new(alloc));
        for piece in pieces {
            let kind = piece.raw;
            let len = u32::try_from(piece.text.len()).unwrap_or(0);
            raw_tokens.push(Token { kind, len })?;
            let (kind, start, before) = (piece.kind, text.len(), tokens.len());
            text.push_str(piece.text.as_str())?;
            let end = text.len();
            let is_trivia = kind == SyntaxKind::WHITESPACE || kind == SyntaxKind::COMMENT;
            let list = if is_trivia { &mut trivia } else { &mut tokens };
            list.push(Raw {
                kind,
                start,
                end,
                before,
            })?;
        }
        Ok(Source {
            text,
            raw_tokens,
            tokens,
            trivia,
        })
    }
}
