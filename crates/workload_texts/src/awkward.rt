//! Pieces that ask much of a parser: expressions, and statements that break off.

use crate::maker::Maker;
use crate::piece::Piece;
use squawk_parser::{LiteralKind, TokenKind};
use std::alloc::{AllocError, Global};

/// Operators of several words.
const PHRASES: [&[&str]; 8] = [
    &["is", "not"],
    &["is", "distinct", "from"],
    &["is", "not", "distinct", "from"],
    &["not", "in"],
    &["not", "like"],
    &["at", "time", "zone"],
    &["similar", "to"],
    &["and"],
];

/// Operators of signs that touch.
const GLUED: [&[(TokenKind, &str)]; 9] = [
    &[(TokenKind::Lt, "<"), (TokenKind::Eq, "=")],
    &[(TokenKind::Gt, ">"), (TokenKind::Eq, "=")],
    &[(TokenKind::Lt, "<"), (TokenKind::Gt, ">")],
    &[(TokenKind::Bang, "!"), (TokenKind::Eq, "=")],
    &[(TokenKind::Colon, ":"), (TokenKind::Colon, ":")],
    &[
        (TokenKind::Minus, "-"),
        (TokenKind::Gt, ">"),
        (TokenKind::Gt, ">"),
    ],
    &[(TokenKind::Or, "|"), (TokenKind::Or, "|")],
    &[(TokenKind::Eq, "=")],
    &[(TokenKind::Plus, "+")],
];

impl Maker<'_> {
    /// Operands with operators between them, which end in a semicolon and a new line.
    pub fn expression(&mut self, alloc: Global) -> Result<Piece, AllocError> {
        let mut piece = Piece::new(alloc);
        self.operand(&mut piece)?;
        for _ in 0..self.random.below(24).saturating_add(2) {
            self.operator(&mut piece)?;
            self.operand(&mut piece)?;
        }
        piece.put(TokenKind::Semi, ";")?;
        piece.put(TokenKind::Whitespace, "\n")?;
        Ok(piece)
    }

    fn operand(&mut self, piece: &mut Piece) -> Result<(), AllocError> {
        match self.random.below(6) {
            0 => self.number(piece),
            1 => self.string(piece, 30),
            2 => {
                self.name(piece)?;
                piece.put(TokenKind::Dot, ".")?;
                self.name(piece)
            }
            3 => {
                self.name(piece)?;
                piece.put(TokenKind::Comma, ",")?;
                piece.space()?;
                self.name(piece)
            }
            _ => self.name(piece),
        }
    }

    fn operator(&mut self, piece: &mut Piece) -> Result<(), AllocError> {
        match self.random.below(40) {
            0..=13 => {
                let Some(words) = PHRASES.get(self.random.below(PHRASES.len())) else {
                    return Ok(());
                };
                for word in words.iter() {
                    piece.space()?;
                    piece.put(TokenKind::Ident, word)?;
                }
                piece.space()
            }
            14..=33 => {
                let Some(signs) = GLUED.get(self.random.below(GLUED.len())) else {
                    return Ok(());
                };
                let apart = self.random.is_one_in(2);
                if apart {
                    piece.space()?;
                }
                for (kind, text) in signs.iter() {
                    piece.put(*kind, text)?;
                }
                if apart { piece.space() } else { Ok(()) }
            }
            34..=38 => {
                piece.space()?;
                self.signs(piece, 4)?;
                piece.space()
            }
            _ => {
                piece.space()?;
                self.signs(piece, 40)?;
                piece.space()
            }
        }
    }

    /// A statement in which something is wrong: a parenthesis without its other one, a string, a comment
    /// or a name that isn't closed, a bad escape, junk behind digits.
    pub fn broken(&mut self, alloc: Global) -> Result<Piece, AllocError> {
        let mut piece = Piece::new(alloc);
        self.keyword(&mut piece)?;
        for _ in 0..self.random.below(24).saturating_add(3) {
            piece.space()?;
            match self.random.below(30) {
                0..=18 => self.word(&mut piece)?,
                19..=20 => piece.put(TokenKind::Comma, ",")?,
                21..=23 => piece.put(TokenKind::OpenParen, "(")?,
                24..=25 => piece.put(TokenKind::CloseParen, ")")?,
                _ => self.flaw(&mut piece)?,
            }
        }
        if !self.random.is_one_in(3) {
            piece.put(TokenKind::Semi, ";")?;
        }
        piece.put(TokenKind::Whitespace, "\n")?;
        Ok(piece)
    }

    /// A raw token with a lexical error.
    fn flaw(&mut self, piece: &mut Piece) -> Result<(), AllocError> {
        match self.random.below(7) {
            0 => piece.literal(LiteralKind::Str { terminated: false }, "'an open string"),
            1 => piece.put(
                TokenKind::QuotedIdent {
                    terminated: false,
                    uescape: false,
                },
                "\"open",
            ),
            2 => piece.put(
                TokenKind::QuotedIdent {
                    terminated: true,
                    uescape: false,
                },
                "\"\"",
            ),
            3 => piece.put(
                TokenKind::PositionalParam {
                    trailing_junk_start: 2,
                },
                "$1abc",
            ),
            4 => piece.literal(
                LiteralKind::EscStr { terminated: true },
                "E'a \\u12 and \\xzz and \\U1234'",
            ),
            5 => piece.literal(LiteralKind::BitStr { terminated: true }, "B'1012'"),
            _ => piece.put(
                TokenKind::BlockComment { terminated: false },
                "/* an open comment",
            ),
        }
    }
}
