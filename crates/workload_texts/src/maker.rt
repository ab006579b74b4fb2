//! Statements at random, in the proportions of real SQL.

use crate::piece::Piece;
use crate::random::Random;
use squawk_parser::{LiteralKind, SyntaxKind, TokenKind};
use std::alloc::{AllocError, Global};

/// What names are made of.
const SYLLABLES: [&str; 24] = [
    "a", "ac", "count", "id", "user", "or", "der", "it", "em", "pro", "duct", "na", "me", "pri",
    "ce", "ts", "x", "yz", "cust", "log", "s", "t", "ref", "no",
];

/// A text that strings and comments are parts of.
const FILLER: &str = "the quick brown fox jumps over the lazy dog and runs to the river where it \
    drinks, looks round, and sleeps until the sun is low; then it walks home by the old road, \
    counts the hens (there are twelve of them), and thinks of what it said to the badger in spring \
    about the price of apples, the length of the winter, and all that a fox may want of a year that \
    has been long and kind to those who waited for it by the gate of the garden behind the mill";

/// Signs, each a raw token.
const SIGNS: [(TokenKind, &str); 12] = [
    (TokenKind::Eq, "="),
    (TokenKind::Lt, "<"),
    (TokenKind::Gt, ">"),
    (TokenKind::Minus, "-"),
    (TokenKind::Plus, "+"),
    (TokenKind::Or, "|"),
    (TokenKind::Tilde, "~"),
    (TokenKind::Bang, "!"),
    (TokenKind::At, "@"),
    (TokenKind::Pound, "#"),
    (TokenKind::And, "&"),
    (TokenKind::Star, "*"),
];

/// Digits of whole numbers.
const NUMBERS: [&str; 8] = ["1", "0", "12", "42", "100", "2024", "99999", "7"];

/// Makes pieces, with the keywords among these names of kinds.
#[derive(Clone, Copy)]
pub struct Maker<'n> {
    pub random: Random,
    pub names: &'n [(SyntaxKind, &'n str)],
}

impl Maker<'_> {
    pub fn keyword(&mut self, piece: &mut Piece) -> Result<(), AllocError> {
        // The last seven names are punctuation.
        let keywords = self.names.len().saturating_sub(7);
        match self.names.get(self.random.below(keywords)) {
            Some((_, word)) => piece.put(TokenKind::Ident, word),
            None => piece.put(TokenKind::Ident, "select"),
        }
    }

    pub fn name(&mut self, piece: &mut Piece) -> Result<(), AllocError> {
        let start = piece.text.len();
        let syllables = self.random.below(3).saturating_add(1);
        for _ in 0..syllables {
            if let Some(syllable) = SYLLABLES.get(self.random.below(SYLLABLES.len())) {
                piece.text.push_str(syllable)?;
            }
        }
        if self.random.is_one_in(2) {
            piece.text.push_str("_n")?;
        }
        piece.end(TokenKind::Ident, start)
    }

    /// A keyword or a name.
    pub fn word(&mut self, piece: &mut Piece) -> Result<(), AllocError> {
        if self.random.below(10) < 6 {
            self.keyword(piece)
        } else {
            self.name(piece)
        }
    }

    pub fn number(&mut self, piece: &mut Piece) -> Result<(), AllocError> {
        match NUMBERS.get(self.random.below(NUMBERS.len())) {
            Some(digits) => piece.int(digits),
            None => piece.int("3"),
        }
    }

    /// A string with up to this many characters.
    pub fn string(&mut self, piece: &mut Piece, most: usize) -> Result<(), AllocError> {
        let start = piece.text.len();
        piece.text.push_str("'")?;
        self.fill(piece, most)?;
        piece.text.push_str("'")?;
        let kind = LiteralKind::Str { terminated: true };
        piece.end(TokenKind::Literal { kind }, start)
    }

    /// A comment to the end of the line, and the end of the line.
    pub fn comment(&mut self, piece: &mut Piece) -> Result<(), AllocError> {
        let start = piece.text.len();
        piece.text.push_str("-- ")?;
        self.fill(piece, 66)?;
        piece.end(TokenKind::LineComment, start)?;
        piece.put(TokenKind::Whitespace, "\n")
    }

    /// A part of the filler with up to this many bytes.
    fn fill(&mut self, piece: &mut Piece, most: usize) -> Result<(), AllocError> {
        let len = self.random.below(most.saturating_add(1)).min(FILLER.len());
        let start = self.random.below(FILLER.len().saturating_sub(len));
        match FILLER.get(start..start.saturating_add(len)) {
            Some(part) => piece.text.push_str(part),
            None => Ok(()),
        }
    }

    /// Signs that touch, up to so many.
    pub fn signs(&mut self, piece: &mut Piece, most: usize) -> Result<(), AllocError> {
        for _ in 0..self.random.below(most).saturating_add(1) {
            if let Some((kind, text)) = SIGNS.get(self.random.below(SIGNS.len())) {
                piece.put(*kind, text)?;
            }
        }
        Ok(())
    }

    /// What stands in a statement behind white space.
    fn item(&mut self, piece: &mut Piece) -> Result<(), AllocError> {
        match self.random.below(1000) {
            0..=759 => self.word(piece),
            760..=839 => self.string(piece, 40),
            840..=919 => self.number(piece),
            920..=989 => self.signs(piece, 2),
            990..=992 => piece.put(
                TokenKind::QuotedIdent {
                    terminated: true,
                    uescape: false,
                },
                "\"Order\"",
            ),
            993..=998 => piece.put(
                TokenKind::PositionalParam {
                    trailing_junk_start: 2,
                },
                "$1",
            ),
            _ => self.dollar_quote(piece),
        }
    }

    fn dollar_quote(&mut self, piece: &mut Piece) -> Result<(), AllocError> {
        let start = piece.text.len();
        piece.text.push_str("$$")?;
        for _ in 0..6 {
            piece.text.push_str(FILLER)?;
        }
        piece.text.push_str("$$")?;
        let kind = LiteralKind::DollarQuotedString { terminated: true };
        piece.end(TokenKind::Literal { kind }, start)
    }

    /// A statement of words with lists in parentheses.
    pub fn statement(&mut self, alloc: Global) -> Result<Piece, AllocError> {
        let mut piece = Piece::new(alloc);
        self.keyword(&mut piece)?;
        let mut open = 0usize;
        for _ in 0..self.random.below(36).saturating_add(4) {
            let turn = self.random.below(100);
            if turn < 9 && open < 4 {
                piece.space()?;
                piece.put(TokenKind::OpenParen, "(")?;
                self.word(&mut piece)?;
                open += 1;
            } else if turn < 21 && open > 0 {
                piece.put(TokenKind::CloseParen, ")")?;
                open -= 1;
            } else if turn < 40 {
                piece.put(TokenKind::Comma, ",")?;
            } else if turn < 44 {
                piece.put(TokenKind::Dot, ".")?;
                self.name(&mut piece)?;
            } else {
                piece.space()?;
                self.item(&mut piece)?;
            }
        }
        for _ in 0..open {
            piece.put(TokenKind::CloseParen, ")")?;
        }
        piece.put(TokenKind::Semi, ";")?;
        piece.put(TokenKind::Whitespace, "\n")?;
        if self.random.is_one_in(2) {
            self.comment(&mut piece)?;
        }
        Ok(piece)
    }

    /// A row of a dump.
    pub fn row(&mut self, alloc: Global) -> Result<Piece, AllocError> {
        let mut piece = Piece::new(alloc);
        piece.put(TokenKind::Ident, "insert")?;
        piece.space()?;
        piece.put(TokenKind::Ident, "into")?;
        piece.space()?;
        self.name(&mut piece)?;
        piece.space()?;
        piece.put(TokenKind::Ident, "values")?;
        piece.space()?;
        piece.put(TokenKind::OpenParen, "(")?;
        for i in 0..self.random.below(14).saturating_add(4) {
            if i > 0 {
                piece.put(TokenKind::Comma, ",")?;
                piece.space()?;
            }
            match self.random.below(8) {
                0..=2 => self.string(&mut piece, 380)?,
                3..=5 => self.number(&mut piece)?,
                6 => self.name(&mut piece)?,
                _ => piece.put(TokenKind::Ident, "null")?,
            }
        }
        piece.put(TokenKind::CloseParen, ")")?;
        piece.put(TokenKind::Semi, ";")?;
        piece.put(TokenKind::Whitespace, "\n")?;
        Ok(piece)
    }
}
