//! Errors of texts of rules.
ghost use Rattle.std.specs.Prelude.{◌≡◌, ◌+◌, ◌==◌, min, if◌then◌else◌};
ghost use Rattle.rule_text.specs.Places.{place_after, place_of};

use sql_lexer::TokenizeError;
use std::alloc::{AllocError, AllocFailed};
use std::error::Error;
use std::fmt;

/// A place in a text: its line and column, both from 1. Columns count bytes.
#[derive(Clone, Copy, Debug, PartialEq, Eq)]
pub struct Place {
    pub line: usize,
    pub column: usize,
}

/// Why a text is no rules.
#[derive(Debug, Drop, Clone, Copy, PartialEq, Eq)]
pub enum ReadError {
    /// The text has no raw tokens: it is too long, or memory ran out.
    Tokens(TokenizeError),
    /// Another word stands at the place than those that may. It is the first such word.
    Expected { what: &'static str, at: Place },
    /// The parenthesis or brace at the place is nested more than [`NESTED`](crate::NESTED) deep.
    TooDeep { at: Place },
    /// Memory ran out.
    Memory(AllocError),
}

/// Why the words of a text are no rules.
#[derive(Drop, Clone, Copy)]
pub(crate) enum WordError {
    Expected { what: &'static str, at: Place },
    TooDeep { at: Place },
    Memory(AllocError),
}

impl fmt::Display for ReadError {
    ghost use Rattle.std.specs.Prelude.{Some};
    ghost use Rattle.rule_text.specs.Errors.{read_error_line};

    ghost output = { λ error. Some (read_error_line error) };

    fn fmt<W: fmt::Write>(&self, f: &mut fmt::Formatter<W>) -> fmt::Result {
        match self {
            ReadError::Tokens(reason) => write!(f, "{reason}"),
            ReadError::Expected { what, at } => {
                write!(f, "{}:{}: expected {}", at.line, at.column, what)
            }
            ReadError::TooDeep { at } => { write!(f, "{}:{}: nested too deep", at.line, at.column) }
            ReadError::Memory(_) => write!(f, "memory"),
        }
    }
}

impl Error for ReadError {}

impl From<TokenizeError> for ReadError {
    ghost use Rattle.rule_text.specs.declared.error.ReadError.TheVariants.{Tokens};

    ghost from_gives = { λ reason error. error ≡ Tokens reason };

    fn from(reason: TokenizeError) -> ReadError {
        ReadError::Tokens(reason)
    }
}

impl From<AllocError> for ReadError {
    ghost use Rattle.rule_text.specs.declared.error.ReadError.TheVariants.{Memory};

    ghost from_gives = { λ reason error. error ≡ Memory reason };

    fn from(reason: AllocError) -> ReadError {
        ReadError::Memory(reason)
    }
}

impl From<WordError> for ReadError {
    ghost use Rattle.rule_text.specs.Errors.{read_error_of};

    ghost from_gives = { λ reason error. error ≡ read_error_of reason };

    fn from(reason: WordError) -> ReadError {
        match reason {
            WordError::Expected { what, at } => ReadError::Expected { what, at },
            WordError::TooDeep { at } => ReadError::TooDeep { at },
            WordError::Memory(reason) => ReadError::Memory(reason),
        }
    }
}

impl<T: Drop> From<AllocFailed<T>> for WordError {
    ghost use Rattle.std.specs.Prelude.{alloc_error};
    ghost use Rattle.rule_text.specs.declared.error.WordError.TheVariants.{Memory};

    ghost from_gives = { λ _ error. error ≡ Memory alloc_error };

    fn from(reason: AllocFailed<T>) -> WordError {
        WordError::Memory(AllocError::from(reason))
    }
}

impl Place {
    /// The place of a byte of a text.
    pub fn of(text: &str, byte: usize) -> Place
        ensures { result ≡ place_of text.now byte }
    {
        let bytes = text.as_bytes();
        place_after(&bytes[..byte.min(bytes.len())])
    }

    /// The place after this byte.
    fn after(self, byte: u8) -> Place
        ensures line { result.line ≡ (if byte == 10 then min (self.line + 1) usize.MAX else self.line) }
        ensures column { result.column ≡ (if byte == 10 then 1 else min (self.column + 1) usize.MAX) }
    {
        if byte == b'\n' {
            Place {
                line: self.line.saturating_add(1),
                column: 1,
            }
        } else {
            Place {
                line: self.line,
                column: self.column.saturating_add(1),
            }
        }
    }
}

/// The place after a text.
fn place_after(before: &[u8]) -> Place
    ensures { result ≡ place_after before.now }
{
    let mut place = Place { line: 1, column: 1 };
    for one in before {
        place = place.after(*one);
    }
    place
}
