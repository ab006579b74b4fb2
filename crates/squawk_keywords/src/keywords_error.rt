//! The error of making a vocabulary.

use std::alloc::AllocError;
use std::error::Error;
use std::fmt;

/// Why no vocabulary can be made of two lists. If several apply, the first one listed is returned.
#[derive(Clone, Copy, Debug, PartialEq, Eq)]
pub enum KeywordsError {
    /// The keyword at this index is the first whose kind can't be a keyword's.
    Keyword(usize),
    /// The contextual keyword at this index is the first whose kind can't be a keyword's.
    Contextual(usize),
    /// An allocation failed.
    OutOfMemory,
}

impl fmt::Display for KeywordsError {
    ghost use Rattle.std.specs.Prelude.{Some};
    ghost use Rattle.squawk_keywords.specs.ErrorLines.{keywords_error_line};

    ghost output = { λ error. Some (keywords_error_line error) };

    fn fmt<W: fmt::Write>(&self, f: &mut fmt::Formatter<W>) -> fmt::Result {
        match *self {
            KeywordsError::Keyword(index) => write!(f, "kind of keyword {index}"),
            KeywordsError::Contextual(index) => write!(f, "kind of contextual keyword {index}"),
            KeywordsError::OutOfMemory => write!(f, "memory"),
        }
    }
}

impl Error for KeywordsError {}

impl From<AllocError> for KeywordsError {
    ghost use Rattle.std.specs.Prelude.{◌≡◌};
    ghost use Rattle.squawk_keywords.specs.declared.keywords_error.KeywordsError.TheVariants.{OutOfMemory};

    ghost from_gives = { λ _ error. error ≡ OutOfMemory };

    fn from(_error: AllocError) -> KeywordsError {
        KeywordsError::OutOfMemory
    }
}
