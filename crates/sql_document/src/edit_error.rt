//! Why a text isn't edited.
ghost use Rattle.std.specs.Prelude.{◌≡◌};

use sql_lexer::TokenizeError;
use squawk_parser::ParseError;
use std::alloc::{AllocError, AllocFailed};
use std::error::Error;
use std::fmt;

/// Why a document isn't made, or isn't edited.
#[derive(Clone, Copy, Debug, PartialEq, Eq)]
pub enum EditError {
    /// The range isn't in the text, or doesn't begin and end between two characters.
    NoRange,
    /// The text would have more than `u32::MAX` bytes.
    TextTooLong,
    /// Memory was refused.
    OutOfMemory,
    /// The parse of some statements is refused.
    Parse(ParseError),
}

impl fmt::Display for EditError {
    ghost use Rattle.std.specs.Prelude.{Some};
    ghost use Rattle.sql_document.specs.EditErrors.{edit_error_line};

    ghost output = { λ error. Some (edit_error_line error) };

    fn fmt<W: fmt::Write>(&self, f: &mut fmt::Formatter<W>) -> fmt::Result {
        match self {
            EditError::NoRange => write!(f, "no range of the text"),
            EditError::TextTooLong => write!(f, "text too long"),
            EditError::OutOfMemory => write!(f, "memory"),
            EditError::Parse(reason) => write!(f, "{reason}"),
        }
    }
}

impl Error for EditError {}

impl From<AllocError> for EditError {
    ghost use Rattle.sql_document.specs.declared.edit_error.EditError.TheVariants.{OutOfMemory};

    ghost from_gives = { λ _ error. error ≡ OutOfMemory };

    fn from(_error: AllocError) -> EditError {
        EditError::OutOfMemory
    }
}

impl<T: Drop> From<AllocFailed<T>> for EditError {
    ghost use Rattle.sql_document.specs.declared.edit_error.EditError.TheVariants.{OutOfMemory};

    ghost from_gives = { λ _ error. error ≡ OutOfMemory };

    fn from(_error: AllocFailed<T>) -> EditError {
        EditError::OutOfMemory
    }
}

impl From<TokenizeError> for EditError {
    ghost use Rattle.sql_document.specs.EditErrors.{error_of_lexer};

    ghost from_gives = { λ reason error. error ≡ error_of_lexer reason };

    fn from(reason: TokenizeError) -> EditError {
        match reason {
            TokenizeError::TextTooLong => EditError::TextTooLong,
            TokenizeError::OutOfMemory => EditError::OutOfMemory,
        }
    }
}

impl From<ParseError> for EditError {
    ghost use Rattle.sql_document.specs.EditErrors.{error_of_parse};

    ghost from_gives = { λ reason error. error ≡ error_of_parse reason };

    fn from(reason: ParseError) -> EditError {
        match reason {
            ParseError::OutOfMemory => EditError::OutOfMemory,
            reason => EditError::Parse(reason),
        }
    }
}
