//! The error of a parse.
ghost use Rattle.std.specs.Prelude.{◌≡◌};
ghost use Rattle.squawk_parser.specs.declared.parser.parse_error.ParseError.TheVariants.{OutOfMemory};

use std::alloc::AllocError;
use std::error::Error;
use std::fmt;

/// Why a parse has no output.
#[derive(Clone, Copy, Debug, PartialEq, Eq)]
pub enum ParseError {
    /// An allocation failed, of the parser, the grammar or the output.
    OutOfMemory,
    /// An event past the limit of events was to be recorded.
    TooManyEvents,
    /// An error past the limit of errors was to be recorded.
    TooManyErrors,
}

impl fmt::Display for ParseError {
    ghost use Rattle.std.specs.Prelude.{Some};
    ghost use Rattle.squawk_parser.specs.ErrorLines.{parse_error_line};

    ghost output = { λ error. Some (parse_error_line error) };

    fn fmt<W: fmt::Write>(&self, f: &mut fmt::Formatter<W>) -> fmt::Result {
        match *self {
            ParseError::OutOfMemory => write!(f, "memory"),
            ParseError::TooManyEvents => write!(f, "too many events"),
            ParseError::TooManyErrors => write!(f, "too many errors"),
        }
    }
}

impl Error for ParseError {}

impl From<AllocError> for ParseError {
    ghost from_gives = { λ _ error. error ≡ OutOfMemory };

    fn from(_error: AllocError) -> ParseError {
        ParseError::OutOfMemory
    }
}
