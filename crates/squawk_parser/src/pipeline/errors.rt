//! The errors of the calls from a text to a sink.
ghost use Rattle.std.specs.Prelude.{◌≡◌};

use crate::parser::ParseError;
use squawk_table::TableError;
use std::alloc::AllocError;
use std::error::Error;
use std::fmt;

/// The stage of [`parse_into`](crate::parse_into) that failed, with its error.
#[derive(Debug, Drop)]
pub enum ParseIntoError<R> {
    /// The raw tokens aren't those of the text, or an allocation of their table failed.
    Table(TableError),
    /// An allocation of the parser's input failed.
    Input(AllocError),
    /// The parse failed.
    Parse(ParseError),
    /// The grammar didn't leave exactly one node, errors aside.
    NoRoot,
    /// The sink refused a step.
    Sink(R),
}

impl<R: fmt::Display> fmt::Display for ParseIntoError<R> {
    ghost use Rattle.squawk_parser.specs.ErrorLines.{parse_into_error_line};

    ghost output = { parse_into_error_line R.output };

    fn fmt<W: fmt::Write>(&self, f: &mut fmt::Formatter<W>) -> fmt::Result {
        match self {
            ParseIntoError::Table(reason) => write!(f, "{reason}"),
            ParseIntoError::Input(_reason) => write!(f, "memory"),
            ParseIntoError::Parse(reason) => write!(f, "{reason}"),
            ParseIntoError::NoRoot => write!(f, "no root"),
            ParseIntoError::Sink(answer) => write!(f, "{answer}"),
        }
    }
}

impl<R: Error> Error for ParseIntoError<R> {}

impl<R> From<TableError> for ParseIntoError<R> {
    ghost use Rattle.squawk_parser.specs.declared.pipeline.errors.ParseIntoError.TheVariants.{Table};

    ghost from_gives = { λ reason error. error ≡ Table reason };

    fn from(reason: TableError) -> ParseIntoError<R> {
        ParseIntoError::Table(reason)
    }
}

impl<R> From<ParseWholeError<R>> for ParseIntoError<R> {
    ghost use Rattle.squawk_parser.specs.Pipeline.{as_into_error};

    ghost from_gives = { λ reason error. error ≡ as_into_error reason };

    fn from(reason: ParseWholeError<R>) -> ParseIntoError<R> {
        match reason {
            ParseWholeError::Table(reason) => ParseIntoError::Table(reason),
            ParseWholeError::Input(reason) => ParseIntoError::Input(reason),
            ParseWholeError::Parse(reason) => ParseIntoError::Parse(reason),
            ParseWholeError::Sink(answer) => ParseIntoError::Sink(answer),
        }
    }
}

/// The stage of [`parse_whole_into`](crate::parse_whole_into) that failed, with its error.
#[derive(Debug, Drop)]
pub enum ParseWholeError<R> {
    /// The raw tokens aren't those of the text, or an allocation of their table failed.
    Table(TableError),
    /// An allocation of the parser's input failed.
    Input(AllocError),
    /// The parse failed.
    Parse(ParseError),
    /// The sink refused a step.
    Sink(R),
}

impl<R: fmt::Display> fmt::Display for ParseWholeError<R> {
    ghost use Rattle.squawk_parser.specs.ErrorLines.{parse_into_error_line};
    ghost use Rattle.squawk_parser.specs.Pipeline.{as_into_error};

    ghost output = { λ error. parse_into_error_line R.output (as_into_error error) };

    fn fmt<W: fmt::Write>(&self, f: &mut fmt::Formatter<W>) -> fmt::Result {
        match self {
            ParseWholeError::Table(reason) => write!(f, "{reason}"),
            ParseWholeError::Input(_reason) => write!(f, "memory"),
            ParseWholeError::Parse(reason) => write!(f, "{reason}"),
            ParseWholeError::Sink(answer) => write!(f, "{answer}"),
        }
    }
}

impl<R: Error> Error for ParseWholeError<R> {}

impl<R> From<TableError> for ParseWholeError<R> {
    ghost use Rattle.squawk_parser.specs.declared.pipeline.errors.ParseWholeError.TheVariants.{Table};

    ghost from_gives = { λ reason error. error ≡ Table reason };

    fn from(reason: TableError) -> ParseWholeError<R> {
        ParseWholeError::Table(reason)
    }
}

impl<R> From<AllocError> for ParseWholeError<R> {
    ghost use Rattle.squawk_parser.specs.declared.pipeline.errors.ParseWholeError.TheVariants.{Input};

    ghost from_gives = { λ reason error. error ≡ Input reason };

    fn from(reason: AllocError) -> ParseWholeError<R> {
        ParseWholeError::Input(reason)
    }
}

impl<R> From<ParseError> for ParseWholeError<R> {
    ghost use Rattle.squawk_parser.specs.declared.pipeline.errors.ParseWholeError.TheVariants.{Parse};

    ghost from_gives = { λ reason error. error ≡ Parse reason };

    fn from(reason: ParseError) -> ParseWholeError<R> {
        ParseWholeError::Parse(reason)
    }
}
