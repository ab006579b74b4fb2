//! Errors of programs on SQL.
ghost use Rattle.std.specs.Prelude.{◌≡◌};

use sql_lexer::TokenizeError;
use std::alloc::AllocError;
use std::error::Error;
use std::{fmt, io};
use syntax_tree::ParseTreeError;

/// The stage that failed, with its error.
#[derive(Debug, Drop)]
pub enum SqlError {
    /// The text can't be read, or the output can't be written.
    Io(io::Error),
    /// The text has no raw tokens.
    Tokens(TokenizeError),
    /// The text has no tree.
    Tree(ParseTreeError),
    /// Memory ran out in any other stage.
    Memory(AllocError),
}

impl fmt::Display for SqlError {
    ghost use Rattle.sql_syntax.specs.SqlErrors.{sql_error_line};

    ghost output = { sql_error_line };

    fn fmt<W: fmt::Write>(&self, f: &mut fmt::Formatter<W>) -> fmt::Result {
        match self {
            SqlError::Io(reason) => write!(f, "{reason}"),
            SqlError::Tokens(reason) => write!(f, "{reason}"),
            SqlError::Tree(reason) => write!(f, "{reason}"),
            SqlError::Memory(_reason) => write!(f, "out of memory"),
        }
    }
}

impl Error for SqlError {}

impl From<io::Error> for SqlError {
    ghost use Rattle.sql_syntax.specs.declared.error.SqlError.TheVariants.{Io};

    ghost from_gives = { λ reason error. error ≡ Io reason };

    fn from(reason: io::Error) -> SqlError {
        SqlError::Io(reason)
    }
}

impl From<TokenizeError> for SqlError {
    ghost use Rattle.sql_syntax.specs.declared.error.SqlError.TheVariants.{Tokens};

    ghost from_gives = { λ reason error. error ≡ Tokens reason };

    fn from(reason: TokenizeError) -> SqlError {
        SqlError::Tokens(reason)
    }
}

impl From<ParseTreeError> for SqlError {
    ghost use Rattle.sql_syntax.specs.declared.error.SqlError.TheVariants.{Tree};

    ghost from_gives = { λ reason error. error ≡ Tree reason };

    fn from(reason: ParseTreeError) -> SqlError {
        SqlError::Tree(reason)
    }
}

impl From<AllocError> for SqlError {
    ghost use Rattle.sql_syntax.specs.declared.error.SqlError.TheVariants.{Memory};

    ghost from_gives = { λ reason error. error ≡ Memory reason };

    fn from(reason: AllocError) -> SqlError {
        SqlError::Memory(reason)
    }
}

/// The error of a file.
#[derive(Debug, Drop)]
pub struct FileError<'n> {
    /// The name of the file.
    pub name: &'n str,
    /// Why nothing is told of the file, or not all of it is printed.
    pub error: SqlError,
}

impl fmt::Display for FileError<'_> {
    ghost use Rattle.sql_syntax.specs.SqlErrors.{file_error_line};

    ghost output = { file_error_line };

    fn fmt<W: fmt::Write>(&self, f: &mut fmt::Formatter<W>) -> fmt::Result {
        let FileError { name, error } = self;
        write!(f, "{name}: {error}")
    }
}

impl Error for FileError<'_> {}
