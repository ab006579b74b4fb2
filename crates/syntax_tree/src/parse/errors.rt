//! Why a text has no tree.
ghost use Rattle.std.specs.Prelude.{◌≡◌};

use squawk_parser::{ParseError, TableError};
use std::alloc::AllocError;
use std::error::Error;
use std::fmt;

/// Which stage of [`parse_tree`](crate::parse_tree) refused, with the error of its own.
#[derive(Debug, Drop)]
pub enum ParseTreeError {
    /// The raw tokens aren't those of the text, or memory was refused to their table.
    Table(TableError),
    /// Memory was refused to the parser's input.
    Input(AllocError),
    /// The parse was refused.
    Parse(ParseError),
    /// What the grammar left isn't one node, errors aside.
    NoRoot,
    /// The tree would have more than `u32::MAX` nodes and tokens.
    TooLarge,
    /// Memory was refused to the tree.
    OutOfMemory,
}

impl fmt::Display for ParseTreeError {
    ghost use Rattle.std.specs.Prelude.{Some};
    ghost use Rattle.syntax_tree.specs.ErrorLines.{parse_tree_error_line};

    ghost output = { λ error. Some (parse_tree_error_line error) };

    fn fmt<W: fmt::Write>(&self, f: &mut fmt::Formatter<W>) -> fmt::Result {
        match self {
            ParseTreeError::Table(reason) => write!(f, "{reason}"),
            ParseTreeError::Input(_reason) => write!(f, "memory"),
            ParseTreeError::Parse(reason) => write!(f, "{reason}"),
            ParseTreeError::NoRoot => write!(f, "no root"),
            ParseTreeError::TooLarge => write!(f, "tree too large"),
            ParseTreeError::OutOfMemory => write!(f, "memory"),
        }
    }
}

impl Error for ParseTreeError {}

impl From<TableError> for ParseTreeError {
    ghost use Rattle.syntax_tree.specs.declared.parse.errors.ParseTreeError.TheVariants.{Table};

    ghost from_gives = { λ reason error. error ≡ Table reason };

    fn from(reason: TableError) -> ParseTreeError {
        ParseTreeError::Table(reason)
    }
}
