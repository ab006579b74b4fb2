//! Why nothing is told.
use rule_tables::TextError;
use sql_lexer::TokenizeError;
use std::alloc::AllocError;
use std::{fmt, io};
use syntax_tree::ParseTreeError;

/// The stage that failed, with its error.
#[derive(Debug, Drop)]
pub enum LintError {
    /// The text can't be read, or the report can't be written.
    Io(io::Error),
    /// The rules can't be run.
    Rules(TextError),
    /// The text has no raw tokens.
    Tokens(TokenizeError),
    /// The text has no tree.
    Tree(ParseTreeError),
    /// Memory ran out in any other stage.
    Memory(AllocError),
}

impl fmt::Display for LintError {
    fn fmt<W: fmt::Write>(&self, f: &mut fmt::Formatter<W>) -> fmt::Result {
        match self {
            LintError::Io(reason) => write!(f, "{reason}"),
            LintError::Rules(reason) => write!(f, "rules: {reason}"),
            LintError::Tokens(reason) => write!(f, "{reason}"),
            LintError::Tree(reason) => write!(f, "{reason}"),
            LintError::Memory(_reason) => write!(f, "out of memory"),
        }
    }
}

impl From<io::Error> for LintError {
    fn from(reason: io::Error) -> LintError {
        LintError::Io(reason)
    }
}

impl From<TextError> for LintError {
    fn from(reason: TextError) -> LintError {
        LintError::Rules(reason)
    }
}

impl From<TokenizeError> for LintError {
    fn from(reason: TokenizeError) -> LintError {
        LintError::Tokens(reason)
    }
}

impl From<ParseTreeError> for LintError {
    fn from(reason: ParseTreeError) -> LintError {
        LintError::Tree(reason)
    }
}

impl From<AllocError> for LintError {
    fn from(reason: AllocError) -> LintError {
        LintError::Memory(reason)
    }
}
