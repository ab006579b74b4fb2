//! Why a case can't be run.

use squawk_document::DocumentError;
use std::alloc::AllocError;
use std::fmt;

#[derive(Clone, Copy)]
pub enum Trouble {
    OutOfMemory,
    /// What stands at this line of the file is no part of a case.
    Malformed { line: usize, what: &'static str },
}

/// The line isn't what it has to be.
pub fn malformed(line: usize, what: &'static str) -> Trouble {
    Trouble::Malformed { line, what }
}

/// The JSON of the line isn't what it has to be, or memory is wanting for it.
pub fn json_trouble(error: DocumentError, line: usize, what: &'static str) -> Trouble {
    match error {
        DocumentError::OutOfMemory => Trouble::OutOfMemory,
        DocumentError::Json | DocumentError::Shape => malformed(line, what),
    }
}

impl From<AllocError> for Trouble {
    fn from(_error: AllocError) -> Trouble {
        Trouble::OutOfMemory
    }
}

impl fmt::Display for Trouble {
    fn fmt<W: fmt::Write>(&self, f: &mut fmt::Formatter<W>) -> fmt::Result {
        match *self {
            Trouble::OutOfMemory => write!(f, "memory"),
            Trouble::Malformed { line, what } => write!(f, "line {line}: {what}"),
        }
    }
}
