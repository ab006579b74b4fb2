//! The error of reading a document.

use squawk_keywords::KeywordsError;
use std::alloc::{AllocError, AllocFailed};
use std::error::Error;
use std::fmt;

/// Why a document can't be read.
#[derive(Clone, Copy, Debug, PartialEq, Eq)]
pub enum DocumentError {
    /// The bytes aren't JSON in UTF-8.
    Json,
    /// The JSON doesn't have the shape of a document.
    Shape,
    /// An allocation failed.
    OutOfMemory,
}

impl fmt::Display for DocumentError {
    ghost use Rattle.std.specs.Prelude.{Some};
    ghost use Rattle.squawk_document.specs.ErrorLines.{document_error_line};

    ghost output = { λ error. Some (document_error_line error) };

    fn fmt<W: fmt::Write>(&self, f: &mut fmt::Formatter<W>) -> fmt::Result {
        match *self {
            DocumentError::Json => write!(f, "json"),
            DocumentError::Shape => write!(f, "shape"),
            DocumentError::OutOfMemory => write!(f, "memory"),
        }
    }
}

impl Error for DocumentError {}

impl From<AllocError> for DocumentError {
    ghost use Rattle.std.specs.Prelude.{◌≡◌};
    ghost use Rattle.squawk_document.specs.declared.document_error.DocumentError.TheVariants.{OutOfMemory};

    ghost from_gives = { λ _ error. error ≡ OutOfMemory };

    fn from(_error: AllocError) -> DocumentError {
        DocumentError::OutOfMemory
    }
}

impl<T: Drop> From<AllocFailed<T>> for DocumentError {
    ghost use Rattle.std.specs.Prelude.{◌≡◌};
    ghost use Rattle.squawk_document.specs.declared.document_error.DocumentError.TheVariants.{OutOfMemory};

    ghost from_gives = { λ _ error. error ≡ OutOfMemory };

    fn from(_error: AllocFailed<T>) -> DocumentError {
        DocumentError::OutOfMemory
    }
}

impl From<KeywordsError> for DocumentError {
    ghost use Rattle.std.specs.Prelude.{◌≡◌};
    ghost use Rattle.squawk_document.specs.KeywordErrors.{error_of};

    ghost from_gives = { λ reason error. error ≡ error_of reason };

    fn from(reason: KeywordsError) -> DocumentError {
        match reason {
            KeywordsError::Keyword(_) | KeywordsError::Contextual(_) => DocumentError::Shape,
            KeywordsError::OutOfMemory => DocumentError::OutOfMemory,
        }
    }
}
