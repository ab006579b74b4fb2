//! Why a script isn't read on.
ghost use Rattle.std.specs.Prelude.{◌≡◌};
ghost use Rattle.sql_reader.specs.ReadErrors.{io_words};

use std::error::Error;
use std::fmt;
use std::io::ErrorKind;

/// Why a script isn't read to its end.
#[derive(Clone, Copy, Debug, PartialEq, Eq)]
pub enum ReadError {
    /// The reader failed.
    Io(ErrorKind),
    /// No character of UTF-8 begins with the byte at this place, counted from the script's start.
    NotUtf8 { at: usize },
}

impl fmt::Display for ReadError {
    ghost use Rattle.std.specs.Prelude.{Some};
    ghost use Rattle.sql_reader.specs.ReadErrors.{read_error_line};

    ghost output = { λ error. Some (read_error_line error) };

    fn fmt<W: fmt::Write>(&self, f: &mut fmt::Formatter<W>) -> fmt::Result {
        match *self {
            ReadError::Io(kind) => {
                let words = io_words(kind);
                write!(f, "{words}")
            }
            ReadError::NotUtf8 { at } => write!(f, "invalid UTF-8 at byte {at}"),
        }
    }
}

impl Error for ReadError {}

/// What the system's errors are called.
pub fn io_words(kind: ErrorKind) -> &'static str
    ensures { result.now ≡ io_words kind }
{
    match kind {
        ErrorKind::NotFound => "entity not found",
        ErrorKind::PermissionDenied => "permission denied",
        ErrorKind::NotADirectory => "not a directory",
        ErrorKind::IsADirectory => "is a directory",
        ErrorKind::FilesystemLoop => "filesystem loop or indirection limit (e.g. symlink loop)",
        ErrorKind::InvalidInput => "invalid input parameter",
        ErrorKind::InvalidFilename => "invalid filename",
        ErrorKind::OutOfMemory => "out of memory",
        _ => "can't be read",
    }
}
