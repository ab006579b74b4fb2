//! Why a text isn't told of to its end.

use sql_reader::io_words;
use std::error::Error;
use std::fmt;
use std::io::ErrorKind;

/// Why a text isn't read to its end.
#[derive(Clone, Copy, Debug, PartialEq, Eq)]
pub enum Unread {
    /// The file can't be opened or read.
    Io(ErrorKind),
    /// The byte at this place isn't UTF-8.
    NotUtf8 { at: usize },
    /// A statement has more than `u32::MAX` bytes.
    TextTooLong,
    /// The parse of a statement records more events than it may.
    TooManyEvents,
    /// The parse of a statement records more errors than it may.
    TooManyErrors,
    /// Memory was refused.
    OutOfMemory,
}

impl fmt::Display for Unread {
    ghost use Rattle.std.specs.Prelude.{Some};
    ghost use Rattle.sql_tree.specs.Refusals.{unread_line};

    ghost output = { λ unread. Some (unread_line unread) };

    fn fmt<W: fmt::Write>(&self, f: &mut fmt::Formatter<W>) -> fmt::Result {
        match *self {
            Unread::Io(kind) => {
                let words = io_words(kind);
                write!(f, "{words}")
            }
            Unread::NotUtf8 { at } => write!(f, "invalid UTF-8 at byte {at}"),
            Unread::TextTooLong => write!(f, "more than 4294967295 bytes"),
            Unread::TooManyEvents => write!(f, "too many events"),
            Unread::TooManyErrors => write!(f, "too many errors"),
            Unread::OutOfMemory => write!(f, "out of memory"),
        }
    }
}

impl Error for Unread {}
