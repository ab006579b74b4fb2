//! What stops the telling of a text.
ghost use Rattle.std.specs.Prelude.{◌≡◌};
ghost use Rattle.sql_tree.specs.declared.stop.Stop.TheVariants as stop;

use crate::unread::Unread;
use sql_lexer::TokenizeError;
use sql_reader::ReadError;
use squawk_parser::ParseError;
use std::alloc::AllocError;
use std::io;

/// What stops the telling of a text before its end.
#[derive(Drop)]
pub enum Stop {
    /// The text isn't read to its end.
    Unread(Unread),
    /// What is told can't be printed.
    Output(io::Error),
}

impl From<ReadError> for Stop {
    ghost use Rattle.sql_tree.specs.Refusals.{unread_of_reader};

    ghost from_gives = { λ error why. why ≡ stop.Unread (unread_of_reader error) };

    fn from(error: ReadError) -> Stop {
        Stop::Unread(match error {
            ReadError::Io(kind) => Unread::Io(kind),
            ReadError::NotUtf8 { at } => Unread::NotUtf8 { at },
        })
    }
}

impl From<AllocError> for Stop {
    ghost use Rattle.sql_tree.specs.declared.unread.Unread.TheVariants.{OutOfMemory};

    ghost from_gives = { λ _ why. why ≡ stop.Unread OutOfMemory };

    fn from(_error: AllocError) -> Stop {
        Stop::Unread(Unread::OutOfMemory)
    }
}

impl From<TokenizeError> for Stop {
    ghost use Rattle.sql_tree.specs.Refusals.{unread_of_lexer};

    ghost from_gives = { λ error why. why ≡ stop.Unread (unread_of_lexer error) };

    fn from(error: TokenizeError) -> Stop {
        Stop::Unread(match error {
            TokenizeError::TextTooLong => Unread::TextTooLong,
            TokenizeError::OutOfMemory => Unread::OutOfMemory,
        })
    }
}

impl From<ParseError> for Stop {
    ghost use Rattle.sql_tree.specs.Refusals.{unread_of_parse};

    ghost from_gives = { λ error why. why ≡ stop.Unread (unread_of_parse error) };

    fn from(error: ParseError) -> Stop {
        Stop::Unread(match error {
            ParseError::OutOfMemory => Unread::OutOfMemory,
            ParseError::TooManyEvents => Unread::TooManyEvents,
            ParseError::TooManyErrors => Unread::TooManyErrors,
        })
    }
}

impl From<io::Error> for Stop {
    ghost from_gives = { λ error why. why ≡ stop.Output error };

    fn from(error: io::Error) -> Stop {
        Stop::Output(error)
    }
}
