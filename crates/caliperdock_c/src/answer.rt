//! What a call answers.
ghost use Rattle.std.specs.Prelude.{◌≡◌};
ghost use Rattle.caliperdock_c.specs.Answers.{answer_of, done, too_small};

use sql_lexer::TokenizeError;
use squawk_parser::{ParseError, TableError};
use std::alloc::{AllocError, AllocFailed};

/// Why a call did nothing.
#[derive(Clone, Copy, Debug, PartialEq, Eq)]
pub enum Refusal {
    /// Memory was refused.
    OutOfMemory,
    /// The text isn't UTF-8: at this byte its longest front ends that is.
    NotUtf8 { at: usize },
    /// The raw token at this place isn't written as one.
    UnknownToken { index: usize },
    /// What the check of the raw tokens refuses.
    Table(TableError),
    /// There are more than 2147483648 events, or a parse had to record more than 4294967295.
    TooManyEvents,
    /// A parse had to record more than 2147483648 errors.
    TooManyErrors,
    /// The event at this place isn't written as one.
    UnknownEvent { index: usize },
    /// The link of the event at this place leads to no later start.
    BadLink { index: usize },
    /// The nodes don't stand in one root.
    NoRoot,
    /// The tokens of the nodes aren't those of the text.
    DoesNotFit,
}

impl From<TableError> for Refusal {
    ghost use Rattle.caliperdock_c.specs.declared.answer.Refusal.TheVariants.{Table};

    ghost from_gives = { λ reason error. error ≡ Table reason };

    fn from(reason: TableError) -> Refusal {
        Refusal::Table(reason)
    }
}

impl From<AllocError> for Refusal {
    ghost use Rattle.caliperdock_c.specs.declared.answer.Refusal.TheVariants.{OutOfMemory};

    ghost from_gives = { λ _ error. error ≡ OutOfMemory };

    fn from(_error: AllocError) -> Refusal {
        Refusal::OutOfMemory
    }
}

impl<T: Drop> From<AllocFailed<T>> for Refusal {
    ghost use Rattle.caliperdock_c.specs.declared.answer.Refusal.TheVariants.{OutOfMemory};

    ghost from_gives = { λ _ error. error ≡ OutOfMemory };

    fn from(_error: AllocFailed<T>) -> Refusal {
        Refusal::OutOfMemory
    }
}

impl From<TokenizeError> for Refusal {
    ghost use Rattle.caliperdock_c.specs.Answers.{refusal_of_lexer};

    ghost from_gives = { λ reason error. error ≡ refusal_of_lexer reason };

    fn from(reason: TokenizeError) -> Refusal {
        match reason {
            TokenizeError::TextTooLong => Refusal::Table(TableError::TextTooLong),
            TokenizeError::OutOfMemory => Refusal::OutOfMemory,
        }
    }
}

impl From<ParseError> for Refusal {
    ghost use Rattle.caliperdock_c.specs.Answers.{refusal_of_parse};

    ghost from_gives = { λ reason error. error ≡ refusal_of_parse reason };

    fn from(reason: ParseError) -> Refusal {
        match reason {
            ParseError::OutOfMemory => Refusal::OutOfMemory,
            ParseError::TooManyEvents => Refusal::TooManyEvents,
            ParseError::TooManyErrors => Refusal::TooManyErrors,
        }
    }
}

/// The number of an answer, and the place that it speaks of: 0 where it speaks of none.
#[repr(C)]
#[derive(Clone, Copy)]
pub struct CAnswer {
    pub status: u32,
    pub place: u64,
}

impl CAnswer {
    /// All is written.
    pub fn done() -> CAnswer
        ensures { result ≡ done }
    {
        CAnswer {
            status: 0,
            place: 0,
        }
    }

    /// There is more than there is room for.
    pub fn too_small() -> CAnswer
        ensures { result ≡ too_small }
    {
        CAnswer {
            status: 1,
            place: 0,
        }
    }

    /// Nothing is written.
    pub fn refused(refusal: Refusal) -> CAnswer
        ensures { result ≡ answer_of refusal }
    {
        let (status, place) = match refusal {
            Refusal::OutOfMemory => (2, 0),
            Refusal::NotUtf8 { at } => (3, at),
            Refusal::UnknownToken { index } => (4, index),
            Refusal::Table(TableError::OutOfMemory) => (2, 0),
            Refusal::Table(TableError::TextTooLong) => (5, 0),
            Refusal::Table(TableError::BadToken { index }) => (6, index),
            Refusal::Table(TableError::TextLeft { at }) => (7, at),
            Refusal::TooManyEvents => (8, 0),
            Refusal::UnknownEvent { index } => (9, index),
            Refusal::BadLink { index } => (10, index),
            Refusal::NoRoot => (11, 0),
            Refusal::DoesNotFit => (12, 0),
            Refusal::TooManyErrors => (13, 0),
        };
        CAnswer {
            status,
            place: place as u64,
        }
    }
}
