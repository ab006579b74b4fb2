//! The error of a run.
ghost use Rattle.std.specs.Prelude.{◌≡◌, ◌==◌, ◌++◌};
ghost use Rattle.squawk_answer.specs.Fault.{fault_line, fault_status, number_text};

use squawk_document::DocumentError;
use squawk_parser::{ParseError, TableError};
use squawk_script::ScriptError;
use std::alloc::AllocError;
use std::error::Error;
use std::fmt;

/// Why there is no answer: the error of the stage that failed.
///
/// If several apply, the first one listed is returned. A failed allocation is [`Fault::Memory`], or the
/// `OutOfMemory` of the stage's own error.
#[derive(Clone, Copy, Debug, PartialEq, Eq)]
pub enum Fault {
    /// The bytes aren't a document.
    Document(DocumentError),
    /// The raw tokens aren't those of the text.
    Table(TableError),
    /// A call can't be made, or a marker is left open.
    Script(ScriptError),
    /// The parse recorded more events or errors than it may.
    Parse(ParseError),
    /// The output isn't one node over the text.
    DoesNotFit,
    /// An allocation failed.
    Memory,
    /// A read or a write failed, or the reader doesn't end.
    Io,
}

impl Fault {
    /// The exit status of the program.
    pub fn status(&self) -> u8
        ensures status { result ≡ fault_status self.now }
        ensures io { result ≡ 8 → self.now ≡ Fault.Io }
    {
        match *self {
            Fault::Document(DocumentError::OutOfMemory)
            | Fault::Table(TableError::OutOfMemory)
            | Fault::Script(ScriptError::OutOfMemory)
            | Fault::Parse(ParseError::OutOfMemory)
            | Fault::Memory => 7,
            Fault::Document(_) => 2,
            Fault::Table(_) => 3,
            Fault::Script(_) => 4,
            Fault::Parse(_) => 5,
            Fault::DoesNotFit => 6,
            Fault::Io => 8,
        }
    }

    /// Whether an allocation failed, at whatever stage.
    pub fn is_out_of_memory(&self) -> bool
        ensures { result ≡ (fault_status self.now == 7) }
    {
        self.status() == 7
    }

    /// The text of its line, and the number behind it, if there is one: what prints the line has no memory.
    pub(crate) fn parts(&self) -> (&'static str, Option<usize>)
        ensures { fault_line self.now ≡ result.0.now ++ number_text result.1 }
    {
        match *self {
            Fault::Document(DocumentError::Json) => ("json", None),
            Fault::Document(DocumentError::Shape) => ("shape", None),
            Fault::Table(TableError::TextTooLong) => ("text too long", None),
            Fault::Table(TableError::BadToken { index }) => ("bad token ", Some(index)),
            Fault::Table(TableError::TextLeft { at }) => ("text left at ", Some(at)),
            Fault::Script(ScriptError::BadCall { index }) => ("bad call ", Some(index)),
            Fault::Script(ScriptError::Unspent { marker }) => ("unspent ", Some(marker as usize)),
            Fault::Parse(ParseError::TooManyEvents) => ("too many events", None),
            Fault::Parse(ParseError::TooManyErrors) => ("too many errors", None),
            Fault::Document(DocumentError::OutOfMemory)
            | Fault::Table(TableError::OutOfMemory)
            | Fault::Script(ScriptError::OutOfMemory)
            | Fault::Parse(ParseError::OutOfMemory)
            | Fault::Memory => ("memory", None),
            Fault::DoesNotFit => ("does not fit", None),
            Fault::Io => ("io", None),
        }
    }
}

impl fmt::Display for Fault {
    ghost use Rattle.std.specs.Prelude.{Some};
    ghost use Rattle.squawk_answer.specs.Fault.{fault_line};

    ghost output = { λ fault. Some (fault_line fault) };

    fn fmt<W: fmt::Write>(&self, f: &mut fmt::Formatter<W>) -> fmt::Result {
        match self {
            Fault::Document(reason) => write!(f, "{reason}"),
            Fault::Table(reason) => write!(f, "{reason}"),
            Fault::Script(reason) => write!(f, "{reason}"),
            Fault::Parse(reason) => write!(f, "{reason}"),
            Fault::DoesNotFit => write!(f, "does not fit"),
            Fault::Memory => write!(f, "memory"),
            Fault::Io => write!(f, "io"),
        }
    }
}

impl From<DocumentError> for Fault {
    ghost use Rattle.squawk_answer.specs.declared.fault.Fault.TheVariants.{Document};

    ghost from_gives = { λ reason fault. fault ≡ Document reason };

    fn from(reason: DocumentError) -> Fault {
        Fault::Document(reason)
    }
}

impl From<TableError> for Fault {
    ghost use Rattle.squawk_answer.specs.declared.fault.Fault.TheVariants.{Table};

    ghost from_gives = { λ reason fault. fault ≡ Table reason };

    fn from(reason: TableError) -> Fault {
        Fault::Table(reason)
    }
}

impl From<ScriptError> for Fault {
    ghost use Rattle.squawk_answer.specs.declared.fault.Fault.TheVariants.{Script};

    ghost from_gives = { λ reason fault. fault ≡ Script reason };

    fn from(reason: ScriptError) -> Fault {
        Fault::Script(reason)
    }
}

impl From<ParseError> for Fault {
    ghost use Rattle.squawk_answer.specs.declared.fault.Fault.TheVariants.{Parse};

    ghost from_gives = { λ reason fault. fault ≡ Parse reason };

    fn from(reason: ParseError) -> Fault {
        Fault::Parse(reason)
    }
}

impl From<AllocError> for Fault {
    ghost use Rattle.squawk_answer.specs.declared.fault.Fault.TheVariants.{Memory};

    ghost from_gives = { λ _ fault. fault ≡ Memory };

    fn from(_error: AllocError) -> Fault {
        Fault::Memory
    }
}

impl Error for Fault {}
