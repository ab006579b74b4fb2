//! The error of making a script.

use std::alloc::AllocError;
use std::error::Error;
use std::fmt;

/// Why no script can be made of a list of calls. A failed allocation comes first, then a bad call.
#[derive(Clone, Copy, Debug, PartialEq, Eq)]
pub enum ScriptError {
    /// The call at this index is the first that can't be made.
    ///
    /// Its marker doesn't exist or is spent; its node isn't completed or has been preceded; its marker isn't
    /// older than its node; its kind is none that it takes; or the number of its new marker is past `u32::MAX`.
    BadCall { index: usize },
    /// This marker is the least that is open after the last call.
    Unspent { marker: u32 },
    /// An allocation failed.
    OutOfMemory,
}

impl fmt::Display for ScriptError {
    ghost use Rattle.std.specs.Prelude.{Some};
    ghost use Rattle.squawk_script.specs.ErrorLines.{script_error_line};

    ghost output = { λ error. Some (script_error_line error) };

    fn fmt<W: fmt::Write>(&self, f: &mut fmt::Formatter<W>) -> fmt::Result {
        match *self {
            ScriptError::BadCall { index } => write!(f, "bad call {index}"),
            ScriptError::Unspent { marker } => write!(f, "unspent {marker}"),
            ScriptError::OutOfMemory => write!(f, "memory"),
        }
    }
}

impl Error for ScriptError {}

impl From<AllocError> for ScriptError {
    ghost use Rattle.std.specs.Prelude.{◌≡◌};
    ghost use Rattle.squawk_script.specs.declared.script_error.ScriptError.TheVariants.{OutOfMemory};

    ghost from_gives = { λ _ error. error ≡ OutOfMemory };

    fn from(_error: AllocError) -> ScriptError {
        ScriptError::OutOfMemory
    }
}
