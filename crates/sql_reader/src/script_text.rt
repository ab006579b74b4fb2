//! A text of a script.

use crate::read_error::ReadError;
use crate::window::leaving;
use sql_lexer::ScriptPlace;

/// A text of a script: as much of what is unread as is in memory.
#[derive(Clone, Copy)]
pub struct ScriptText<'r> {
    pub text: &'r str,
    /// Where the script stands before the text.
    pub place: ScriptPlace,
    /// What comes after the text.
    pub next: Next,
    /// The bytes in memory: some before the text, the text, and what is no character yet.
    pub window: &'r [u8],
    /// Where the text begins in the window, in bytes.
    pub start: usize,
    /// How many bytes of the script stand before the window; at most `usize::MAX` are counted.
    pub passed: usize,
}

impl<'r> ScriptText<'r> {
    ghost use Rattle.std.specs.Prelude.{◌≡◌, ◌+◌, ◌^◌, ◌<◌, take};
    ghost use Rattle.sql_reader.specs.Readers.{leaving};

    /// The bytes of the window that leave the memory where so many bytes of the text are read. Lines and columns after them are
    /// counted before that.
    pub fn leaving(&self, count: usize) -> &'r [u8]
        ensures { self.now.start + count < 2 ^ 64 → result.now ≡ take (leaving self.now.start count) self.now.window.now }
    {
        let gone = leaving(self.start, count).min(self.window.len());
        &self.window[..gone]
    }
}

/// What comes after a text.
#[derive(Clone, Copy, Debug, PartialEq, Eq)]
pub enum Next {
    /// Perhaps more of the script.
    More,
    /// Nothing: the script ends.
    End,
    /// Nothing that can be read.
    Fault(ReadError),
}
