//! Lines and columns.
ghost use Rattle.std.specs.Prelude.{◌≡◌, ◌++◌, List, ℕ, [], ◌∷◌};
ghost use Rattle.sql_report.specs.Places.{AreCountable, IsLineColumn, is_continuation};

/// The line and the column of a byte of a script. Both count from 1, columns in characters.
#[derive(Clone, Copy, Debug, PartialEq, Eq)]
pub struct LineColumn {
    pub line: usize,
    pub column: usize,
}

impl LineColumn {
    /// The first byte of a script.
    pub fn start() -> LineColumn
        ensures { IsLineColumn [] result }
    {
        LineColumn { line: 1, column: 1 }
    }

    /// Goes on over bytes, to the byte after them.
    pub fn pass(&mut self, bytes: &[u8])
        ensures { (read : List ℕ) → IsLineColumn read self.old → AreCountable (read ++ bytes.now) → IsLineColumn (read ++ bytes.now) self.new }
    {
        for byte in bytes {
            self.pass_byte(*byte);
        }
    }

    /// Goes on over a byte.
    fn pass_byte(&mut self, byte: u8)
        ensures { (read : List ℕ) → IsLineColumn read self.old → AreCountable (read ++ byte ∷ []) → IsLineColumn (read ++ byte ∷ []) self.new }
    {
        if byte == b'\n' {
            self.line = self.line.saturating_add(1);
            self.column = 1;
        } else if !is_continuation(byte) {
            self.column = self.column.saturating_add(1);
        }
    }
}

/// Whether a byte of UTF-8 belongs to a character that begins before it.
pub(crate) fn is_continuation(byte: u8) -> bool
    ensures { result ≡ is_continuation byte }
{
    0x80 <= byte && byte < 0xC0
}
