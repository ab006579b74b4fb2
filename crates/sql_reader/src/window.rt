//! The bytes of a script that are in memory.
ghost use Rattle.std.specs.Prelude.{◌≡◌, ℕ, ◌+◌, ◌^◌, ◌<◌, ◌≤◌, List, [], ◌++◌, length, drop, take, IfOk};
ghost use Rattle.sql_reader.specs.Readers.{leaving};
ghost use Rattle.std.specs.Io.KnownBytes.{Consumes, IsAtEnd};

use std::alloc::{AllocError, Global};
use std::io;
use std::io::Read;

/// So many bytes before those that are unread stay in memory, if the script has so many: more than is shown of a line before an
/// error.
const KEPT: usize = 128;

/// So many bytes are read at once at most.
const CHUNK: usize = 8192;

/// Bytes of a script: some that were read, and after them those that are unread.
#[derive(Drop)]
pub(crate) struct Window {
    bytes: Vec<u8>,
    /// Where the unread bytes begin.
    start: usize,
    ghost within: { start ≤ length bytes.items },
}

impl Window {
    ghost use Rattle.sql_reader.specs.Readers.{leaving};
    ghost use Rattle.sql_reader.specs.Windows.{kept, unread};

    /// No bytes.
    pub(crate) fn new(alloc: Global) -> Window
        ensures { (kept result ≡ []) × (unread result ≡ []) }
    {
        Window {
            bytes: Vec::new(alloc),
            start: 0,
        }
    }

    /// All bytes.
    pub(crate) fn bytes(&self) -> &[u8]
        ensures { result.now ≡ self.now.bytes.items }
    {
        &self.bytes
    }

    /// How many bytes before the unread ones are in memory.
    pub(crate) fn start(&self) -> usize
        ensures { result ≡ length (kept self.now) }
    {
        self.start
    }

    /// The bytes that are unread.
    pub(crate) fn unread(&self) -> &[u8]
        ensures { result.now ≡ unread self.now }
    {
        &self.bytes[self.start..]
    }

    /// Reads once. Returns how many bytes were read, none at the end. At want of memory nothing is read.
    pub(crate) fn read_from<R: Read>(
        &mut self,
        reader: &mut R,
    ) -> Result<io::Result<usize>, AllocError>
        ensures kept { kept self.new ≡ kept self.old }
        ensures more { (more : List ℕ) × (unread self.new ≡ unread self.old ++ more) × Consumes (R.remaining reader.old) (R.remaining reader.new) more }
        ensures end { IfOk result (λ read. IfOk read (λ count. count ≡ 0 → IsAtEnd (R.remaining reader.new))) }
    {
        self.bytes.reserve(CHUNK)?;
        let mut chunk = [0; CHUNK];
        let read = reader.read(&mut chunk);
        if let Ok(count) = read {
            self.bytes.extend_from_slice(&chunk[..count])?;
        }
        Ok(read)
    }

    /// Goes over so many unread bytes. Returns how many bytes leave the memory.
    pub(crate) fn go_on(&mut self, count: usize) -> usize
        requires { count ≤ length (unread self.old) }
        ensures unread { unread self.new ≡ drop count (unread self.old) }
        ensures kept { kept self.old ++ take count (unread self.old) ≡ take (leaving (length (kept self.old)) count) (kept self.old ++ unread self.old) ++ kept self.new }
        ensures gone { result ≡ leaving (length (kept self.old)) count }
    {
        let start = self.start + count;
        let gone = leaving(self.start, count);
        let left = self.bytes.len() - gone;
        self.bytes.copy_within(gone.., 0);
        self.bytes.truncate(left);
        self.start = start - gone;
        gone
    }
}

/// How many bytes leave the memory, of those that stand before a text and so many of it that are read.
pub(crate) fn leaving(start: usize, count: usize) -> usize
    ensures { start + count < 2 ^ 64 → result ≡ leaving start count }
{
    start.saturating_add(count).saturating_sub(KEPT)
}
