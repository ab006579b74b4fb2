//! Watches the reads and the writes of a run.
ghost use Rattle.std.specs.Prelude.{◌≡◌, ◌≢◌, ◌+◌, ◌<◌, ◌≤◌, ◌^◌, [], length, take, true, false, is_some, IfOk, IfErr, IfSome, IfNone, Ok};
ghost use Rattle.std.specs.Io.{WritesAtMost};
ghost use Rattle.std.specs.Io.KnownBytes.{Appends, WriteAppends};
ghost use Rattle.std.specs.IoError.{error_kind};
ghost use Rattle.squawk_answer.specs.Reads.{OutcomeConsumes};
ghost use Rattle.squawk_answer.specs.Watched.{after_read, after_write, new_watch};
ghost use Rattle.squawk_answer.specs.Writes.{AppendsPart};

use std::io;
use std::io::{ErrorKind, Read, Write};
use std::marker::Model;

/// The number of reads of a run, whether one found the end, and whether a read or a write failed.
///
/// An interrupted read is counted, and is no failure.
#[derive(Drop)]
pub struct Watch {
    reads: u64,
    ended: bool,
    read_failed: bool,
    write_failed: bool,
}

impl Model for Watch {
    ghost use Rattle.squawk_answer.specs.Watched.{Watched};

    ghost Value = { Watched };

    ghost view = { λ w. record { reads = w.reads; ended = w.ended; read_failed = w.read_failed; write_failed = w.write_failed } };
}

/// The result of one read.
#[derive(Clone, Copy, PartialEq, Eq)]
pub enum ReadOutcome {
    /// This many bytes were read; none at the end.
    Bytes(usize),
    Interrupted,
    Failed,
}

impl Watch {
    /// Makes a watch of no reads and writes.
    pub fn new() -> Watch
        ensures { result ≡ new_watch }
    {
        Watch {
            reads: 0,
            ended: false,
            read_failed: false,
            write_failed: false,
        }
    }

    /// Reads once.
    pub fn read<R: Read>(&mut self, reader: &mut R, buffer: &mut [u8]) -> ReadOutcome
        requires { self.old.reads < 2 ^ 63 }
        ensures bytes { OutcomeConsumes (R.remaining reader.old) (R.remaining reader.new) result buffer.new }
        ensures watched { self.new ≡ after_read self.old result }
    {
        let answer = reader.read(buffer);
        self.watch_read(answer)
    }

    /// Writes all of these bytes, or a prefix of them if a write fails. Returns whether it wrote all.
    pub fn write_all<W: Write>(&mut self, writer: &mut W, bytes: &[u8]) -> bool
        ensures all { result ≡ true → Appends (W.contents writer.old) (W.contents writer.new) bytes.now }
        ensures part { result ≡ false → AppendsPart (W.contents writer.old) (W.contents writer.new) bytes.now }
        ensures watched { self.new ≡ after_write self.old result }
    {
        let mut rest = bytes;
        while !rest.is_empty() {
            match self.write(writer, rest) {
                Some(n) => rest = &rest[n..],
                None => return false,
            }
        }
        true
    }

    /// The number of reads.
    pub fn reads(&self) -> u64
        ensures { result ≡ self.now.reads }
    {
        self.reads
    }

    /// Whether a read found the end.
    pub fn ended(&self) -> bool
        ensures { result ≡ self.now.ended }
    {
        self.ended
    }

    /// Whether a read failed.
    pub fn read_failed(&self) -> bool
        ensures { result ≡ self.now.read_failed }
    {
        self.read_failed
    }

    /// Whether a write failed.
    pub fn write_failed(&self) -> bool
        ensures { result ≡ self.now.write_failed }
    {
        self.write_failed
    }

    /// Counts a read that returned this. Returns its outcome.
    fn watch_read(&mut self, answer: io::Result<usize>) -> ReadOutcome
        requires { self.old.reads < 2 ^ 63 }
        ensures bytes { IfOk answer (λ n. result ≡ ReadOutcome.Bytes n) }
        ensures interrupted { IfErr answer (λ e.
            error_kind e ≡ ErrorKind.Interrupted → result ≡ ReadOutcome.Interrupted) }
        ensures refused { IfErr answer (λ e.
            error_kind e ≢ ErrorKind.Interrupted → result ≡ ReadOutcome.Failed) }
        ensures watched { self.new ≡ after_read self.old result }
    {
        self.reads += 1;
        match answer {
            Ok(n) => {
                self.ended = n == 0 || self.ended;
                ReadOutcome::Bytes(n)
            }
            Err(e) if e.kind() == ErrorKind::Interrupted => ReadOutcome::Interrupted,
            Err(_) => {
                self.read_failed = true;
                ReadOutcome::Failed
            }
        }
    }

    /// Writes once, again if interrupted. Returns the number of bytes written, or `None` if it failed.
    fn write<W: Write>(&mut self, writer: &mut W, bytes: &[u8]) -> Option<usize>
        ensures some { IfSome result (λ n. (0 < n) × (n ≤ length bytes.now) × Appends (W.contents writer.old) (W.contents writer.new) (take n bytes.now)) }
        ensures none { IfNone result (Appends (W.contents writer.old) (W.contents writer.new) []) }
        ensures watched { self.new ≡ after_write self.old (is_some result) }
    {
        let answer = write_uninterrupted(writer, bytes);
        self.watch_write(answer)
    }

    /// Records whether a write that returned this failed: one that takes no bytes did.
    fn watch_write(&mut self, answer: io::Result<usize>) -> Option<usize>
        ensures some { IfSome result (λ n. (0 < n) × (answer ≡ Ok n)) }
        ensures none { IfNone result (IfOk answer (λ n. n ≡ 0)) }
        ensures watched { self.new ≡ after_write self.old (is_some result) }
    {
        match answer {
            Ok(n) if n > 0 => Some(n),
            _ => {
                self.write_failed = true;
                None
            }
        }
    }
}

/// Writes until a write isn't interrupted. Returns what that one returned.
fn write_uninterrupted<W: Write>(writer: &mut W, bytes: &[u8]) -> io::Result<usize>
    ensures bound { WritesAtMost result bytes.now }
    ensures bytes { WriteAppends (W.contents writer.old) (W.contents writer.new) result bytes.now }
{
    for _ in 0..u64::MAX {
        match writer.write(bytes) {
            Err(e) if e.kind() == ErrorKind::Interrupted => {}
            answer => return answer,
        }
    }
    Err(io::Error::from(ErrorKind::Interrupted))
}
