//! Reads to the end.
ghost use Rattle.std.specs.Prelude.{◌≡◌, ◌≢◌, ◌≤◌, false, Err, IfOk, IfErr, OnOk, IfSome, ◌⊎◌};
ghost use Rattle.std.specs.Io.KnownBytes.{IsAtEnd};
ghost use Rattle.squawk_answer.specs.Watched.{IsUnread, most_reads, new_watch};

use crate::fault::Fault;
use crate::watch::{ReadOutcome, Watch};
use std::alloc::Global;
use std::io::Read;

/// The greatest number of bytes of one read.
const LONGEST_READ: usize = 8192;

/// The greatest number of reads of a run, interrupted ones too.
pub const MOST_READS: u64 = 1 << 32;

/// Reads all bytes of a reader, in at most [`MOST_READS`] reads.
pub fn read_all<R: Read>(alloc: Global, watch: &mut Watch, reader: &mut R) -> Result<Vec<u8>, Fault>
    requires { watch.old ≡ new_watch }
    ensures bytes { IfOk result (λ v. IfSome (R.remaining reader.old) (λ input. v.items ≡ input)) }
    ensures end { OnOk result (IsAtEnd (R.remaining reader.new)) }
    ensures reads { watch.new.reads ≤ most_reads }
    ensures fault { IfErr result (λ e. (e ≡ Fault.Memory) ⊎ ((e ≡ Fault.Io) × IsUnread watch.new)) }
    // A read that fails is the last one.
    ensures unfailed { result ≢ Err Fault.Io → watch.new.read_failed ≡ false }
    ensures unwritten { watch.new.write_failed ≡ false }
{
    let mut bytes = Vec::new(alloc);
    let mut buffer = [0u8; LONGEST_READ];
    for _ in 0..MOST_READS {
        match watch.read(reader, &mut buffer) {
            ReadOutcome::Bytes(0) => return Ok(bytes),
            ReadOutcome::Bytes(n) => bytes.extend_from_slice(&buffer[..n])?,
            ReadOutcome::Interrupted => {}
            ReadOutcome::Failed => return Err(Fault::Io),
        }
    }
    Err(Fault::Io)
}
