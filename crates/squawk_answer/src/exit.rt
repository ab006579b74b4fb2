//! The program: a run, and the status that it ends with.
ghost use Rattle.std.specs.Prelude.{◌≡◌, ◌≢◌, ◌≤◌, false, true, ◌⊎◌};
ghost use Rattle.std.specs.Io.KnownBytes.{IsAtEnd};
ghost use Rattle.std.specs.Process.{exit_status};
ghost use Rattle.squawk_answer.specs.Fault.{fault_status, printed_line};
ghost use Rattle.squawk_answer.specs.Runs.{AnswersFault, WritesAnswer, WritesPart};
ghost use Rattle.squawk_answer.specs.Watched.{IsUnread, most_reads, new_watch};
ghost use Rattle.squawk_answer.specs.Writes.{WritesOrFails};

use crate::fault::Fault;
use crate::print::print_line;
use crate::running::run_watched;
use crate::watch::Watch;
use std::alloc::Global;
use std::io::{Read, Write};
use std::process::ExitCode;

/// Runs, and returns success, or prints the line of a fault and returns its status.
///
/// A line that can't be printed changes nothing. `watch` is that of the run, `line_watch` that of the line.
#[tactic(auto, using(crate::proofs::Parts::writes_or_fails))]
pub fn program<R: Read, W: Write, E: Write>(
    alloc: Global,
    watch: &mut Watch,
    reader: &mut R,
    writer: &mut W,
    line_watch: &mut Watch,
    line_writer: &mut E,
) -> ExitCode
    requires { watch.old ≡ new_watch }
    ensures success { exit_status result ≡ 0 → WritesAnswer (R.remaining reader.old) (W.contents writer.old) (W.contents writer.new) }
    ensures silent { exit_status result ≡ 0 → line_writer.new ≡ line_writer.old }
    // Its line is printed, or a prefix of it if a write failed.
    ensures failure { exit_status result ≢ 0 → (fault : Fault) × (exit_status result ≡ fault_status fault)
        × AnswersFault (R.remaining reader.old) fault
        × (fault ≢ Fault.Io → writer.new ≡ writer.old)
        × WritesOrFails line_watch.old line_watch.new (E.contents line_writer.old) (E.contents line_writer.new) (printed_line fault) }
    ensures unread { exit_status result ≢ 0 → (writer.new ≡ writer.old) ⊎ IsAtEnd (R.remaining reader.new) }
    ensures part { exit_status result ≢ 0 → (writer.new ≡ writer.old) ⊎ WritesPart (R.remaining reader.old) (W.contents writer.old) (W.contents writer.new) }
    // It reads at most `most_reads` times, and has status 8 only if a read or a write failed, or the reads
    // ran out before the end.
    ensures reads { watch.new.reads ≤ most_reads }
    ensures io { exit_status result ≡ 8 → (watch.new.write_failed ≡ true) ⊎ IsUnread watch.new }
    ensures unfailed { exit_status result ≢ 8 → (watch.new.read_failed ≡ false) × (watch.new.write_failed ≡ false) }
    ensures no_write_failed { exit_status result ≢ 0 → watch.new.write_failed ≡ false → writer.new ≡ writer.old }
{
    match run_watched(alloc, watch, reader, writer) {
        Ok(()) => ExitCode::SUCCESS,
        Err(fault) => {
            print_line(line_watch, line_writer, fault);
            ExitCode::from(fault.status())
        }
    }
}
