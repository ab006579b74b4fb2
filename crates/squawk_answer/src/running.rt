//! Runs from a reader to a writer.
ghost use Rattle.std.specs.Prelude.{◌≡◌, ◌≢◌, ◌≤◌, false, true, is_ok, Err, IfErr, OnOk, OnErr, ◌⊎◌};
ghost use Rattle.std.specs.Io.KnownBytes.{Appends, IsAtEnd};
ghost use Rattle.squawk_answer.specs.AnswerLines.{answer_texts};
ghost use Rattle.squawk_answer.specs.Lines.{joined};
ghost use Rattle.squawk_answer.specs.Runs.{AnswersFault, WritesAnswer, WritesPart};
ghost use Rattle.squawk_answer.specs.Watched.{IsUnread, after_write, most_reads, new_watch};
ghost use Rattle.squawk_answer.specs.Writes.{AppendsPart};

use crate::answer::Answer;
use crate::fault::Fault;
use crate::read::read_all;
use crate::watch::Watch;
use std::alloc::Global;
use std::io::{Read, Write};

/// Reads a document to its end, makes the lines of its answer, and then writes them and nothing else.
///
/// This is [`run_watched`] with a new watch. Its contract says when [`Fault::Io`] comes and how often this
/// reads.
pub fn run<R: Read, W: Write>(alloc: Global, reader: &mut R, writer: &mut W) -> Result<(), Fault>
    ensures ok { OnOk result (WritesAnswer (R.remaining reader.old) (W.contents writer.old) (W.contents writer.new)) }
    ensures fault { IfErr result (λ fault. AnswersFault (R.remaining reader.old) fault) }
    ensures unwritten { IfErr result (λ fault. fault ≢ Fault.Io → writer.new ≡ writer.old) }
    // Reading ends before anything is written, and only the answer is written.
    ensures unread { OnErr result ((writer.new ≡ writer.old) ⊎ IsAtEnd (R.remaining reader.new)) }
    ensures part { OnErr result ((writer.new ≡ writer.old) ⊎ WritesPart (R.remaining reader.old) (W.contents writer.old) (W.contents writer.new)) }
{
    run_watched(alloc, &mut Watch::new(), reader, writer)
}

/// [`run`] with a watch, which has the counts of its reads and whether a write failed.
pub fn run_watched<R: Read, W: Write>(
    alloc: Global,
    watch: &mut Watch,
    reader: &mut R,
    writer: &mut W,
) -> Result<(), Fault>
    requires { watch.old ≡ new_watch }
    ensures ok { OnOk result (WritesAnswer (R.remaining reader.old) (W.contents writer.old) (W.contents writer.new)) }
    ensures fault { IfErr result (λ fault. AnswersFault (R.remaining reader.old) fault) }
    ensures unwritten { IfErr result (λ fault. fault ≢ Fault.Io → writer.new ≡ writer.old) }
    ensures unread { OnErr result ((writer.new ≡ writer.old) ⊎ IsAtEnd (R.remaining reader.new)) }
    ensures part { OnErr result ((writer.new ≡ writer.old) ⊎ WritesPart (R.remaining reader.old) (W.contents writer.old) (W.contents writer.new)) }
    // It reads at most `most_reads` times. `Io` comes only if a read or a write failed, or the reads ran out
    // before the end; if one failed, no other error comes. Something is written only if a write failed.
    ensures reads { watch.new.reads ≤ most_reads }
    ensures io { result ≡ Err Fault.Io → (watch.new.write_failed ≡ true) ⊎ IsUnread watch.new }
    ensures unfailed { result ≢ Err Fault.Io → (watch.new.read_failed ≡ false) × (watch.new.write_failed ≡ false) }
    ensures no_write_failed { OnErr result (watch.new.write_failed ≡ false → writer.new ≡ writer.old) }
{
    let input = read_all(alloc, watch, reader)?;
    let answer = Answer::new(alloc, input)?;
    write(&answer, watch, writer)
}

/// Writes an answer.
#[tactic(auto, using(crate::proofs::Parts::part_second))]
fn write<W: Write>(answer: &Answer, watch: &mut Watch, writer: &mut W) -> Result<(), Fault>
    ensures all { OnOk result (Appends (W.contents writer.old) (W.contents writer.new) (joined (answer_texts answer.now))) }
    ensures part { OnErr result (AppendsPart (W.contents writer.old) (W.contents writer.new) (joined (answer_texts answer.now))) }
    ensures fault { IfErr result (λ fault. fault ≡ Fault.Io) }
    ensures watched { watch.new ≡ after_write watch.old (is_ok result) }
{
    if !watch.write_all(writer, answer.errors.as_bytes()) {
        return Err(Fault::Io);
    }
    if !watch.write_all(writer, answer.steps.as_bytes()) {
        return Err(Fault::Io);
    }
    Ok(())
}
