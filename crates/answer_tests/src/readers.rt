//! Readers in pieces, readers that are interrupted, and readers that fail, with what a watch tells of them.

use crate::asserts::{assert_end, assert_ends, assert_same, assert_tells};
use crate::documents::{NAME, NAME_LINES};
use crate::streams::{Gives, Plan, Turn};
use squawk_answer::{Fault, ReadOutcome, Watch, run_watched};
use std::io::ErrorKind;
use std::process::Abort;
use std::test::Fail;

/// What a run ends in where the document of a name is read, and what is written.
const ANSWERED: (Result<(), Fault>, &str) = (Ok(()), NAME_LINES);

/// What a run ends in where a read fails, and what is written.
const UNREAD: (Result<(), Fault>, &str) = (Err(Fault::Io), "");

/// Bytes that are read by this plan end in this after so many reads, as their watch tells too.
fn assert_read(
    rt: &(impl Abort + AllocGlobal),
    bytes: &[u8],
    plan: Plan<'_>,
    wanted: (Result<(), Fault>, &str),
    reads: usize,
) {
    let case = (plan.most, plan.before, reads);
    let mut reader = Gives { rest: bytes, plan };
    let mut written = Vec::new(rt.alloc());
    let mut watch = Watch::new();
    let result = run_watched(rt.alloc(), &mut watch, &mut reader, &mut written);
    assert_end(rt, &case, (result, &written), wanted);
    assert_same(rt, &case, &reader.plan.calls, &reads);
    let is_answered = wanted.0.is_ok();
    let told = (reads as u64, is_answered, !is_answered, false);
    assert_tells(rt, &case, &watch, told);
}

/// A read for each byte of the document, and one that finds the end.
const READS: usize = NAME.len() + 1;

#[test]
fn document_may_come_in_pieces(rt: HostRuntime) {
    // The document has 250 bytes, and one read finds the end.
    for (most, reads) in [(1, 251), (2, 126), (7, 37), (100, 4), (8192, 2)] {
        assert_read(&rt, NAME.as_bytes(), Plan::of(most), ANSWERED, reads);
    }
}

/// The document of a name behind so many spaces has its answer.
fn assert_behind_spaces(rt: &(impl Abort + AllocGlobal), spaces: usize) -> Result<(), Fail> {
    let mut document = Vec::new(rt.alloc());
    for _ in 0..spaces {
        document.push(b' ')?;
    }
    document.extend_from_slice(NAME.as_bytes())?;
    assert_ends(rt, &document, &spaces, ANSWERED);
    Ok(())
}

#[test]
fn document_may_be_longer_than_a_read(rt: HostRuntime) -> Result<(), Fail> {
    assert_behind_spaces(&rt, 20000)
}

/// Interruptions in a row.
const INTERRUPTIONS: [Turn; 3] = [
    Turn::Refuses(ErrorKind::Interrupted),
    Turn::Refuses(ErrorKind::Interrupted),
    Turn::Refuses(ErrorKind::Interrupted),
];

/// So many interruptions in a row are as many reads more, before any of the reads of a run.
fn assert_interrupted(rt: &(impl Abort + AllocGlobal), turns: &[Turn]) {
    for before in 0..READS {
        let plan = Plan::at(before, turns);
        assert_read(
            rt,
            NAME.as_bytes(),
            plan,
            ANSWERED,
            READS.saturating_add(turns.len()),
        );
    }
}

#[test]
fn each_interruption_is_one_read(rt: HostRuntime) {
    for times in 0..=INTERRUPTIONS.len() {
        assert_interrupted(&rt, &INTERRUPTIONS[..times]);
    }
}

#[test]
fn says_io_at_each_read_that_fails(rt: HostRuntime) {
    for before in 0..READS {
        let plan = Plan::at(before, &[Turn::Refuses(ErrorKind::Other)]);
        assert_read(&rt, NAME.as_bytes(), plan, UNREAD, before + 1);
    }
}

#[test]
fn does_not_read_behind_the_end(rt: HostRuntime) {
    let plan = Plan::at(READS, &[Turn::Refuses(ErrorKind::Other)]);
    assert_read(&rt, NAME.as_bytes(), plan, ANSWERED, READS);
}

#[test]
fn says_io_at_the_first_failure_whatever_its_kind_is(rt: HostRuntime) {
    for kind in [
        ErrorKind::NotFound,
        ErrorKind::WouldBlock,
        ErrorKind::UnexpectedEof,
        ErrorKind::TimedOut,
        ErrorKind::InvalidData,
        ErrorKind::Other,
    ] {
        let turns = [
            Turn::Refuses(ErrorKind::Interrupted),
            Turn::Refuses(ErrorKind::Interrupted),
            Turn::Moves(5),
            Turn::Refuses(ErrorKind::Interrupted),
            Turn::Refuses(ErrorKind::Interrupted),
            Turn::Refuses(ErrorKind::Interrupted),
            Turn::Refuses(kind),
        ];
        assert_read(&rt, NAME.as_bytes(), Plan::at(0, &turns), UNREAD, 7);
    }
}

#[test]
fn says_io_before_it_looks_at_what_was_read(rt: HostRuntime) {
    let turns = [
        Turn::Moves(4),
        Turn::Moves(4),
        Turn::Moves(4),
        Turn::Refuses(ErrorKind::Other),
    ];
    assert_read(&rt, b"no document", Plan::at(0, &turns), UNREAD, 4);
}

/// The watch tells this outcome of a read that does this.
fn assert_outcome(rt: &impl Abort, turn: Turn, outcome: ReadOutcome) {
    let turns = [turn];
    let mut reader = Gives {
        rest: b"four",
        plan: Plan::at(0, &turns),
    };
    let mut watch = Watch::new();
    let mut buffer = [0; 8];
    let read = watch.read(&mut reader, &mut buffer);
    assert!(rt; read == outcome);
    assert_same(rt, &"reads", &reader.plan.calls, &1);
    let ended = outcome == ReadOutcome::Bytes(0);
    let failed = outcome == ReadOutcome::Failed;
    assert_tells(rt, &"one read", &watch, (1, ended, failed, false));
}

#[test]
fn watch_tells_what_a_read_gave(rt: HostRuntime) {
    for (turn, outcome) in [
        (Turn::Moves(3), ReadOutcome::Bytes(3)),
        (Turn::Moves(9), ReadOutcome::Bytes(4)),
        (Turn::Moves(0), ReadOutcome::Bytes(0)),
        (
            Turn::Refuses(ErrorKind::Interrupted),
            ReadOutcome::Interrupted,
        ),
        (Turn::Refuses(ErrorKind::WouldBlock), ReadOutcome::Failed),
        (Turn::Refuses(ErrorKind::UnexpectedEof), ReadOutcome::Failed),
        (Turn::Refuses(ErrorKind::Other), ReadOutcome::Failed),
    ] {
        assert_outcome(&rt, turn, outcome);
    }
}
