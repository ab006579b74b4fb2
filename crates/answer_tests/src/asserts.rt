//! What a run of one document ends in, and what a watch tells of it.

use squawk_answer::{Fault, Watch, run};
use std::alloc::Global;
use std::fmt::Debug;
use std::io::{Read, Write};
use std::process::Abort;

/// What a run ends in. It has no clause, so that the proofs of tests carry none of the answer's.
pub fn ended<R: Read, W: Write>(
    alloc: Global,
    reader: &mut R,
    writer: &mut W,
) -> Result<(), Fault> {
    run(alloc, reader, writer)
}

/// What was found in this case is what is wanted.
pub fn assert_same<T: PartialEq + Debug>(
    rt: &impl Abort,
    case: &impl Debug,
    found: &T,
    wanted: &T,
) {
    assert_eq!(rt; found, wanted, "{case:?}");
}

/// The run ended in what is wanted, and this and nothing else was written.
pub fn assert_end(
    rt: &impl Abort,
    case: &impl Debug,
    found: (Result<(), Fault>, &[u8]),
    wanted: (Result<(), Fault>, &str),
) {
    assert_same(rt, case, &found.0, &wanted.0);
    assert_same(rt, case, &str::from_utf8(found.1), &Ok(wanted.1));
}

/// The bytes have this answer, or this fault and nothing is written.
pub fn assert_ends(
    rt: &(impl Abort + AllocGlobal),
    input: &[u8],
    case: &impl Debug,
    wanted: (Result<(), Fault>, &str),
) {
    let mut reader = input;
    let mut written = Vec::new(rt.alloc());
    let result = ended(rt.alloc(), &mut reader, &mut written);
    assert_end(rt, case, (result, &written), wanted);
}

/// The bytes have this fault, and nothing is written.
pub fn assert_fault(
    rt: &(impl Abort + AllocGlobal),
    input: &[u8],
    case: &impl Debug,
    fault: Fault,
) {
    assert_ends(rt, input, case, (Err(fault), ""));
}

/// The watch tells so many reads, whether one has found the end, and whether one or a write failed.
pub fn assert_tells(
    rt: &impl Abort,
    case: &impl Debug,
    watch: &Watch,
    (reads, ended, read_failed, write_failed): (u64, bool, bool, bool),
) {
    assert_same(rt, case, &watch.reads(), &reads);
    assert_same(rt, case, &watch.ended(), &ended);
    assert_same(rt, case, &watch.read_failed(), &read_failed);
    assert_same(rt, case, &watch.write_failed(), &write_failed);
}
