//! Writers that take a little at a time, writers that are interrupted, and writers that fail, with what a watch tells
//! of them.

use crate::asserts::{assert_end, assert_same, assert_tells, ended};
use crate::documents::{ESCAPE, ESCAPE_LINES, NAME, NAME_LINES};
use crate::streams::{Plan, Takes, Turn};
use squawk_answer::{Fault, Watch};
use std::io::ErrorKind;
use std::process::Abort;
use std::test::Fail;

/// The run of the document to a writer of this plan ends in this, and it has taken that and nothing else.
/// It tells how often it was written to.
fn assert_taken(
    rt: &(impl Abort + AllocGlobal),
    document: &str,
    plan: Plan<'_>,
    wanted: Result<(), Fault>,
    taken: &[u8],
) -> usize {
    let case = (plan.most, plan.before);
    let mut writer = Takes {
        taken: Vec::new(rt.alloc()),
        plan,
    };
    let found = ended(rt.alloc(), &mut document.as_bytes(), &mut writer);
    assert_same(rt, &case, &found, &wanted);
    assert_same(rt, &case, &writer.taken.as_slice(), &taken);
    writer.plan.calls
}

#[test]
fn answer_may_be_taken_a_little_at_a_time(rt: HostRuntime) {
    for most in [1, 2, 7, 100] {
        assert_taken(&rt, NAME, Plan::of(most), Ok(()), NAME_LINES.as_bytes());
        assert_taken(&rt, ESCAPE, Plan::of(most), Ok(()), ESCAPE_LINES.as_bytes());
    }
}

#[test]
fn answer_stands_behind_what_was_written_before(rt: HostRuntime) -> Result<(), Fail> {
    let mut written = Vec::new(rt.alloc());
    written.extend_from_slice(b"before\n")?;
    let result = ended(rt.alloc(), &mut NAME.as_bytes(), &mut written);
    let wanted = format!(in rt.alloc(); "before\n{NAME_LINES}")?;
    assert_end(&rt, &"before", (result, &written), (Ok(()), &wanted));
    Ok(())
}

#[test]
fn interrupted_writes_are_tried_again(rt: HostRuntime) {
    let turns = [
        Turn::Refuses(ErrorKind::Interrupted),
        Turn::Moves(1),
        Turn::Refuses(ErrorKind::Interrupted),
        Turn::Refuses(ErrorKind::Interrupted),
    ];
    for before in 0..NAME_LINES.len() {
        assert_taken(
            &rt,
            NAME,
            Plan::at(before, &turns),
            Ok(()),
            NAME_LINES.as_bytes(),
        );
    }
}

#[test]
fn says_io_at_each_write_that_fails(rt: HostRuntime) {
    // A write for each byte.
    for n in 0..ESCAPE_LINES.len() {
        let plan = Plan::at(n, &[Turn::Refuses(ErrorKind::StorageFull)]);
        let taken = &ESCAPE_LINES.as_bytes()[..n];
        let writes = assert_taken(&rt, ESCAPE, plan, Err(Fault::Io), taken);
        assert_same(&rt, &n, &writes, &(n + 1));
    }
}

#[test]
fn writes_nothing_behind_the_answer(rt: HostRuntime) {
    let plan = Plan::at(NAME_LINES.len(), &[Turn::Refuses(ErrorKind::StorageFull)]);
    let writes = assert_taken(&rt, NAME, plan, Ok(()), NAME_LINES.as_bytes());
    assert_same(&rt, &"writes", &writes, &NAME_LINES.len());
}

#[test]
fn says_io_whatever_the_error_of_writing_is(rt: HostRuntime) {
    for kind in [
        ErrorKind::BrokenPipe,
        ErrorKind::WouldBlock,
        ErrorKind::WriteZero,
        ErrorKind::PermissionDenied,
        ErrorKind::Other,
    ] {
        let turns = [Turn::Moves(10), Turn::Refuses(kind)];
        assert_taken(
            &rt,
            NAME,
            Plan::at(0, &turns),
            Err(Fault::Io),
            b"enter 700\n",
        );
    }
}

#[test]
fn says_io_where_a_write_takes_nothing(rt: HostRuntime) {
    assert_taken(&rt, NAME, Plan::of(0), Err(Fault::Io), b"");
}

/// The bytes are written or not, and the watch then tells whether a write has failed.
fn assert_write(
    rt: &impl Abort,
    watch: &mut Watch,
    writer: &mut Takes<'_>,
    bytes: &[u8],
    (is_written, failed): (bool, bool),
) {
    assert_same(rt, &bytes, &watch.write_all(writer, bytes), &is_written);
    assert_tells(rt, &bytes, watch, (0, false, false, failed));
}

#[test]
fn watch_tells_whether_a_write_failed(rt: HostRuntime) {
    let turns = [
        Turn::Moves(2),
        Turn::Moves(2),
        Turn::Refuses(ErrorKind::StorageFull),
    ];
    let mut writer = Takes {
        taken: Vec::new(rt.alloc()),
        plan: Plan::at(0, &turns),
    };
    let mut watch = Watch::new();
    assert_write(&rt, &mut watch, &mut writer, b"", (true, false));
    assert_write(&rt, &mut watch, &mut writer, b"four", (true, false));
    assert_write(&rt, &mut watch, &mut writer, b"five", (false, true));
    assert_write(&rt, &mut watch, &mut writer, b"", (true, true));
    assert_same(&rt, &"taken", &writer.taken.as_slice(), &b"four".as_slice());
    assert_same(&rt, &"writes", &writer.plan.calls, &3);
}
