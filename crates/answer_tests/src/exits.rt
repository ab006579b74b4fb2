//! How the program ends: its status, and what it prints of a fault, and both for each fault.

use crate::asserts::assert_same;
use crate::documents::{ESCAPE, ESCAPE_LINES, NAME};
use crate::streams::{Plan, Takes, Turn};
use squawk_answer::{Fault, Watch, program};
use squawk_document::DocumentError;
use squawk_parser::{ParseError, TableError};
use squawk_script::ScriptError;
use std::alloc::Global;
use std::io::{ErrorKind, Write};
use std::process::{Abort, ExitCode};
use std::test::Fail;

/// How the program ends. It has no clause, so that the proofs of tests carry none of the program's.
fn ended<W: Write, E: Write>(
    alloc: Global,
    input: &str,
    writer: &mut W,
    error_writer: &mut E,
) -> ExitCode {
    program(
        alloc,
        &mut Watch::new(),
        &mut input.as_bytes(),
        writer,
        &mut Watch::new(),
        error_writer,
    )
}

/// The program ends with the code, and has written this, and printed that.
fn assert_exit(
    rt: &(impl Abort + AllocGlobal),
    input: &str,
    wanted: ExitCode,
    answer: &str,
    line: &str,
) {
    let mut written = Vec::new(rt.alloc());
    let mut errors = Vec::new(rt.alloc());
    let code = ended(rt.alloc(), input, &mut written, &mut errors);
    assert_same(rt, &input, &code, &wanted);
    assert_same(rt, &input, &str::from_utf8(&written), &Ok(answer));
    assert_same(rt, &input, &str::from_utf8(&errors), &Ok(line));
}

#[test]
fn ends_with_success_and_prints_no_fault(rt: HostRuntime) {
    assert_exit(&rt, ESCAPE, ExitCode::SUCCESS, ESCAPE_LINES, "");
}

/// What the document of a name has, and has in its place, with the line of the fault and the status.
const FAULTY: [(&str, &str, &str, u8); 4] = [
    (r#""x ""#, "7", "shape\n", 2),
    (r#"["ident",1]"#, r#"["ident",0]"#, "bad token 0\n", 3),
    (r#",["complete",0,700]"#, "", "unspent 0\n", 4),
    (
        r#"["error","e"],["complete",0,700]"#,
        r#"["abandon",0],["start"],["complete",2,700]"#,
        "does not fit\n",
        6,
    ),
];

#[test]
fn ends_with_the_status_of_a_fault_and_prints_its_line(rt: HostRuntime) -> Result<(), Fail> {
    for (part, other, line, status) in FAULTY {
        let document = NAME.replace(rt.alloc(), part, other)?;
        assert_exit(&rt, &document, ExitCode::from(status), "", line);
    }
    Ok(())
}

#[test]
fn ends_with_its_status_where_the_line_cannot_be_printed(rt: HostRuntime) {
    let turns = [Turn::Refuses(ErrorKind::BrokenPipe)];
    let mut written = Vec::new(rt.alloc());
    let mut errors = Takes {
        taken: Vec::new(rt.alloc()),
        plan: Plan::at(0, &turns),
    };
    let code = ended(rt.alloc(), "[", &mut written, &mut errors);
    assert_same(&rt, &"a code", &code, &ExitCode::from(2));
    assert_same(&rt, &"the answer", &written.len(), &0);
    assert_same(&rt, &"the line", &errors.taken.len(), &0);
}

/// The faults, each with its line and its status.
const FAULTS: [(Fault, &str, u8); 16] = [
    (Fault::Document(DocumentError::Json), "json", 2),
    (Fault::Document(DocumentError::Shape), "shape", 2),
    (Fault::Table(TableError::TextTooLong), "text too long", 3),
    (
        Fault::Table(TableError::BadToken { index: 12 }),
        "bad token 12",
        3,
    ),
    (
        Fault::Table(TableError::TextLeft { at: 0 }),
        "text left at 0",
        3,
    ),
    (
        Fault::Script(ScriptError::BadCall { index: 3 }),
        "bad call 3",
        4,
    ),
    (
        Fault::Script(ScriptError::Unspent { marker: 10 }),
        "unspent 10",
        4,
    ),
    (
        Fault::Parse(ParseError::TooManyEvents),
        "too many events",
        5,
    ),
    (
        Fault::Parse(ParseError::TooManyErrors),
        "too many errors",
        5,
    ),
    (Fault::DoesNotFit, "does not fit", 6),
    (Fault::Document(DocumentError::OutOfMemory), "memory", 7),
    (Fault::Table(TableError::OutOfMemory), "memory", 7),
    (Fault::Script(ScriptError::OutOfMemory), "memory", 7),
    (Fault::Parse(ParseError::OutOfMemory), "memory", 7),
    (Fault::Memory, "memory", 7),
    (Fault::Io, "io", 8),
];

#[test]
fn fault_has_its_status_and_its_line(rt: HostRuntime) -> Result<(), Fail> {
    for (fault, line, status) in FAULTS {
        assert_same(&rt, &line, &fault.status(), &status);
        let printed = format!(in rt.alloc(); "{fault}")?;
        assert_same(&rt, &fault, &printed.as_str(), &line);
    }
    Ok(())
}
