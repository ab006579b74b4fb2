//! A run that is refused memory. Each test holds whichever growth is refused, and is to be run with
//! each of them refused in turn.

use crate::asserts::ended;
use crate::documents::{ESCAPE, ESCAPE_LINES, NAME, NAME_LINES};
use crate::streams::Wants;
use std::alloc::Global;
use std::process::Abort;

/// The document has this answer, or memory was refused and nothing is written.
fn assert_answer_or_memory(rt: &impl Abort, alloc: Global, document: &str, lines: &str) {
    let mut writer = Wants {
        rest: lines.as_bytes(),
        is_begun: false,
        is_wrong: false,
    };
    let result = ended(alloc, &mut document.as_bytes(), &mut writer);
    assert!(rt; !writer.is_wrong);
    match result {
        Ok(()) => assert_eq!(rt; writer.rest.len(), 0),
        Err(fault) => {
            assert!(rt; fault.is_out_of_memory());
            assert!(rt; !writer.is_begun);
        }
    }
}

#[test]
fn wants_memory_or_writes_all(rt: HostRuntime) {
    assert_answer_or_memory(&rt, rt.alloc(), NAME, NAME_LINES);
}

#[test]
fn wants_memory_or_writes_all_with_a_lexical_error(rt: HostRuntime) {
    assert_answer_or_memory(&rt, rt.alloc(), ESCAPE, ESCAPE_LINES);
}
