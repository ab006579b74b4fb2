//! The bounds of iterators, and of the input without tokens.

use row_fixtures::keywords::NO_KEYWORDS;
use row_fixtures::scripts::parse_script;
use row_fixtures::tokens::{int, space, table, token, word};
use squawk_parser::{Base, Input, LexedStr, Output, SyntaxKind};
use std::process::Abort;
use std::test::Fail;

/// Ends the test unless the iterator over the output, asked before each step and at its end, has these
/// bounds.
fn assert_bounds(
    rt: &impl Abort,
    table: &LexedStr<'_>,
    output: &Output,
    wanted: &[(usize, Option<usize>)],
) {
    assert!(rt; table.fits(output));
    let mut steps = table.str_steps(output);
    for bounds in wanted {
        assert_eq!(rt; steps.size_hint(), *bounds);
        let _ = steps.next();
    }
}

// Four steps of the output and three raw tokens, then one step or one raw token less each time.
const BOUNDS: [(usize, Option<usize>); 6] = [
    (4, Some(7)),
    (3, Some(6)),
    (2, Some(4)),
    (2, Some(3)),
    (1, Some(1)),
    (0, Some(0)),
];

#[test]
fn bounds_are_the_steps_and_the_raw_tokens_that_are_left(rt: HostRuntime) -> Result<(), Fail> {
    let table = table(rt.alloc(), "a b", &[word(1), space(1), word(1)])?;
    let calls = "start, bump_any, bump_any, complete 0 ROOT";
    let output = parse_script(rt.alloc(), &table, &NO_KEYWORDS, calls)?;
    assert_bounds(&rt, &table, &output, &BOUNDS);
    Ok(())
}

/// Ends the test unless three errors are left, and two behind the first.
fn assert_counted(rt: &impl Abort, table: &LexedStr<'_>) {
    let mut errors = table.errors();
    assert_eq!(rt; errors.size_hint(), (3, Some(3)));
    assert!(rt; errors.next().is_some());
    assert_eq!(rt; errors.size_hint(), (2, Some(2)));
}

#[test]
fn errors_know_how_many_are_left(rt: HostRuntime) -> Result<(), Fail> {
    // None of the digits is one of a binary number.
    let table = table(rt.alloc(), "0b234", &[token(int(Base::Binary, 5), 5)])?;
    assert_counted(&rt, &table);
    Ok(())
}

/// Ends the test unless the input has no tokens, and the end everywhere.
fn assert_empty(rt: &impl Abort, input: &Input) {
    assert_eq!(rt; input.len(), 0);
    for past in [0, usize::MAX] {
        assert_eq!(rt; input.kind(past), SyntaxKind::EOF);
        assert_eq!(rt; input.contextual_kind(past), SyntaxKind::EOF);
    }
}

#[test]
fn empty_input_is_at_its_end(rt: HostRuntime) {
    assert_empty(&rt, &Input::empty(rt.alloc()));
}
