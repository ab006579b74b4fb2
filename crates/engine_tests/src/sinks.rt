//! Sinks that refuse a step.

use crate::cases::{Case, ERROR_BEHIND_A_NODE, SELECT, STATEMENT};
use row_fixtures::lexer::tokens_of;
use row_fixtures::lines::{is_beginning, line_of};
use row_fixtures::scripts::parse_script;
use squawk_parser::{LexedStr, Output, StepList, StepSink, StrStep};
use std::alloc::{AllocError, Global};
use std::process::Abort;
use std::test::Fail;

/// Why a step was refused.
#[derive(Clone, Copy, Debug, PartialEq, Eq)]
enum Refusal {
    OnPurpose,
    OutOfMemory,
}

impl From<AllocError> for Refusal {
    fn from(_error: AllocError) -> Refusal {
        Refusal::OutOfMemory
    }
}

/// A list that refuses one step on purpose, and would take those after it.
#[derive(Drop)]
struct RefusingList {
    list: StepList,
    /// How many steps it takes before the one that it refuses, until it has refused that.
    before_refusal: Option<usize>,
}

impl StepSink for RefusingList {
    ghost use Rattle.std.specs.Prelude.{◌≡◌};

    type Refusal = Refusal;

    ghost stands_after = { λ s l. s.list ≡ l };

    ghost refuses = { λ _ _ _. Unit {0} };

    fn step(&mut self, step: StrStep<'_>) -> Result<(), Refusal> {
        if self.before_refusal == Some(0) {
            self.before_refusal = None;
            return Err(Refusal::OnPurpose);
        }
        // Taken apart, since the check doesn't cover a step that is handed on whole.
        match step {
            StrStep::Token { kind, text } => self.list.step(StrStep::Token { kind, text })?,
            StrStep::Enter { kind } => self.list.step(StrStep::Enter { kind })?,
            StrStep::Exit => self.list.step(StrStep::Exit)?,
            StrStep::Error { msg, pos } => self.list.step(StrStep::Error { msg, pos })?,
        }
        self.before_refusal = self.before_refusal.map(|left| left.saturating_sub(1));
        Ok(())
    }
}

/// What a list received that refuses a step on purpose.
#[derive(Drop)]
struct Received {
    answer: Result<bool, Refusal>,
    count: usize,
    line: String,
}

/// What a list receives that refuses the step behind so many, if the output fits.
fn refused_behind(
    alloc: Global,
    table: &LexedStr<'_>,
    output: &Output,
    taken: usize,
) -> Result<Option<Received>, AllocError> {
    if !table.fits(output) {
        return Ok(None);
    }
    let mut sink = RefusingList {
        list: StepList::new(alloc),
        before_refusal: Some(taken),
    };
    let answer = table.intersperse_trivia(output, &mut sink);
    let steps = sink.list.steps();
    Ok(Some(Received {
        answer,
        count: steps.len(),
        line: line_of(alloc, steps)?,
    }))
}

/// Ends the test unless a list that refuses the step behind so many holds those before it, a beginning of
/// the line, and the refusal is handed on.
fn assert_refused(rt: &impl Abort, received: &Received, taken: usize, line: &str) {
    assert_eq!(rt;
        received.answer,
        Err(Refusal::OnPurpose),
        "after {taken} steps"
    );
    assert_eq!(rt; received.count, taken, "{line}");
    let beginning = received.line.as_str();
    assert!(rt; is_beginning(beginning, line), "{beginning}");
}

/// Ends the test unless a list that takes all steps has the line.
fn assert_taken(rt: &impl Abort, received: &Received, line: &str) {
    assert_eq!(rt; received.answer, Ok(true), "{line}");
    assert_eq!(rt; received.line.as_str(), line);
}

/// Ends the test unless a list that refuses the step behind so many holds those before it, and hands the
/// refusal on. One that takes all the steps has the line.
fn assert_received(
    rt: &(impl Abort + AllocGlobal),
    table: &LexedStr<'_>,
    output: &Output,
    taken: usize,
    steps: usize,
    line: &str,
) -> Result<(), Fail> {
    let received = refused_behind(rt.alloc(), table, output, taken)?.ok_or("it doesn't fit")?;
    if taken < steps {
        assert_refused(rt, &received, taken, line);
    } else {
        assert_taken(rt, &received, line);
    }
    Ok(())
}

/// Ends the test unless a list that refuses one of the steps on purpose holds those before it, whichever
/// it is, and the refusal is handed on. There are so many steps, and a list that takes all has the line.
fn assert_refused_at_each_step(
    rt: &(impl Abort + AllocGlobal),
    case: Case,
    steps: usize,
) -> Result<(), Fail> {
    let tokens = tokens_of(rt.alloc(), case.text)?;
    let table = LexedStr::new(rt.alloc(), case.text, &tokens, &SELECT)?;
    let output = parse_script(rt.alloc(), &table, &SELECT, case.calls)?;
    for taken in 0..=steps {
        assert_received(rt, &table, &output, taken, steps, case.line)?;
    }
    Ok(())
}

#[test]
fn nothing_is_sent_after_a_refusal(rt: HostRuntime) -> Result<(), Fail> {
    assert_refused_at_each_step(&rt, ERROR_BEHIND_A_NODE, 7)?;
    assert_refused_at_each_step(&rt, STATEMENT, 17)
}
