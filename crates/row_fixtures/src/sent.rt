//! Outputs sent over texts.

use crate::lines::whole_line_of;
use squawk_parser::{LexedStr, Output, OwnedStep, StepList, StrStep};
use std::alloc::{AllocError, Global};

/// What was sent of an output over a text.
#[derive(Drop)]
pub struct Sent {
    /// The line of the steps of a list that received them (`crate::lines`).
    pub line: String,
    /// Whether the iterator over the output gives the steps of that list.
    pub is_given: bool,
}

/// What is sent of the output over the table, if it fits.
pub fn sent_over_table(
    alloc: Global,
    table: &LexedStr<'_>,
    output: &Output,
) -> Result<Option<Sent>, AllocError> {
    if !table.fits(output) {
        return Ok(None);
    }
    let mut list = StepList::new(alloc);
    let is_whole = table.intersperse_trivia(output, &mut list)?;
    Ok(Some(Sent {
        line: whole_line_of(alloc, list.steps(), is_whole)?,
        is_given: gives(table, output, list.steps(), is_whole),
    }))
}

/// Whether the iterator over the output gives these steps, one after another within its bounds, then
/// none any more, and answers this at its end.
fn gives(table: &LexedStr<'_>, output: &Output, sent: &[OwnedStep], is_whole: bool) -> bool {
    if !table.fits(output) {
        return false;
    }
    let mut steps = table.str_steps(output);
    for (i, step) in sent.iter().enumerate() {
        let left = sent.len() - i;
        let (least, most) = steps.size_hint();
        if least > left || Some(left) > most || steps.next() != Some(lent(step)) {
            return false;
        }
    }
    steps.next().is_none() && steps.next().is_none() && steps.eaten_all() == is_whole
}

/// The step that borrows its text from one that owns it.
fn lent(step: &OwnedStep) -> StrStep<'_> {
    match step {
        OwnedStep::Token { kind, text } => StrStep::Token {
            kind: *kind,
            text: text.as_str(),
        },
        OwnedStep::Enter { kind } => StrStep::Enter { kind: *kind },
        OwnedStep::Exit => StrStep::Exit,
        OwnedStep::Error { msg, pos } => StrStep::Error {
            msg: msg.as_str(),
            pos: *pos,
        },
    }
}
