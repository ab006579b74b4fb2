//! The steps of an output to compare with.

use crate::lines::push_step;
use squawk_parser::{Output, Steps};
use std::alloc::{AllocError, Global};

/// The steps of an output.
#[derive(Drop)]
pub struct WrittenSteps {
    /// Their line (`crate::lines`).
    pub line: String,
    /// Whether the iterator said, before each of them and at its end, how many are left.
    pub is_counted: bool,
}

/// The steps of the output.
pub fn written(alloc: Global, output: &Output) -> Result<WrittenSteps, AllocError> {
    let mut line = String::new(alloc);
    let mut steps = output.iter();
    let (count, _) = steps.size_hint();
    let mut is_counted = true;
    for i in 0..count {
        let left = count - i;
        is_counted &= steps.size_hint() == (left, Some(left));
        match steps.next() {
            Some(step) => push_step(&mut line, step)?,
            None => is_counted = false,
        }
    }
    let is_ended = is_at_end(&mut steps) && is_at_end(&mut steps);
    Ok(WrittenSteps {
        line,
        is_counted: is_counted && is_ended,
    })
}

/// Whether no steps are left, and the iterator says so.
fn is_at_end(steps: &mut Steps<'_>) -> bool {
    steps.size_hint() == (0, Some(0)) && steps.next().is_none()
}
