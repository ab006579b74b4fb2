//! What didn't hold.

use crate::sections::Case;
use std::alloc::{AllocError, Global};
use std::fmt::Write;

/// What was told of the cases so far.
#[derive(Drop)]
pub struct Report {
    /// What is to be printed of cases that don't hold.
    pub text: String,
    pub cases: u64,
    pub held: u64,
    /// Whether the case that is running holds so far.
    holds: bool,
}

impl Report {
    pub fn new(alloc: Global) -> Report {
        Report {
            text: String::new(alloc),
            cases: 0,
            held: 0,
            holds: true,
        }
    }

    /// Begins a case.
    pub fn begin(&mut self) {
        self.cases = self.cases.saturating_add(1);
        self.holds = true;
    }

    /// Ends the case that was begun.
    pub fn end(&mut self) {
        if self.holds {
            self.held = self.held.saturating_add(1);
        }
    }

    /// Tells that a line of the case doesn't hold, unless what came is what was wanted.
    pub fn compare(
        &mut self,
        case: &Case<'_>,
        line: usize,
        wanted: &str,
        came: &str,
    ) -> Result<(), AllocError> {
        if wanted == came {
            return Ok(());
        }
        self.holds = false;
        let name = case.name;
        writeln!(self.text, "line {line}, {name}:")?;
        writeln!(self.text, "  wanted {wanted}")?;
        writeln!(self.text, "  came   {came}")
    }
}

/// A line of a word and what stands behind it, if anything does.
pub fn line_of(alloc: Global, word: &str, value: &str) -> Result<String, AllocError> {
    if value.is_empty() {
        String::from_str(alloc, word)
    } else {
        format!(in alloc; "{word} {value}")
    }
}
