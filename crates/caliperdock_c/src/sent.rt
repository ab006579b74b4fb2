//! What is written of a parse.
ghost use Rattle.std.specs.Prelude.{◌≡◌, ◌≤◌, ◌↔◌, length, IfOk, IsTrue, OnErr};
ghost use Rattle.squawk_output.specs.Steps.{errors_in};
ghost use Rattle.squawk_table.specs.Sent.{sent_list};
ghost use Rattle.squawk_table.specs.Shape.{Fits};
ghost use Rattle.caliperdock_c.specs.Sent.{AreWritten, HasRoom, no_counts};

use crate::errors::{CError, ErrorList};
use crate::overlay::write_over;
use crate::steps::{CStep, write_steps};
use squawk_parser::{LexedStr, Output};
use std::alloc::{AllocError, Global};

/// How many there are: steps; errors among them; all errors; and bytes of the errors' texts. `whole` is
/// 1 where the texts of the steps are all of the source, and else 0.
#[repr(C)]
#[derive(Clone, Copy)]
pub struct CCounts {
    pub steps: u64,
    pub step_errors: u64,
    pub errors: u64,
    pub texts: u64,
    pub whole: u64,
}

impl CCounts {
    pub fn none() -> CCounts
        ensures { result ≡ no_counts }
    {
        CCounts {
            steps: 0,
            step_errors: 0,
            errors: 0,
            texts: 0,
            whole: 0,
        }
    }

    /// Whether there is room for all.
    pub fn fit(&self, steps: &[CStep], errors: &[CError], texts: &[u8]) -> bool
        ensures { IsTrue result ↔ HasRoom steps.now errors.now texts.now self.now }
    {
        self.steps <= steps.len() as u64
            && self.errors <= errors.len() as u64
            && self.texts <= texts.len() as u64
    }
}

/// Writes the steps that are sent for an output over a table, and all errors, as far as there is room.
pub fn send(
    alloc: Global,
    table: &LexedStr<'_>,
    output: &Output,
    steps: &mut [CStep],
    errors: &mut [CError],
    texts: &mut [u8],
) -> Result<CCounts, AllocError>
    requires fits { Fits table.now output.now.steps }
    requires short { length table.now.text ≤ 4294967295 }
    requires few { length output.now.steps ≤ 4294967295 }
    requires few_errors { errors_in output.now.steps ≤ 2147483648 }
    ensures written { IfOk result (AreWritten table.now (sent_list table.now output.now.steps) steps.old errors.old texts.old steps.new errors.new texts.new) }
    ensures steps_stay { OnErr result (steps.new ≡ steps.old) }
    ensures errors_stay { OnErr result (errors.new ≡ errors.old) }
    ensures texts_stay { OnErr result (texts.new ≡ texts.old) }
{
    let list = ErrorList::new(alloc, table, output)?;
    let written = write_steps(table, output, steps);
    write_over(errors, &list.numbers);
    write_over(texts, &list.texts);
    Ok(CCounts {
        steps: written.count,
        step_errors: list.of_steps as u64,
        errors: list.numbers.len() as u64,
        texts: list.texts.len() as u64,
        whole: u64::from(written.all),
    })
}
