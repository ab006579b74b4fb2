//! A sink that is a list.
ghost use Rattle.std.specs.Prelude.{◌≡◌, []};

use crate::shortcuts::str_step::{OwnedStep, StepSink, StrStep};
use squawk_output::Text;
use std::alloc::{AllocError, Global};
use std::marker::Model;

/// A sink that keeps copies of the steps. It refuses a step only if an allocation fails.
#[derive(Drop)]
pub struct StepList {
    alloc: Global,
    steps: Vec<OwnedStep>,
}

impl Model for StepList {
    ghost use Rattle.std.specs.Prelude.{List};
    ghost use Rattle.squawk_table.specs.declared.shortcuts.str_step.OwnedStep.{OwnedStep};

    ghost Value = { List OwnedStep };

    ghost view = { λ s. s.steps.items };
}

impl StepList {
    /// An empty list.
    pub fn new(alloc: Global) -> StepList
        ensures { result ≡ [] }
    {
        StepList {
            alloc,
            steps: Vec::new(alloc),
        }
    }

    /// The steps that were taken, in order.
    pub fn steps(&self) -> &[OwnedStep]
        ensures { result.now ≡ self.now }
    {
        &self.steps
    }
}

impl StepSink for StepList {
    ghost use Rattle.std.specs.Prelude.{◌≡◌};

    type Refusal = AllocError;

    ghost stands_after = { λ s l. s ≡ l };

    ghost refuses = { λ _ _ _. Unit {0} };

    fn step(&mut self, step: StrStep<'_>) -> Result<(), AllocError> {
        let owned = match step {
            StrStep::Token { kind, text } => OwnedStep::Token {
                kind,
                text: Text::new(String::from_str(self.alloc, text)?),
            },
            StrStep::Enter { kind } => OwnedStep::Enter { kind },
            StrStep::Exit => OwnedStep::Exit,
            StrStep::Error { msg, pos } => OwnedStep::Error {
                msg: Text::new(String::from_str(self.alloc, msg)?),
                pos,
            },
        };
        self.steps.push(owned)?;
        Ok(())
    }
}
