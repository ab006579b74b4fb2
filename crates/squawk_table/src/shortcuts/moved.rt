//! The steps of an output in the order in which they are sent.
ghost use Rattle.std.specs.Prelude.{◌≡◌, ◌<◌, ◌^◌, length};
ghost use Rattle.squawk_table.specs.Sent.{errors_moved};

use squawk_output::{Step, Steps};
use std::marker::Model;

/// The steps that are left of an output, with errors directly behind a closing moved before it.
#[derive(Drop)]
pub(super) struct MovedErrors<'a> {
    steps: Steps<'a>,
    /// Whether a closing before `steps` is held back, since errors may follow it.
    holds_closing: bool,
}

impl<'a> Model for MovedErrors<'a> {
    ghost use Rattle.std.specs.Prelude.{List, length, ◌<◌, ◌^◌};
    ghost use Rattle.squawk_output.specs.Steps as plain;
    ghost use Rattle.squawk_table.specs.Sent.{errors_moved};
    ghost use Rattle.squawk_table.specs.SinkViews.{behind_closing};

    ghost Value = { List plain.Step };

    ghost view = { λ m. errors_moved (behind_closing m.holds_closing m.steps) };

    ghost invariant = { λ m. length (behind_closing m.holds_closing m.steps) < 2 ^ 64 };
}

impl<'a> MovedErrors<'a> {
    pub(super) fn new(steps: Steps<'a>) -> MovedErrors<'a>
        requires { length steps < 2 ^ 64 }
        ensures { result ≡ errors_moved steps.entry }
    {
        MovedErrors {
            steps,
            holds_closing: false,
        }
    }

    /// The number of steps that are left.
    pub(super) fn len(&self) -> usize
        ensures { result ≡ length self.now }
    {
        self.steps.size_hint().0 + usize::from(self.holds_closing)
    }
}

impl<'a> Iterator for MovedErrors<'a> {
    ghost use Rattle.std.specs.Iterator.{YieldsFirstBy, item_count};
    ghost use Rattle.squawk_output.specs.StepViews.{step_of};

    type Item = Step<'a>;

    ghost next_gives = { YieldsFirstBy step_of (λ s. s) };

    ghost remaining = { item_count (λ s. s) };

    fn next(&mut self) -> Option<Step<'a>> {
        if !self.holds_closing {
            match self.steps.next() {
                Some(Step::Exit) => self.holds_closing = true,
                other => return other,
            }
        }
        match self.steps.next_error() {
            Some(msg) => Some(Step::Error { msg }),
            None => {
                self.holds_closing = false;
                Some(Step::Exit)
            }
        }
    }
}
