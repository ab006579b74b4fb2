//! The steps of an output, one after another. What is inlined runs for each step.
ghost use Rattle.std.specs.Prelude.{◌≡◌, ◌∷◌, false, map, IsNone, IfSome};
ghost use Rattle.std.specs.Str.{chars};
ghost use Rattle.squawk_output.specs.StoredSteps.{HaveTexts, step_in};
ghost use Rattle.squawk_output.specs.Steps.{Error, begins_with_error};

use crate::output::step::Step;
use crate::output::stored::StoredStep;
use crate::output::text::Text;
use std::marker::Model;

/// The steps that are left of an output, as an iterator.
#[derive(Drop)]
pub struct Steps<'a> {
    words: &'a [u32],
    /// The texts of the errors of the whole output, by their numbers.
    errors: &'a [Text],
}

impl<'a> Model for Steps<'a> {
    ghost use Rattle.std.specs.Prelude.{List, map};
    ghost use Rattle.squawk_output.specs.Steps as plain;

    ghost Value = { List plain.Step };

    ghost use Rattle.squawk_output.specs.StoredSteps.{HaveTexts, step_in};

    ghost view = { λ s. map (step_in s.errors.now) s.words.now };

    ghost invariant = { λ s. HaveTexts s.errors.now s.words.now };
}

impl<'a> Steps<'a> {
    pub(crate) fn new(words: &'a [u32], errors: &'a [Text]) -> Steps<'a>
        requires { HaveTexts errors.now words.now }
        ensures { result ≡ map (step_in errors.now) words.now }
    {
        Steps { words, errors }
    }

    /// Takes the next step if it is an error, and returns its text. Any other step stays.
    #[inline(always)]
    pub fn next_error(&mut self) -> Option<&'a str>
        ensures error { IfSome result (λ msg. self.old ≡ Error (chars msg.now) ∷ self.new) }
        ensures none { IsNone result → begins_with_error self.old ≡ false }
        ensures stays { IsNone result → self.new ≡ self.old }
    {
        let (word, rest) = self.words.split_first()?;
        let number = StoredStep::as_error(*word)?;
        self.words = rest;
        Some(self.errors[number as usize].as_str())
    }
}

impl<'a> Iterator for Steps<'a> {
    ghost use Rattle.std.specs.Prelude.{◌≡◌, length, Some, IfSome};
    ghost use Rattle.std.specs.Iterator.{YieldsFirstBy, UpTo, item_count};
    ghost use Rattle.std.specs.Iterator.SizeHint.{IsWithinCount};
    ghost use Rattle.squawk_output.specs.StepViews.{step_of};

    type Item = Step<'a>;

    ghost next_gives = { YieldsFirstBy step_of (λ s. s) };

    ghost remaining = { item_count (λ s. s) };

    #[inline(always)]
    fn next(&mut self) -> Option<Step<'a>> {
        let (first, rest) = self.words.split_first()?;
        self.words = rest;
        Some(StoredStep::unpack(*first).lend(self.errors))
    }

    fn size_hint(&self) -> (usize, Option<usize>)
        ensures lower { IsWithinCount result.0 (item_count (λ s. s) self.now) }
        ensures upper { IfSome result.1 (UpTo (item_count (λ s. s) self.now)) }
        ensures exact { (result.0 ≡ length self.now) × (result.1 ≡ Some (length self.now)) }
    {
        let left = self.words.len();
        (left, Some(left))
    }
}
