//! The steps that a pass makes. What is inlined runs for each event.
ghost use Rattle.std.specs.Prelude.{◌≡◌, [], ◌∷◌, ◌++◌, ◌+◌, ◌<◌, ◌^◌, ◌↔◌, IfOk, IsTrue, length, slice_index_or};
ghost use Rattle.squawk_output.specs.OneRoot.{StandsInOneRoot};
ghost use Rattle.squawk_output.specs.PackedEvents.{IsPlain};
ghost use Rattle.squawk_output.specs.Steps.{Error, errors_in, without_errors};
ghost use Rattle.squawk_output.specs.StoredSteps.{enters_of, step_in, unpacked};

use crate::output::root_tracker::RootTracker;
use crate::output::steps::Steps;
use crate::output::stored::{StoredStep, enters, leaves};
use crate::output::text::Text;
use std::alloc::{AllocError, Global};
use std::marker::Model;

/// The steps that a pass has made so far, and the number of its turns.
///
/// Room for all steps is reserved when it begins. Each step is a word. The texts of all errors are there
/// from the beginning, each at its error's number.
#[derive(Drop)]
pub(crate) struct OutputBuilder {
    words: Vec<u32>,
    errors: Vec<Text>,
    /// How many of the steps are errors.
    error_steps: usize,
    turns: u64,
    tracker: RootTracker,
}

impl Model for OutputBuilder {
    ghost use Rattle.squawk_output.specs.Steps.{Built};

    ghost Value = { Built };

    ghost use Rattle.std.specs.Prelude.{◌≡◌, ◌≤◌, ◌-◌, length, map};
    ghost use Rattle.squawk_output.specs.RootTracker.{tracked_of};
    ghost use Rattle.squawk_output.specs.StoredSteps.{AreWords, HaveTexts, step_in};
    ghost use Rattle.std.specs.Vec.{vec_capacity};

    ghost view = { λ p. record { steps = map (step_in p.errors.items) p.words.items; room = vec_capacity p.words; texts = p.errors.items; turns = p.turns } };

    ghost invariant = { λ p. record {
      words : AreWords p.words.items;
      have_texts : HaveTexts p.errors.items p.words.items;
      tracker : tracked_of (map (step_in p.errors.items) p.words.items) ≡ record { count = length p.words.items - p.error_steps; tracker = p.tracker };
      error_steps : p.error_steps ≤ length p.words.items;
      low : p.tracker.depth ≤ length p.words.items;
      few : p.tracker.top_level ≤ length p.words.items;
    } };
}

impl OutputBuilder {
    /// No steps.
    pub(crate) fn empty(alloc: Global) -> OutputBuilder
        ensures { result ≡ record { steps = []; room = 0; texts = []; turns = 0 } }
    {
        OutputBuilder {
            words: Vec::new(alloc),
            errors: Vec::new(alloc),
            error_steps: 0,
            turns: 0,
            tracker: RootTracker::new(),
        }
    }

    /// No steps, with room for `steps`, and the texts of the errors to come.
    pub(crate) fn with_capacity(
        alloc: Global,
        steps: usize,
        errors: Vec<Text>,
    ) -> Result<OutputBuilder, AllocError>
        ensures { IfOk result (λ p. p ≡ record { steps = []; room = steps; texts = errors.items; turns = 0 }) }
    {
        Ok(OutputBuilder {
            words: Vec::with_capacity(alloc, steps)?,
            errors,
            error_steps: 0,
            turns: 0,
            tracker: RootTracker::new(),
        })
    }

    /// Appends the step of a word, and counts the turn that visits its event, and for a `Start` the one that
    /// takes its kind.
    ///
    /// No branch depends on what the step is.
    #[inline(always)]
    pub(crate) fn put_plain(&mut self, word: u32)
        requires plain { IsPlain word }
        requires room { length self.old.steps < self.old.room }
        requires turns { self.old.turns + 2 < 2 ^ 64 }
        ensures { self.new ≡ record self.old { steps = self.old.steps ++ step_in self.old.texts word ∷ []; turns = self.old.turns + 1 + enters_of (unpacked word) } }
    {
        self.put(word);
        self.turns += u64::from(1 + enters(word));
    }

    /// Appends the step of a word, and counts no turn.
    #[inline(always)]
    pub(crate) fn put(&mut self, word: u32)
        requires plain { IsPlain word }
        requires room { length self.old.steps < self.old.room }
        ensures { self.new ≡ record self.old { steps = self.old.steps ++ step_in self.old.texts word ∷ [] } }
    {
        let enters = enters(word);
        let leaves = leaves(word);
        self.words.push_reserved(word);
        self.tracker.step(enters as usize, leaves as usize);
    }

    /// Appends the error with this number, of 31 bits, and counts the turn that visits it.
    #[inline(always)]
    pub(crate) fn put_error(&mut self, number: u32)
        requires text { number < length self.old.texts }
        requires fits { number < 2147483648 }
        requires room { length self.old.steps < self.old.room }
        requires turns { self.old.turns + 1 < 2 ^ 64 }
        ensures { self.new ≡ record self.old { steps = self.old.steps ++ Error (slice_index_or self.old.texts number []) ∷ []; turns = self.old.turns + 1 } }
    {
        self.words
            .push_reserved(StoredStep::Error { number }.pack());
        self.error_steps += 1;
        self.turn();
    }

    /// Counts one turn: an event is visited, a link is followed, or a kind is taken.
    #[inline(always)]
    pub(crate) fn turn(&mut self)
        requires { self.old.turns + 1 < 2 ^ 64 }
        ensures { self.new ≡ record self.old { turns = self.old.turns + 1 } }
    {
        self.turns += 1;
    }

    /// Counts the two turns of a `Start` that gives no step: it is visited, and its kind is taken.
    #[inline(always)]
    pub(crate) fn pass_by(&mut self)
        requires { self.old.turns + 2 < 2 ^ 64 }
        ensures { self.new ≡ record self.old { turns = self.old.turns + 2 } }
    {
        self.turns += 2;
    }

    /// The steps in order.
    pub(crate) fn iter(&self) -> Steps<'_>
        ensures steps { result ≡ self.now.steps }
        ensures few { length self.now.steps < 2 ^ 64 }
    {
        Steps::new(&self.words, &self.errors)
    }

    /// The number of steps that are errors.
    pub(crate) fn error_count(&self) -> usize
        ensures { result ≡ errors_in self.now.steps }
    {
        self.error_steps
    }

    /// Whether the steps stand in one root, errors aside.
    #[tactic(auto, using(crate::proofs::TrackedRoot::tracked_in_one_root))]
    pub(crate) fn stands_in_one_root(&self) -> bool
        ensures { IsTrue result ↔ StandsInOneRoot (without_errors self.now.steps) }
    {
        self.tracker
            .is_one_root(self.words.len() - self.error_steps)
    }

    /// The number of turns.
    pub(crate) fn turns(&self) -> u64
        ensures { result ≡ self.now.turns }
    {
        self.turns
    }
}

#[cfg(test)]
mod tests;
