//! The sent list, one step after another. What is inlined runs for each step.
ghost use Rattle.std.specs.Prelude.{◌≡◌, ◌+◌, ◌^◌, ◌<◌, ◌≤◌, ◌↔◌, [], true, length, slice_index, IsTrue};
ghost use Rattle.std.specs.Str.{chars};
ghost use Rattle.squawk_kinds.specs.Kinds.{is_trivia};
ghost use Rattle.squawk_output.specs.StepViews.{step_of};
ghost use Rattle.squawk_output.specs.Steps.{eaten};
ghost use Rattle.squawk_table.specs.ParserInput.{input_of};
ghost use Rattle.squawk_table.specs.RawTable.{raw_at};
ghost use Rattle.squawk_table.specs.Sending.{sent_here, HasTokens, next_raw, receives_at, depth_behind};
ghost use Rattle.squawk_table.specs.Sent.{marked_list, sent_list, sent_raw, texts_of, ErrorsArePlaced, InnerNodesAreTrimmed, IsBeginning};
ghost use Rattle.squawk_table.specs.Shape.{Fits, no_keywords};
ghost use Rattle.squawk_table.specs.SinkViews.{owned_step_of};

use crate::lexed_str::LexedStr;
use crate::shortcuts::moved::MovedErrors;
use crate::shortcuts::str_step::StrStep;
use squawk_output::{Output, Step};
use std::marker::Model;

/// The steps that are left of an output, with the texts of its tokens and the trivia between them.
///
/// An iterator that borrows the table and the output and allocates nothing. It is fused.
#[derive(Drop)]
pub struct StrSteps<'s> {
    table: &'s LexedStr<'s>,
    steps: MovedErrors<'s>,
    /// A step that was taken from `steps` and that trivia goes before.
    pending: Option<Step<'s>>,
    /// The next raw token.
    raw: usize,
    /// The number of raw tokens.
    end: usize,
    /// The number of open nodes.
    depth: usize,
}

impl<'s> Model for StrSteps<'s> {
    ghost use Rattle.std.specs.Prelude.{◌≡◌, length};
    ghost use Rattle.squawk_table.specs.SinkViews.{behind_pending};
    ghost use Rattle.squawk_table.specs.StrWalk.{StrWalk, walk_from, CanGoOn};

    ghost Value = { StrWalk };

    ghost view = { λ s. walk_from s.table.now s.raw s.depth (behind_pending s.pending s.steps) };

    ghost invariant = { λ s. (s.end ≡ length s.table.now.kinds)
        × CanGoOn s.table.now s.raw s.depth (behind_pending s.pending s.steps) };
}

impl LexedStr<'_> {
    /// The steps that [`intersperse_trivia`](LexedStr::intersperse_trivia) sends, as an iterator.
    ///
    /// The output [`fits`](LexedStr::fits) the table.
    #[tactic(auto, using(crate::proofs::SentLaws::errors_placed, crate::proofs::Trimmed::trimmed))]
    pub fn str_steps<'s>(&'s self, output: &'s Output) -> StrSteps<'s>
        requires { Fits self.now output.now.steps }
        ensures steps { result.steps ≡ sent_list self.now output.now.steps }

        // All is eaten if and only if all input tokens are, and if and only if the texts are the whole source.
        ensures all { IsTrue result.eaten_all ↔ (eaten output.now.steps ≡ length (input_of no_keywords self.now)) }
        ensures whole { IsTrue result.eaten_all ↔ (texts_of (sent_list self.now output.now.steps) ≡ chars self.now.text) }
        ensures beginning { IsBeginning (texts_of (sent_list self.now output.now.steps)) (chars self.now.text) }

        // Each error stands at its position, and no node but the root begins or ends with trivia that was put back.
        ensures placed { ErrorsArePlaced (sent_list self.now output.now.steps) }
        ensures trimmed { InnerNodesAreTrimmed (marked_list self.now output.now.steps) }
        ensures left { (result.steps_left ≡ length output.now.steps) × (result.raw_left ≡ length self.now.kinds) }
    {
        StrSteps {
            table: self,
            steps: MovedErrors::new(output.iter()),
            pending: None,
            raw: 0,
            end: self.len(),
            depth: 0,
        }
    }

    /// Whether this raw token is trivia that goes before the step, inside of `depth` nodes.
    fn has_trivia_before(&self, step: &Step<'_>, raw: usize, depth: usize) -> bool
        ensures { IsTrue result ↔ ((raw < length self.now.kinds) × (is_trivia (slice_index self.now.kinds raw) ≡ true) × (receives_at depth (step_of step.now) ≡ true)) }
    {
        receives_trivia(step, depth) && raw < self.len() && self.kind(raw).is_trivia()
    }

    /// A raw token by itself.
    fn raw_step(&self, raw: usize) -> StrStep<'_>
        requires { raw < length self.now.kinds }
        ensures { owned_step_of result ≡ sent_raw (raw_at self.now raw) }
    {
        StrStep::Token {
            kind: self.kind(raw),
            text: self.text(raw),
        }
    }

    /// The step, where a token has the raw tokens from `raw` on, and the next raw token behind it.
    fn str_step<'s>(&'s self, step: Step<'s>, raw: usize) -> (StrStep<'s>, usize)
        requires counted { length self.now.kinds < 2 ^ 64 }
        requires within { raw ≤ length self.now.kinds }
        requires tokens { HasTokens self.now raw (step_of step) }
        ensures step { owned_step_of result.0 ≡ sent_here self.now raw (step_of step.entry) }
        ensures raw { result.1 ≡ next_raw raw (step_of step.entry) }
    {
        match step {
            Step::Token {
                kind,
                n_input_tokens,
            } => {
                let end = raw + n_input_tokens as usize;
                let text = self.range_text(raw..end);
                (StrStep::Token { kind, text }, end)
            }
            Step::Enter { kind } => (StrStep::Enter { kind }, raw),
            Step::Exit => (StrStep::Exit, raw),
            Step::Error { msg } => {
                let pos = self.text_start(raw);
                (StrStep::Error { msg, pos }, raw)
            }
        }
    }
}

impl<'s> StrSteps<'s> {
    /// Whether the output has all raw tokens that aren't trivia. Meaningful only after the iterator has
    /// ended.
    pub fn eaten_all(&self) -> bool
        ensures { self.now.steps ≡ [] → result ≡ self.now.eaten_all }
    {
        self.raw == self.end
    }
}

impl<'s> Iterator for StrSteps<'s> {
    ghost use Rattle.std.specs.Prelude.{◌≡◌, ◌+◌, ◌<◌, ◌^◌, SomeIff, IfSome};
    ghost use Rattle.std.specs.Iterator.{YieldsFirstBy, UpTo, item_count};
    ghost use Rattle.std.specs.Iterator.SizeHint.{IsWithinCount};
    ghost use Rattle.squawk_table.specs.SinkViews.{owned_step_of};
    ghost use Rattle.squawk_table.specs.StrWalk.{GoesOn};

    type Item = StrStep<'s>;

    ghost next_gives = { λ s r t. YieldsFirstBy owned_step_of (λ s. s.steps) s r t × GoesOn s r t };

    ghost remaining = { item_count (λ s. s.steps) };

    #[inline(always)]
    fn next(&mut self) -> Option<StrStep<'s>> {
        let step = match self.pending.take() {
            Some(step) => step,
            None => match self.steps.next() {
                Some(step) => step,
                None => return None,
            },
        };
        if self.table.has_trivia_before(&step, self.raw, self.depth) {
            let trivia = self.table.raw_step(self.raw);
            self.pending = Some(step);
            self.raw += 1;
            return Some(trivia);
        }
        let depth = depth_behind(&step, self.depth);
        let (given, raw) = self.table.str_step(step, self.raw);
        self.depth = depth;
        self.raw = raw;
        Some(given)
    }

    /// The number of output steps that are left; at most that plus the number of raw tokens that are left.
    fn size_hint(&self) -> (usize, Option<usize>)
        ensures lower { IsWithinCount result.0 (item_count (λ s. s.steps) self.now) }
        ensures upper { IfSome result.1 (UpTo (item_count (λ s. s.steps) self.now)) }
        ensures exact_lower { result.0 ≡ self.now.steps_left }
        ensures exact_upper { let most = self.now.steps_left + self.now.raw_left in SomeIff result.1 (most < 2 ^ 64) most }
    {
        let steps_left = self.steps.len() + usize::from(self.pending.is_some());
        (steps_left, steps_left.checked_add(self.end - self.raw))
    }
}

/// Whether trivia may stand directly before a step, inside of `depth` nodes.
fn receives_trivia(step: &Step<'_>, depth: usize) -> bool
    ensures { result ≡ receives_at depth (step_of step.now) }
{
    match step {
        Step::Token { .. } => true,
        Step::Enter { .. } => depth > 0,
        Step::Exit => depth == 1,
        Step::Error { .. } => false,
    }
}

/// The number of open nodes behind a step.
fn depth_behind(step: &Step<'_>, depth: usize) -> usize
    requires { depth + 1 < 2 ^ 64 }
    ensures { result ≡ depth_behind depth (step_of step.now) }
{
    match step {
        Step::Enter { .. } => depth + 1,
        Step::Exit => depth.saturating_sub(1),
        Step::Token { .. } | Step::Error { .. } => depth,
    }
}
