//! Whether an output can be sent over a table.
ghost use Rattle.std.specs.Prelude.{◌≡◌, ◌+◌, ◌<◌, ◌≤◌, ◌↔◌, false, IsTrue, SomeIff, length, slice_index, take};
ghost use Rattle.squawk_kinds.specs.Kinds.{is_trivia};
ghost use Rattle.squawk_kinds.specs.Keywords.{Keywords};
ghost use Rattle.squawk_output.specs.OneRoot.{StandsInOneRoot};
ghost use Rattle.squawk_output.specs.Steps.{without_errors};
ghost use Rattle.squawk_table.specs.ParserInput.{input_of};
ghost use Rattle.squawk_table.specs.RawTable.{raw_after};
ghost use Rattle.squawk_table.specs.Sent.{past_trivia, HasNoTrivia};
ghost use Rattle.squawk_table.specs.Shape.{IsOver, Fits, no_keywords};

use crate::lexed_str::LexedStr;
use squawk_output::{Output, Step, Steps};

impl LexedStr<'_> {
    /// Whether the output can be sent over this table.
    ///
    /// Errors aside it must be one node with its contents, and each of its tokens must be the next raw
    /// tokens that aren't trivia, with nothing between them. An output of a parse over an input of this
    /// table meets the second; [`Output::stands_in_one_root`] decides the first in constant time.
    pub fn fits(&self, output: &Output) -> bool
        ensures fits { IsTrue result ↔ Fits self.now output.now.steps }
        ensures own { (contextual : Keywords) → IsOver output.now.steps (input_of contextual self.now)
            → IsTrue result ↔ StandsInOneRoot (without_errors output.now.steps) }
    {
        output.stands_in_one_root() && self.tokens_fit(output.iter())
    }

    /// Whether each token of the steps is the next raw tokens that aren't trivia, with nothing between them.
    fn tokens_fit(&self, steps: Steps<'_>) -> bool
        ensures { IsTrue result ↔ IsOver steps.entry (input_of no_keywords self.now) }
    {
        let mut raw = 0;
        for step in steps {
            match step {
                Step::Token { n_input_tokens, .. } => {
                    match self.one_token(self.past_trivia(raw), n_input_tokens) {
                        Some(end) => raw = end,
                        None => return false,
                    }
                }
                Step::Enter { .. } | Step::Exit | Step::Error { .. } => {}
            }
        }
        true
    }

    /// The first raw token from `from` on that isn't trivia, or the number of raw tokens.
    fn past_trivia(&self, from: usize) -> usize
        requires { from ≤ length self.now.kinds }
        ensures within { result ≤ length self.now.kinds }
        ensures past { raw_after self.now result ≡ past_trivia (raw_after self.now from) }
        ensures no_trivia { result < length self.now.kinds → is_trivia (slice_index self.now.kinds result) ≡ false }
    {
        let len = self.len();
        let mut raw = from;
        while raw < len && self.kind(raw).is_trivia() {
            raw += 1;
        }
        raw
    }

    /// The raw token behind the `n` from this one on, if they are there and none of them is trivia. The first
    /// isn't trivia.
    fn one_token(&self, raw: usize, n: u8) -> Option<usize>
        requires within { raw ≤ length self.now.kinds }
        requires first { raw < length self.now.kinds → is_trivia (slice_index self.now.kinds raw) ≡ false }
        ensures { SomeIff result (HasNoTrivia (take n (raw_after self.now raw)) × (1 ≤ n) × (raw + n ≤ length self.now.kinds)) (raw + n) }
    {
        if n == 0 || n as usize > self.len() - raw {
            return None;
        }
        let end = raw + n as usize;
        for i in raw + 1..end {
            if self.kind(i).is_trivia() {
                return None;
            }
        }
        Some(end)
    }
}
