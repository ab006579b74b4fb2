//! Trivia put back: an output sent over its text.
ghost use Rattle.std.specs.Prelude.{◌≡◌, ◌↔◌, List, ◌++◌, length, IsTrue, OnOk, IfOk, IfErr};
ghost use Rattle.std.specs.Str.{chars};
ghost use Rattle.squawk_table.specs.ParserInput.{input_of};
ghost use Rattle.squawk_table.specs.Sent.{marked_list, sent_list, texts_of, ErrorsArePlaced, InnerNodesAreTrimmed, IsBeginning, StopsWithin};
ghost use Rattle.squawk_table.specs.Shape.{Fits, no_keywords};
ghost use Rattle.squawk_output.specs.Steps.{eaten};
ghost use Rattle.squawk_table.specs.declared.shortcuts.str_step.OwnedStep.{OwnedStep};

mod fit;
mod moved;
pub mod step_list;
pub mod str_step;
pub mod str_steps;

use crate::lexed_str::LexedStr;
use squawk_output::Output;
pub use step_list::StepList;
pub use str_step::{OwnedStep, StepSink, StrStep};
pub use str_steps::StrSteps;

impl LexedStr<'_> {
    /// Sends the steps of an output to a sink, with the texts of its tokens and the trivia between them.
    ///
    /// It returns whether the output has all raw tokens that aren't trivia. If the sink refuses a step,
    /// nothing more is sent, and the refusal is returned.
    ///
    /// Trivia goes directly before the next token, the next opening of a node or the end of the root,
    /// whichever comes first, so no node but the root begins or ends with it. Errors directly behind the
    /// end of a node go before that end. The position of an error is the number of bytes sent before it.
    ///
    /// The output [`fits`](LexedStr::fits) the table.
    #[tactic(auto, using(crate::proofs::SentLaws::errors_placed, crate::proofs::Trimmed::trimmed))]
    pub fn intersperse_trivia<S: StepSink>(
        &self,
        output: &Output,
        sink: &mut S,
    ) -> Result<bool, S::Refusal>
        requires { Fits self.now output.now.steps }

        // True if and only if all input tokens are eaten, and if and only if the texts are the whole source.
        ensures all { IfOk result (λ all. IsTrue all ↔ (eaten output.now.steps ≡ length (input_of no_keywords self.now))) }
        ensures whole { IfOk result (λ all. IsTrue all ↔ (texts_of (sent_list self.now output.now.steps) ≡ chars self.now.text)) }
        ensures beginning { OnOk result (IsBeginning (texts_of (sent_list self.now output.now.steps)) (chars self.now.text)) }

        // Each error stands at its position, and no node but the root begins or ends with trivia that was put back.
        ensures placed { ErrorsArePlaced (sent_list self.now output.now.steps) }
        ensures trimmed { InnerNodesAreTrimmed (marked_list self.now output.now.steps) }

        ensures ok { OnOk result ((l : List OwnedStep) → S.stands_after sink.old l
            → S.stands_after sink.new (l ++ sent_list self.now output.now.steps)) }
        ensures err { IfErr result (λ answer. (l : List OwnedStep) → S.stands_after sink.old l
            → StopsWithin (S.stands_after sink.new) S.refuses l (sent_list self.now output.now.steps) answer) }
    {
        let mut steps = self.str_steps(output);
        while let Some(step) = steps.next() {
            sink.step(step)?;
        }
        Ok(steps.eaten_all())
    }
}
