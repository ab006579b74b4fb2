//! The lines of the answer to a document.
ghost use Rattle.std.specs.Prelude.{◌≡◌, ◌≢◌, ℕ, List, Ok, Err, false, IfErr, MatchResult};
ghost use Rattle.serde_json.specs.View.{view};
ghost use Rattle.squawk_document.specs.Documents.{content_of};
ghost use Rattle.squawk_document.specs.Values.{json_value};
ghost use Rattle.squawk_kinds.specs.Kinds.{EOF};
ghost use Rattle.squawk_kinds.specs.TokenSets.{has};
ghost use Rattle.squawk_answer.specs.AnswerLines.{answer_texts};
ghost use Rattle.squawk_answer.specs.Answers.{IsTheAnswer, Returns};

use crate::fault::Fault;
use crate::lines::{error_lines, step_lines};
use crate::parse::parse;
use serde_json::Value;
use squawk_document::{Document, value};
use squawk_parser::LexedStr;
use std::alloc::Global;

/// The lines of the answer to a document.
#[derive(Drop)]
pub struct Answer {
    /// A line for each lexical error.
    pub errors: String,
    /// A line for each step, then one that says whether all tokens were eaten.
    pub steps: String,
}

impl Answer {
    /// Makes the answer to the bytes of a document, which are dropped once their JSON is parsed.
    pub fn new(alloc: Global, input: Vec<u8>) -> Result<Answer, Fault>
        ensures answer { MatchResult result
            (λ a. IsTheAnswer input.items (Ok (answer_texts a)))
            (λ fault. IsTheAnswer input.items (Err fault)) }
        ensures unwritten { IfErr result (λ fault. fault ≢ Fault.Io) }
    {
        let value = value::parse(alloc, &input)?;
        drop(input);
        Answer::to_value(alloc, &value)
    }

    /// Makes the answer to bytes whose JSON is this value.
    fn to_value(alloc: Global, value: &Value) -> Result<Answer, Fault>
        ensures answer { (input : List ℕ) → json_value input ≡ Ok (view value.now) → MatchResult result
            (λ a. IsTheAnswer input (Ok (answer_texts a)))
            (λ fault. IsTheAnswer input (Err fault)) }
        ensures unwritten { IfErr result (λ fault. fault ≢ Fault.Io) }
    {
        Answer::to_document(alloc, Document::from_value(alloc, value)?)
    }

    /// Makes the answer to a document.
    fn to_document(alloc: Global, document: Document<'_>) -> Result<Answer, Fault>
        requires { has document.operator_first EOF ≡ false }
        ensures answer { MatchResult result
            (λ a. Returns (content_of document.entry) (Ok (answer_texts a)))
            (λ fault. Returns (content_of document.entry) (Err fault)) }
        ensures unwritten { IfErr result (λ fault. fault ≢ Fault.Io) }
    {
        let Document {
            text,
            tokens,
            operator_first,
            names,
            vocabulary,
            grammar,
        } = document;
        let table = LexedStr::new(alloc, text, &tokens, &vocabulary)?;
        drop(tokens);
        let output = parse(alloc, &table, &vocabulary, operator_first, &names, grammar)?;
        let errors = error_lines(alloc, table.errors())?;
        let steps = step_lines(alloc, table.str_steps(&output))?;
        Ok(Answer { errors, steps })
    }
}
