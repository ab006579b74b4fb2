//! The parse of a table by the grammar.
ghost use Rattle.std.specs.Prelude.{◌≡◌, ◌≢◌, ◌≤◌, length, IfOk, IfErr};
ghost use Rattle.std.specs.Str.{chars};
ghost use Rattle.squawk_keywords.specs.KeywordAnswers.{contextual_keyword_of};
ghost use Rattle.squawk_output.specs.Steps.{errors_in};
ghost use Rattle.squawk_table.specs.Sent.{sent_list, texts_of};
ghost use Rattle.squawk_table.specs.Shape.{Fits};
ghost use Rattle.sql_grammar.specs.Parses.{AreOfFile, IsRefusedParse};
ghost use Rattle.sql_grammar.specs.Scripts.{EndAsCut, IsScript};

use crate::{Detail, SqlGrammar};
use squawk_keywords::Keywords;
use squawk_parser::{EntryPoint, LexedStr, Output, ParseError};
use std::alloc::Global;

/// Parses a table's input. Returns the output, for which all of the text is sent.
#[tactic(auto, using(crate::proofs::ScriptStatements::end_as_cut))]
pub fn parse_table(
    alloc: Global,
    table: &LexedStr<'_>,
    vocabulary: &Keywords<'_>,
    detail: Detail<'_>,
) -> Result<Output, ParseError>
    ensures file { IfOk result (λ output. AreOfFile detail.entry (contextual_keyword_of vocabulary.now) table.now output.steps) }
    ensures fits { IfOk result (λ output. Fits table.now output.steps) }
    ensures whole { IfOk result (λ output. texts_of (sent_list table.now output.steps) ≡ chars table.now.text) }
    ensures few { IfOk result (λ output. length output.steps ≤ 4294967295) }
    ensures errors { IfOk result (λ output. errors_in output.steps ≤ 2147483648) }
    ensures ends { IsScript vocabulary.now table.now → EndAsCut vocabulary.now table.now }
    ensures refused { IfErr result (λ reason. reason ≢ ParseError.OutOfMemory → IsRefusedParse detail.entry (contextual_keyword_of vocabulary.now) table.now reason) }
{
    // The proof reads that a raw token has a byte at least.
    let _len = table.len();
    let input = table.to_input(alloc, vocabulary)?;
    let grammar = SqlGrammar { detail };
    let output = EntryPoint::SourceFile.parse(alloc, &input, &grammar)?;
    // The proof reads that its steps have all of the text.
    let _steps = table.str_steps(&output);
    Ok(output)
}
