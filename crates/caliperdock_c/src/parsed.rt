//! From numbers to a table and an output over it.
ghost use Rattle.std.specs.Prelude.{◌≡◌, ◌≤◌, length, IfOk, IfErr, IsUtf8};
ghost use Rattle.squawk_output.specs.Steps.{errors_in};
ghost use Rattle.squawk_table.specs.Shape.{Fits};
ghost use Rattle.caliperdock_c.specs.Refusals.{HasSteps, HasTable, Refuses, RefusesTable, RefusesText, given};

use crate::answer::Refusal;
use crate::event::{CEvent, log_of};
use crate::token::{CToken, raw_tokens};
use squawk_parser::{LexedStr, NoKeywords, Output};
use std::alloc::Global;

/// A table, and an output that fits it.
#[derive(Drop)]
pub struct Parsed<'t> {
    pub table: LexedStr<'t>,
    pub output: Output,
}

/// The text that these bytes are.
pub fn text_of(bytes: &[u8]) -> Result<&str, Refusal>
    ensures text { IfOk result (λ text. text.now ≡ bytes.now) }
    ensures utf8 { IfOk result (λ text. IsUtf8 bytes.now) }
    ensures refused { IfErr result (RefusesText bytes.now) }
{
    match str::from_utf8(bytes) {
        Ok(text) => Ok(text),
        Err(error) => {
            let at = error.valid_up_to();
            Err(Refusal::NotUtf8 { at })
        }
    }
}

/// The table of a text with these raw tokens.
// Not inlined, so that its locals are in registers.
#[tactic(auto, using(crate::proofs::Reasons::table_text, crate::proofs::Reasons::table_tokens))]
#[inline(never)]
fn table_of<'t>(alloc: Global, text: &'t [u8], tokens: &[CToken]) -> Result<LexedStr<'t>, Refusal>
    ensures table { IfOk result (HasTable text.now tokens.now) }
    ensures refused { IfErr result (RefusesTable text.now tokens.now) }
{
    let text = text_of(text)?;
    let raw = raw_tokens(alloc, tokens)?;
    Ok(LexedStr::new(alloc, text, &raw, &NoKeywords)?)
}

/// The table of a text with these raw tokens, and the output of these events.
#[tactic(auto, using(crate::proofs::Reasons::of_table, crate::proofs::Reasons::of_events, crate::proofs::Logs::has_steps, crate::proofs::Logs::few_steps, crate::proofs::Logs::few_errors))]
pub fn parse_events<'t>(
    alloc: Global,
    text: &'t [u8],
    tokens: &[CToken],
    events: &[CEvent],
    messages: &[u8],
) -> Result<Parsed<'t>, Refusal>
    ensures steps { let g = given text.now tokens.now events.now messages.now in
        IfOk result (λ parsed. HasSteps g parsed.table parsed.output.steps) }
    ensures fits { IfOk result (λ parsed. Fits parsed.table parsed.output.steps) }
    ensures few { IfOk result (λ parsed. length parsed.output.steps ≤ 2147483648) }
    ensures few_errors { IfOk result (λ parsed. errors_in parsed.output.steps ≤ 2147483648) }
    ensures refused { let g = given text.now tokens.now events.now messages.now in IfErr result (Refuses g) }
{
    let table = table_of(alloc, text, tokens)?;
    let log = log_of(alloc, events, messages)?;
    let output = log.process(alloc, events.len() as u32)?;
    if !output.stands_in_one_root() {
        return Err(Refusal::NoRoot);
    }
    if !table.fits(&output) {
        return Err(Refusal::DoesNotFit);
    }
    Ok(Parsed { table, output })
}
