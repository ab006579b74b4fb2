//! What is written of a part of a script.
ghost use Rattle.std.specs.Prelude.{◌≡◌, ◌↔◌, List, IfOk, IfErr, IsTrue, OnErr, ℕ};
ghost use Rattle.std.proofs.Props.{props};
ghost use Rattle.sql_words.specs.SqlVocabulary.{KnowsKeywords};
ghost use Rattle.caliperdock_c.specs.Parts.{HasPartRoom, IsPartWritten, IsReadOf, RefusesPart, is_told, no_part, number_of_place, place_of_number};

use crate::answer::Refusal;
use crate::errors::CError;
use crate::parsed::text_of;
use crate::sent::{CCounts, send};
use crate::sql_lists::write_statements;
use crate::statement::CStatement;
use crate::steps::CStep;
use rule_grammar::RuleGrammar;
use sql_grammar::{ScriptParts, whole_lines};
use sql_lexer::ScriptPlace;
use sql_report::statements;
use sql_rules::rules;
use sql_words::vocabulary;
use squawk_keywords::Keywords;
use std::alloc::{AllocError, Global};

/// How much there is of a part: bytes of the text that are read, the place of the script after them, statements, and what the
/// counts of a walk say.
#[repr(C)]
#[derive(Clone, Copy)]
pub struct CPartCounts {
    pub bytes: u64,
    pub place: u32,
    pub statements: u64,
    pub sent: CCounts,
}

impl CPartCounts {
    /// Nothing is read, and the script stands where it stood.
    pub fn none(place: u32) -> CPartCounts
        ensures { result ≡ no_part place }
    {
        CPartCounts {
            bytes: 0,
            place,
            statements: 0,
            sent: CCounts::none(),
        }
    }

    /// Whether there is room for all.
    pub fn fit(
        &self,
        statements: &[CStatement],
        steps: &[CStep],
        errors: &[CError],
        texts: &[u8],
    ) -> bool
        ensures { IsTrue result ↔ HasPartRoom statements.now steps.now errors.now texts.now self.now }
    {
        self.statements <= statements.len() as u64 && self.sent.fit(steps, errors, texts)
    }
}

/// PostgreSQL's keywords, and the rules of its statements.
#[derive(Drop)]
struct Grammar {
    vocabulary: Keywords<'static>,
    rules: RuleGrammar<'static>,
    ghost keywords: { KnowsKeywords vocabulary } by { Prim.hlevel props },
}

impl Grammar {
    fn new(alloc: Global) -> Result<Grammar, AllocError> {
        Ok(Grammar {
            vocabulary: vocabulary(alloc)?,
            rules: rules(),
        })
    }
}

/// Writes what is read of a text, from this place of a script, as far as there is room.
pub fn write_part(
    alloc: Global,
    text: &[u8],
    place: u32,
    is_last: bool,
    all_statements: &mut [CStatement],
    steps: &mut [CStep],
    errors: &mut [CError],
    texts: &mut [u8],
) -> Result<CPartCounts, Refusal>
    ensures written { IfOk result (IsPartWritten text.now place is_last all_statements.old steps.old errors.old texts.old
        all_statements.new steps.new errors.new texts.new) }
    ensures refused { IfErr result (RefusesPart text.now place is_last) }
    ensures statements_stay { OnErr result (all_statements.new ≡ all_statements.old) }
    ensures steps_stay { OnErr result (steps.new ≡ steps.old) }
    ensures errors_stay { OnErr result (errors.new ≡ errors.old) }
    ensures texts_stay { OnErr result (texts.new ≡ texts.old) }
{
    let text = text_of(readable(text, is_last))?;
    let mut parts = ScriptParts::new(alloc, text, place_of(place), is_last)?;
    let grammar = Grammar::new(alloc)?;
    let Some(part) = parts.next_part(usize::MAX, &grammar.vocabulary, &grammar.rules)? else {
        return Ok(CPartCounts::none(place));
    };
    let found = statements(alloc, &part.table, &part.output)?;
    let sent = send(alloc, &part.table, &part.output, steps, errors, texts)?;
    write_statements(all_statements, &found);
    Ok(CPartCounts {
        bytes: parts.position() as u64,
        place: number_of(parts.place()),
        statements: found.len() as u64,
        sent,
    })
}

/// What is read of a text: where others follow, its lines that end.
fn readable(text: &[u8], is_last: bool) -> &[u8]
    ensures { IsReadOf is_last text.now result.now }
{
    if is_last { text } else { whole_lines(text) }
}

/// Whether a number says yes, as any but 0 does.
pub fn is_told(number: u32) -> bool
    ensures { result ≡ is_told number }
{
    number != 0
}

/// The place of a script that a number says.
fn place_of(number: u32) -> ScriptPlace
    ensures { result ≡ place_of_number number }
{
    match number.checked_sub(1) {
        None => ScriptPlace::Front,
        Some(waiting) => ScriptPlace::Inside { waiting },
    }
}

/// The number of a place of a script.
fn number_of(place: Option<ScriptPlace>) -> u32
    ensures { result ≡ number_of_place place }
{
    match place {
        None | Some(ScriptPlace::Front) => 0,
        Some(ScriptPlace::Inside { waiting }) => waiting.saturating_add(1),
    }
}
