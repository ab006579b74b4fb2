//! The engine for callers in C: what crosses is numbers, bytes and lists of numbers.
//!
//! No export requires anything, keeps a state or hands out memory. What a caller in C owes is said in
//! `bindings/c/caliperdock.h`.
#![tactic(auto)]

ghost use Rattle.std.specs.Prelude.{◌≡◌, ◌≤◌, ◌↔◌, length, IfOk, IfErr, OnErr};
ghost use Rattle.caliperdock_c.specs.Answers.{answer_of};
ghost use Rattle.caliperdock_c.specs.Parts.{HasPartRoom, IsPartWritten, RefusesPart, is_told, no_part};
ghost use Rattle.caliperdock_c.specs.Refusals.{Refuses, given};
ghost use Rattle.caliperdock_c.specs.Sent.{AreSent, HasRoom, no_counts};
ghost use Rattle.sql_grammar.specs.declared.Detail.TheVariants.{Tokens};
ghost use Rattle.caliperdock_c.specs.Sql.{AreOfSql, AreSqlWritten, AreStatementsWritten, HasSqlRoom, IsRefusedByRules, IsRefusedSql, RefusesSql, no_sql_counts};
ghost use Rattle.caliperdock_c.specs.declared.answer.Refusal.{Refusal};

pub mod answer;
pub mod errors;
pub mod event;
mod links;
mod overlay;
mod parsed;
pub mod part;
pub mod sent;
mod sql;
pub mod sql_lists;
pub mod statement;
pub mod steps;
#[cfg(test)]
mod tests;
pub mod token;
mod token_numbers;

use answer::CAnswer;
use errors::CError;
use event::CEvent;
use parsed::parse_events;
use part::{CPartCounts, is_told, write_part};
use sent::{CCounts, send};
use sql_lists::{CSqlCounts, write_cut, write_sql};
use statement::CStatement;
use std::alloc::Global;
use steps::CStep;
use token::CToken;

/// The version of this interface.
#[unsafe(no_mangle)]
pub extern "C" fn caliperdock_abi() -> u32
    ensures { result ≡ 1 }
{
    1
}

/// The steps of a parser's events over a text, and all errors. As much is written as there is room for,
/// and all is counted.
#[unsafe(no_mangle)]
pub extern "C" fn caliperdock_events(
    alloc: Global,
    text: &[u8],
    tokens: &[CToken],
    events: &[CEvent],
    messages: &[u8],
    steps: &mut [CStep],
    errors: &mut [CError],
    texts: &mut [u8],
    counts: &mut CCounts,
) -> CAnswer
    ensures sent { let g = given text.now tokens.now events.now messages.now in
        result.status ≤ 1 → AreSent g steps.old errors.old texts.old steps.new errors.new texts.new counts.new }
    ensures place { result.status ≤ 1 → result.place ≡ 0 }
    ensures room { result.status ≡ 0 ↔ ((result.status ≤ 1) × HasRoom steps.old errors.old texts.old counts.new) }
    ensures refused { let g = given text.now tokens.now events.now messages.now in
        2 ≤ result.status → (reason : Refusal) × Refuses g reason × (result ≡ answer_of reason)
        × (counts.new ≡ no_counts) × (steps.new ≡ steps.old) × (errors.new ≡ errors.old) × (texts.new ≡ texts.old) }
{
    let parsed = match parse_events(alloc, text, tokens, events, messages) {
        Ok(parsed) => parsed,
        Err(refusal) => {
            *counts = CCounts::none();
            return CAnswer::refused(refusal);
        }
    };
    match send(alloc, &parsed.table, &parsed.output, steps, errors, texts) {
        Ok(written) => {
            *counts = written;
            if written.fit(steps, errors, texts) {
                CAnswer::done()
            } else {
                CAnswer::too_small()
            }
        }
        Err(_error) => {
            *counts = CCounts::none();
            CAnswer::refused(answer::Refusal::OutOfMemory)
        }
    }
}

/// All of a text of SQL: its raw tokens, its statements, the steps of its tree, and all errors. As much is
/// written as there is room for, and all is counted.
#[unsafe(no_mangle)]
pub extern "C" fn caliperdock_sql(
    alloc: Global,
    text: &[u8],
    tokens: &mut [CToken],
    statements: &mut [CStatement],
    steps: &mut [CStep],
    errors: &mut [CError],
    texts: &mut [u8],
    counts: &mut CSqlCounts,
) -> CAnswer
    ensures written { result.status ≤ 1 → AreSqlWritten text.now tokens.old statements.old steps.old errors.old texts.old
        tokens.new statements.new steps.new errors.new texts.new counts.new }
    ensures place { result.status ≤ 1 → result.place ≡ 0 }
    ensures room { result.status ≡ 0 ↔ ((result.status ≤ 1)
        × HasSqlRoom tokens.old statements.old steps.old errors.old texts.old counts.new) }
    ensures refused { 2 ≤ result.status → (reason : Refusal) × RefusesSql IsRefusedByRules text.now reason × (result ≡ answer_of reason)
        × (counts.new ≡ no_sql_counts) × (tokens.new ≡ tokens.old) × (statements.new ≡ statements.old)
        × (steps.new ≡ steps.old) × (errors.new ≡ errors.old) × (texts.new ≡ texts.old) }
{
    match write_sql(alloc, text, tokens, statements, steps, errors, texts) {
        Ok(written) => {
            *counts = written;
            if written.fit(tokens, statements, steps, errors, texts) {
                CAnswer::done()
            } else {
                CAnswer::too_small()
            }
        }
        Err(refusal) => {
            *counts = CSqlCounts::none();
            CAnswer::refused(refusal)
        }
    }
}

/// The statements of a text of SQL alone, and how many there are. Their ends are those that `caliperdock_sql` tells, their
/// kinds are told by their first words.
#[unsafe(no_mangle)]
pub extern "C" fn caliperdock_statements(
    alloc: Global,
    text: &[u8],
    statements: &mut [CStatement],
    count: &mut u64,
) -> CAnswer
    ensures written { result.status ≤ 1 → AreStatementsWritten (AreOfSql Tokens) text.now statements.old statements.new count.new }
    ensures place { result.status ≤ 1 → result.place ≡ 0 }
    ensures room { result.status ≡ 0 ↔ ((result.status ≤ 1) × (count.new ≤ length statements.old)) }
    ensures refused { 2 ≤ result.status → (reason : Refusal) × RefusesSql (IsRefusedSql Tokens) text.now reason × (result ≡ answer_of reason)
        × (count.new ≡ 0) × (statements.new ≡ statements.old) }
{
    match write_cut(alloc, text, statements) {
        Ok(written) => {
            *count = written as u64;
            if written <= statements.len() {
                CAnswer::done()
            } else {
                CAnswer::too_small()
            }
        }
        Err(refusal) => {
            *count = 0;
            CAnswer::refused(refusal)
        }
    }
}

/// The next statements of a script, with the steps of their tree, and all errors: those that are sure to end in this text,
/// with which the script goes on from a place. As much is written as there is room for, and all is counted.
#[unsafe(no_mangle)]
pub extern "C" fn caliperdock_part(
    alloc: Global,
    text: &[u8],
    place: u32,
    last: u32,
    statements: &mut [CStatement],
    steps: &mut [CStep],
    errors: &mut [CError],
    texts: &mut [u8],
    counts: &mut CPartCounts,
) -> CAnswer
    ensures written { result.status ≤ 1 → IsPartWritten text.now place (is_told last) statements.old steps.old errors.old texts.old
        statements.new steps.new errors.new texts.new counts.new }
    ensures place { result.status ≤ 1 → result.place ≡ 0 }
    ensures room { result.status ≡ 0 ↔ ((result.status ≤ 1) × HasPartRoom statements.old steps.old errors.old texts.old counts.new) }
    ensures refused { 2 ≤ result.status → (reason : Refusal) × RefusesPart text.now place (is_told last) reason × (result ≡ answer_of reason)
        × (counts.new ≡ no_part place) × (statements.new ≡ statements.old)
        × (steps.new ≡ steps.old) × (errors.new ≡ errors.old) × (texts.new ≡ texts.old) }
{
    match write_part(
        alloc,
        text,
        place,
        is_told(last),
        statements,
        steps,
        errors,
        texts,
    ) {
        Ok(written) => {
            *counts = written;
            if written.fit(statements, steps, errors, texts) {
                CAnswer::done()
            } else {
                CAnswer::too_small()
            }
        }
        Err(refusal) => {
            *counts = CPartCounts::none(place);
            CAnswer::refused(refusal)
        }
    }
}
