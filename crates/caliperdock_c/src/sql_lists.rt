//! What is written of a text of SQL.
ghost use Rattle.std.specs.Prelude.{◌≡◌, ◌↔◌, IfOk, IfErr, IsTrue, OnErr, map};
ghost use Rattle.caliperdock_c.specs.Overlays.{over};
ghost use Rattle.caliperdock_c.specs.Sql.{AreOfSql, AreSqlWritten, AreStatementsWritten, HasSqlRoom, IsRefusedByRules, IsRefusedSql, RefusesSql, no_sql_counts};
ghost use Rattle.caliperdock_c.specs.Statements.{numbered_statement};
ghost use Rattle.caliperdock_c.specs.TokenNumbers.{number_of};

use crate::answer::Refusal;
use crate::errors::CError;
use crate::parsed::text_of;
use crate::sent::{CCounts, send};
use crate::sql::parse_sql;
use crate::statement::{CStatement, numbered_statement};
use crate::steps::CStep;
use crate::token::CToken;
use crate::token_numbers::number_of;
use sql_grammar::{Detail, stray_strings};
use sql_lexer::tokenize_script;
use sql_report::{Statement, statements};
use squawk_parser::Token;
use std::alloc::Global;

/// How many there are: raw tokens, statements, and what the counts of a walk say.
#[repr(C)]
#[derive(Clone, Copy)]
pub struct CSqlCounts {
    pub tokens: u64,
    pub statements: u64,
    pub sent: CCounts,
}

impl CSqlCounts {
    pub fn none() -> CSqlCounts
        ensures { result ≡ no_sql_counts }
    {
        CSqlCounts {
            tokens: 0,
            statements: 0,
            sent: CCounts::none(),
        }
    }

    /// Whether there is room for all.
    pub fn fit(
        &self,
        tokens: &[CToken],
        statements: &[CStatement],
        steps: &[CStep],
        errors: &[CError],
        texts: &[u8],
    ) -> bool
        ensures { IsTrue result ↔ HasSqlRoom tokens.now statements.now steps.now errors.now texts.now self.now }
    {
        self.tokens <= tokens.len() as u64
            && self.statements <= statements.len() as u64
            && self.sent.fit(steps, errors, texts)
    }
}

/// Writes all of a text of SQL, as far as there is room.
#[tactic(auto, using(crate::proofs::SqlReasons::of_bytes, crate::proofs::SqlReasons::of_lexer))]
pub fn write_sql(
    alloc: Global,
    text: &[u8],
    tokens: &mut [CToken],
    all_statements: &mut [CStatement],
    steps: &mut [CStep],
    errors: &mut [CError],
    texts: &mut [u8],
) -> Result<CSqlCounts, Refusal>
    ensures written { IfOk result (AreSqlWritten text.now tokens.old all_statements.old steps.old errors.old texts.old
        tokens.new all_statements.new steps.new errors.new texts.new) }
    ensures refused { IfErr result (RefusesSql IsRefusedByRules text.now) }
    ensures tokens_stay { OnErr result (tokens.new ≡ tokens.old) }
    ensures statements_stay { OnErr result (all_statements.new ≡ all_statements.old) }
    ensures steps_stay { OnErr result (steps.new ≡ steps.old) }
    ensures errors_stay { OnErr result (errors.new ≡ errors.old) }
    ensures texts_stay { OnErr result (texts.new ≡ texts.old) }
{
    let text = text_of(text)?;
    let found = tokenize_script(alloc, text)?;
    let strays = stray_strings(alloc, text, &found)?;
    let ready = sql_rules::rules();
    let rules = sql_rules::hiding(&ready, &strays);
    let sql = parse_sql(alloc, text, found, Detail::Nodes(&rules))?;
    let found = statements(alloc, &sql.parsed.table, &sql.parsed.output)?;
    let sent = send(
        alloc,
        &sql.parsed.table,
        &sql.parsed.output,
        steps,
        errors,
        texts,
    )?;
    write_tokens(tokens, &sql.tokens);
    write_statements(all_statements, &found);
    Ok(CSqlCounts {
        tokens: sql.tokens.len() as u64,
        statements: found.len() as u64,
        sent,
    })
}

/// Writes the statements of a text of SQL, as far as there is room. Returns how many there are.
#[tactic(auto, using(crate::proofs::SqlReasons::of_bytes, crate::proofs::SqlReasons::of_lexer))]
pub fn write_cut(alloc: Global, text: &[u8], room: &mut [CStatement]) -> Result<usize, Refusal>
    ensures written { IfOk result (AreStatementsWritten (AreOfSql Detail.Tokens) text.now room.old room.new) }
    ensures refused { IfErr result (RefusesSql (IsRefusedSql Detail.Tokens) text.now) }
    ensures stay { OnErr result (room.new ≡ room.old) }
{
    let text = text_of(text)?;
    let tokens = tokenize_script(alloc, text)?;
    let sql = parse_sql(alloc, text, tokens, Detail::Tokens)?;
    let found = statements(alloc, &sql.parsed.table, &sql.parsed.output)?;
    write_statements(room, &found);
    Ok(found.len())
}

/// Writes as many raw tokens as there is room for.
#[tactic(auto, using(crate::proofs::Overlays::over_more_map, crate::proofs::Overlays::over_all_map))]
fn write_tokens(room: &mut [CToken], tokens: &[Token])
    ensures { room.new ≡ over (map number_of tokens.now) room.old }
{
    let end = room.len().min(tokens.len());
    for i in 0..end {
        room[i] = number_of(&tokens[i]);
    }
}

/// Writes as many statements as there is room for.
#[tactic(auto, using(crate::proofs::Overlays::over_more_map, crate::proofs::Overlays::over_all_map))]
pub fn write_statements(room: &mut [CStatement], statements: &[Statement])
    ensures { room.new ≡ over (map numbered_statement statements.now) room.old }
{
    let end = room.len().min(statements.len());
    for i in 0..end {
        room[i] = numbered_statement(&statements[i]);
    }
}
