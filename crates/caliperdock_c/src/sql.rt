//! From a text of SQL to a table and an output over it.
ghost use Rattle.std.specs.Prelude.{◌≡◌, ◌≤◌, length, IfOk, IfErr};
ghost use Rattle.std.specs.Str.{chars};
ghost use Rattle.squawk_output.specs.Steps.{errors_in};
ghost use Rattle.squawk_table.specs.Sent.{sent_list, texts_of};
ghost use Rattle.squawk_table.specs.Shape.{Fits};
ghost use Rattle.squawk_tokens.specs.AcceptedTokens.{AreAcceptedTokens};
ghost use Rattle.sql_lexer.specs.Scripts.{script_tokens};
ghost use Rattle.caliperdock_c.specs.Sql.{AreOfSql, IsRefusedSql, RefusesSql};

use crate::answer::Refusal;
use crate::parsed::Parsed;
use sql_grammar::{Detail, parse_table};
use sql_words::vocabulary;
use squawk_parser::{LexedStr, Token};
use std::alloc::Global;

/// The raw tokens of a text of SQL, its table, and the output of its parse.
#[derive(Drop)]
pub struct Sql<'t> {
    pub tokens: Vec<Token>,
    pub parsed: Parsed<'t>,
}

/// The parse of a text of SQL, which has these raw tokens.
#[tactic(auto, using(crate::proofs::SqlReasons::of_parse))]
pub fn parse_sql<'t>(
    alloc: Global,
    text: &'t str,
    tokens: Vec<Token>,
    detail: Detail<'_>,
) -> Result<Sql<'t>, Refusal>
    requires accepted { AreAcceptedTokens text.now tokens.items }
    requires tokens { tokens.items ≡ script_tokens text.now }
    ensures tokens { IfOk result (λ sql. sql.tokens.items ≡ script_tokens text.now) }
    ensures steps { IfOk result (λ sql. AreOfSql detail.entry text.now sql.parsed.table sql.parsed.output.steps) }
    ensures fits { IfOk result (λ sql. Fits sql.parsed.table sql.parsed.output.steps) }
    ensures whole { IfOk result (λ sql. texts_of (sent_list sql.parsed.table sql.parsed.output.steps) ≡ chars text.now) }
    ensures few { IfOk result (λ sql. length sql.parsed.output.steps ≤ 4294967295) }
    ensures errors { IfOk result (λ sql. errors_in sql.parsed.output.steps ≤ 2147483648) }
    ensures short { IfOk result (λ sql. length sql.parsed.table.text ≤ 4294967295) }
    ensures refused { IfErr result (RefusesSql (IsRefusedSql detail.entry) text.now) }
{
    let vocabulary = vocabulary(alloc)?;
    let table = LexedStr::from_accepted(alloc, text, &tokens, &vocabulary)?;
    let output = parse_table(alloc, &table, &vocabulary, detail)?;
    Ok(Sql {
        tokens,
        parsed: Parsed { table, output },
    })
}
