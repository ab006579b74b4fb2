//! Texts, with the trees that they have.

mod clauses;
mod commands;
mod cut;
mod files;
mod queries;
mod statements;

use sql_grammar::{Detail, SqlGrammar, stray_strings};
use sql_lexer::tokenize_script;
use sql_words::{names, vocabulary};
use squawk_parser::{
    EntryPoint, KindNames, OwnedStep, StepList, StepSink, Token, parse_whole_into,
};
use std::alloc::{AllocError, Global};
use std::fmt::Write;
use std::process::Abort;
use std::test::Fail;

/// Sends the tree of the text to a sink, by PostgreSQL's rules or by none.
fn send<S: StepSink<Refusal = AllocError>>(
    alloc: Global,
    text: &str,
    is_by_rules: bool,
    sink: &mut S,
) -> Result<(), Fail> {
    let tokens = tokenize_script(alloc, text)?;
    if !is_by_rules {
        return send_in(alloc, text, &tokens, Detail::Tokens, sink);
    }
    let strays = stray_strings(alloc, text, &tokens)?;
    let ready = sql_rules::rules();
    let rules = sql_rules::hiding(&ready, &strays);
    send_in(alloc, text, &tokens, Detail::Nodes(&rules), sink)
}

/// The same of a text with these raw tokens, in this detail.
fn send_in<S: StepSink<Refusal = AllocError>>(
    alloc: Global,
    text: &str,
    tokens: &[Token],
    detail: Detail<'_>,
    sink: &mut S,
) -> Result<(), Fail> {
    let keywords = vocabulary(alloc)?;
    let grammar = SqlGrammar { detail };
    let entry = EntryPoint::SourceFile;
    parse_whole_into(alloc, text, tokens, &keywords, &grammar, entry, sink)?;
    Ok(())
}

/// The line of steps that were sent: `LITERAL{1}` is a node with a token in it, and `!expected )!` an error.
fn line_of(alloc: Global, steps: &[OwnedStep]) -> Result<String, Fail> {
    let all_names = names(alloc)?;
    let mut kind_names = KindNames::new(alloc, &all_names);
    let mut line = String::new(alloc);
    for step in steps {
        match step {
            OwnedStep::Enter { kind } => {
                write!(line, "{}{{", kind_names.name(*kind).unwrap_or("?"))?
            }
            OwnedStep::Token { kind: _, text } => line.push_str(text.as_str())?,
            OwnedStep::Error { msg, pos: _ } => write!(line, "!{}!", msg.as_str())?,
            OwnedStep::Exit => line.push('}')?,
        }
    }
    Ok(line)
}

/// Texts, and what is in their files.
type Cases = &'static [(&'static str, &'static str)];

/// Parses each text by PostgreSQL's rules, and ends the test unless its file has these nodes.
fn assert_trees(rt: &(impl Abort + AllocGlobal), cases: Cases) -> Result<(), Fail> {
    assert_nodes(rt, true, cases)
}

/// The same by PostgreSQL's rules or by none.
fn assert_nodes(
    rt: &(impl Abort + AllocGlobal),
    is_by_rules: bool,
    cases: Cases,
) -> Result<(), Fail> {
    for (text, nodes) in cases {
        let mut list = StepList::new(rt.alloc());
        send(rt.alloc(), text, is_by_rules, &mut list)?;
        let line = line_of(rt.alloc(), list.steps())?;
        let wanted = format!(in rt.alloc(); "SOURCE_FILE{{{nodes}}}")?;
        assert_eq!(rt; line.as_str(), wanted.as_str(), "{text}");
    }
    Ok(())
}
