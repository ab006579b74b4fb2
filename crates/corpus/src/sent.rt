//! Steps as they are sent, and what a list and a tree make of them.
//!
//! `sent enter ROOT`, `sent token IDENT "a"`, `sent error 1 "e"` and `sent exit` are steps; `sent` alone is
//! none.

use crate::lexical::push_line;
use crate::looks::kind;
use crate::sections::Entry;
use crate::trouble::{Trouble, json_trouble, malformed};
use squawk_document::value;
use squawk_parser::{LexedStr, Output, OwnedStep, StepSink, StrStep, SyntaxKind, Text};
use squawk_tree::TreeText;
use std::alloc::{AllocError, Global};

/// Adds the step of a line.
pub fn push_step(
    alloc: Global,
    steps: &mut Vec<OwnedStep>,
    entry: &Entry<'_>,
) -> Result<(), Trouble> {
    let step = match entry.value.as_str() {
        "" => return Ok(()),
        "exit" => OwnedStep::Exit,
        words => step_of(alloc, words, entry.line)?,
    };
    steps.push(step).map_err(AllocError::from)?;
    Ok(())
}

fn step_of(alloc: Global, words: &str, line: usize) -> Result<OwnedStep, Trouble> {
    let (word, rest) = words.split_once(' ').unwrap_or((words, ""));
    let (first, text) = rest.split_once(' ').unwrap_or((rest, ""));
    match (word, kind(first), first.parse::<usize>()) {
        ("enter", Some(kind), _) => Ok(OwnedStep::Enter { kind }),
        ("token", Some(kind), _) => {
            let text = text_of(alloc, text, line)?;
            Ok(OwnedStep::Token { kind, text })
        }
        ("error", _, Ok(pos)) => {
            let msg = text_of(alloc, text, line)?;
            Ok(OwnedStep::Error { msg, pos })
        }
        _ => Err(malformed(line, "this is no step")),
    }
}

/// The text that JSON says.
fn text_of(alloc: Global, json: &str, line: usize) -> Result<Text, Trouble> {
    let what = "a text stands in quotes";
    let value = match value::parse(alloc, json.as_bytes()) {
        Ok(value) => value,
        Err(error) => return Err(json_trouble(error, line, what)),
    };
    match value::string(&value) {
        Ok(text) => Ok(Text::new(String::from_str(alloc, text)?)),
        Err(error) => Err(json_trouble(error, line, what)),
    }
}

/// The lines of a tree that is sent the steps.
pub fn shown(
    alloc: Global,
    steps: &[OwnedStep],
    names: &[(SyntaxKind, &str)],
) -> Result<String, AllocError> {
    let mut tree = TreeText::new(alloc);
    for step in steps {
        match step {
            OwnedStep::Token { kind, text } => tree.step(StrStep::Token {
                kind: *kind,
                text: text.as_str(),
            })?,
            OwnedStep::Enter { kind } => tree.step(StrStep::Enter { kind: *kind })?,
            OwnedStep::Exit => tree.step(StrStep::Exit)?,
            OwnedStep::Error { msg, pos } => tree.step(StrStep::Error {
                msg: msg.as_str(),
                pos: *pos,
            })?,
        }
    }
    lines_of(alloc, &tree, names)
}

/// The lines of a tree that is sent an output over a table.
pub fn shown_over(
    alloc: Global,
    table: &LexedStr<'_>,
    output: &Output,
    names: &[(SyntaxKind, &str)],
) -> Result<String, AllocError> {
    let mut tree = TreeText::new(alloc);
    if table.fits(output) {
        table.intersperse_trivia(output, &mut tree)?;
    }
    lines_of(alloc, &tree, names)
}

fn lines_of(
    alloc: Global,
    tree: &TreeText,
    names: &[(SyntaxKind, &str)],
) -> Result<String, AllocError> {
    let text = tree.finish(alloc, names)?;
    let mut lines = String::new(alloc);
    for line in text.lines() {
        push_line(&mut lines, "shown", line)?;
    }
    Ok(lines)
}
