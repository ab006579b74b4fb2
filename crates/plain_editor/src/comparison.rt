//! One script, run by the engine and by the editor.

use crate::counts::Counts;
use crate::draft::Draft;
use crate::editor::edit;
use crate::generator::{Random, Sample};
use crate::nested::lines_of_nested;
use crate::source::Source;
use crate::trees::lines_of_tree;
use crate::trivia::{Sent, send, stands_in_one_root};
use crate::words::{NAMES, words};
use row_fixtures::keywords::KEYWORDS;
use row_fixtures::sent::sent_over_table;
use squawk_parser::{EntryPoint, LexedStr, Output, Step};
use squawk_script::{Script, ScriptError};
use std::alloc::{AllocError, Global};
use std::fmt::Display;

/// An output, and what is sent of it if it fits the text.
#[derive(Debug, PartialEq, Drop)]
struct Answer<'a> {
    steps: Vec<Step<'a>>,
    recorded: u64,
    turns: u64,
    stands_in_one_root: bool,
    sent: Option<Sent<'a>>,
    /// What is read of the tree of what is sent, a line for each element.
    tree: Option<String>,
    /// Whether the same is sent to a list as one by one.
    is_listed: bool,
}

/// An answer, or the line of a refusal.
type Told<'a> = Result<Answer<'a>, String>;

/// Runs the next sample, and tells it in full with both answers if they differ.
pub fn compare(
    alloc: Global,
    random: &mut Random,
    counts: &mut Counts,
) -> Result<Option<String>, AllocError> {
    let mut again = *random;
    let sample = Sample::new(alloc, random)?;
    let source = Source::new(alloc, &sample.pieces)?;
    let draft = edit(
        alloc,
        &source.tokens,
        words(sample.operators, &NAMES),
        &sample.calls,
    )?;
    counts.note(&sample.calls, &draft);
    let told = edited(alloc, &source, &draft)?;
    let Sample {
        operators,
        calls,
        ..
    } = sample;
    let script = Script::new(alloc, calls, words(operators, &NAMES));
    match judge(alloc, &source, script, &told)? {
        None => Ok(None),
        Some(difference) => {
            let sample = Sample::new(alloc, &mut again)?;
            Ok(Some(format!(in alloc; "{sample}\n{}", difference.as_str())?))
        }
    }
}

/// How the engine's answer differs from the editor's.
fn judge(
    alloc: Global,
    source: &Source,
    script: Result<Script<'_>, ScriptError>,
    edited: &Told<'_>,
) -> Result<Option<String>, AllocError> {
    let table = match LexedStr::new(alloc, source.text.as_str(), &source.raw_tokens, &KEYWORDS) {
        Ok(table) => table,
        Err(error) => return refused(alloc, error, edited),
    };
    let input = table.to_input(alloc, &KEYWORDS)?;
    let script = match script {
        Ok(script) => script,
        Err(error) => return refused(alloc, error, edited),
    };
    match EntryPoint::SourceFile.parse(alloc, &input, &script) {
        Ok(output) => {
            let answer = parsed(alloc, source.text.as_str(), &table, &output)?;
            difference(alloc, &Ok(answer), edited)
        }
        Err(error) => refused(alloc, error, edited),
    }
}

fn refused<E: Display + Drop>(
    alloc: Global,
    error: E,
    edited: &Told<'_>,
) -> Result<Option<String>, AllocError> {
    difference(alloc, &Err(format!(in alloc; "{error}")?), edited)
}

fn difference(
    alloc: Global,
    engine: &Told<'_>,
    editor: &Told<'_>,
) -> Result<Option<String>, AllocError> {
    if engine == editor {
        return Ok(None);
    }
    Ok(Some(format!(in alloc; "engine {engine:?}\neditor {editor:?}\n")?))
}

/// The answer of the engine.
fn parsed<'a>(
    alloc: Global,
    text: &str,
    table: &'a LexedStr<'a>,
    output: &'a Output,
) -> Result<Answer<'a>, AllocError> {
    let list = sent_over_table(alloc, table, output)?;
    let sent = walked(alloc, table, output)?;
    let tree = match &sent {
        Some(sent) => lines_of_tree(alloc, text, &sent.steps)?,
        None => None,
    };
    Ok(Answer {
        steps: output.iter().collect(alloc)?,
        recorded: u64::from(output.recorded()),
        turns: output.turns(),
        stands_in_one_root: output.stands_in_one_root(),
        sent,
        tree,
        is_listed: list.is_none_or(|list| list.is_given),
    })
}

/// What is sent one by one, if the output fits.
fn walked<'a>(
    alloc: Global,
    table: &'a LexedStr<'a>,
    output: &'a Output,
) -> Result<Option<Sent<'a>>, AllocError> {
    if !table.fits(output) {
        return Ok(None);
    }
    let mut walk = table.str_steps(output);
    let steps = walk.by_ref().collect(alloc)?;
    let is_whole = walk.eaten_all();
    Ok(Some(Sent { steps, is_whole }))
}

/// The answer of the editor.
fn edited<'a>(
    alloc: Global,
    source: &'a Source,
    draft: &'a Result<Draft, ScriptError>,
) -> Result<Told<'a>, AllocError> {
    let draft = match draft {
        Ok(draft) => draft,
        Err(error) => return Ok(Err(format!(in alloc; "{error}")?)),
    };
    let items = draft.items.as_slice();
    let is_root = stands_in_one_root(items);
    let sent = if is_root {
        Some(send(alloc, source, items)?)
    } else {
        None
    };
    let tree = match &sent {
        Some(sent) => Some(lines_of_nested(alloc, &sent.steps)?),
        None => None,
    };
    Ok(Ok(Answer {
        steps: items.iter().filter_map(|item| item.step()).collect(alloc)?,
        recorded: draft.recorded,
        turns: draft.turns,
        stands_in_one_root: is_root,
        sent,
        tree,
        is_listed: true,
    }))
}
