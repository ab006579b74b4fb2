//! The lines that came of a case.

use crate::given::Given;
use crate::limits::{is_refused_below, within};
use crate::looks::{look_line, stands_line};
use crate::parses::CaseGrammar;
use crate::report::line_of;
use crate::sections::Entry;
use crate::tokens::{input_line, range_line, raw_line, table_line};
use crate::trouble::{Trouble, malformed};
use row_fixtures::lexer::tokens_of;
use row_fixtures::output::written;
use row_fixtures::sent::sent_over_table;
use row_fixtures::tokens::table;
use squawk_parser::{Input, LexedStr, Output};
use std::alloc::{AllocError, Global};

/// What the calls of a case see.
#[derive(Clone, Copy)]
pub struct Seen<'c> {
    pub given: &'c Given<'c>,
    pub table: &'c LexedStr<'c>,
    pub input: &'c Input,
}

/// What the calls of a case gave: an output, of a grammar if it isn't the empty one.
#[derive(Clone, Copy)]
pub struct Parsed<'c> {
    pub grammar: Option<&'c CaseGrammar<'c>>,
    pub output: &'c Output,
}

/// The line of an entry's word as it came.
pub fn came(
    seen: &Seen<'_>,
    parsed: Option<Parsed<'_>>,
    entry: &Entry<'_>,
) -> Result<String, Trouble> {
    let alloc = seen.given.alloc;
    match (entry.word, parsed) {
        ("raw", _) => Ok(raw_line(alloc, seen.table)?),
        ("table", _) => Ok(table_line(alloc, seen.table)?),
        ("range", _) => range_line(alloc, seen.table, entry),
        ("input", _) => Ok(input_line(alloc, seen.input)?),
        ("look", _) => look_line(seen, entry),
        ("stands", _) => stands_line(seen, entry),
        (_, Some(parsed)) => came_of(seen, &parsed, entry),
        (_, None) => Err(malformed(entry.line, "this needs calls")),
    }
}

/// The same of a word that is of an output.
fn came_of(seen: &Seen<'_>, parsed: &Parsed<'_>, entry: &Entry<'_>) -> Result<String, Trouble> {
    let alloc = seen.given.alloc;
    let Parsed { grammar, output } = *parsed;
    match (entry.word, grammar) {
        ("tree", _) => Ok(format!(in alloc; "tree {}", sent(alloc, seen.table, output)?.as_str())?),
        ("unfit", _) => Ok(sent(alloc, seen.table, output)?),
        ("over", _) => over(alloc, entry, output),
        ("steps", _) => Ok(steps(alloc, output)?),
        ("refused", _) => Ok(String::from_str(alloc, "no refusal")?),
        ("turns", _) => count(alloc, entry, output.turns()),
        ("recorded", None) => count(alloc, entry, u64::from(output.recorded())),
        ("recorded", Some(grammar)) => recorded(alloc, seen.input, grammar, output, entry),
        ("within", Some(grammar)) => within(alloc, grammar, seen.input, entry),
        _ => Err(malformed(entry.line, "nothing like this is wanted")),
    }
}

/// The line of how many events a grammar recorded, if no lower limits are enough.
fn recorded(
    alloc: Global,
    input: &Input,
    grammar: &CaseGrammar<'_>,
    output: &Output,
    entry: &Entry<'_>,
) -> Result<String, Trouble> {
    let recorded = output.recorded();
    if is_refused_below(alloc, grammar, input, output)? {
        count(alloc, entry, u64::from(recorded))
    } else {
        Ok(format!(in alloc; "recorded {recorded}, and otherwise within limits")?)
    }
}

/// What is sent of an output over a table, if it fits.
fn sent(alloc: Global, table: &LexedStr<'_>, output: &Output) -> Result<String, AllocError> {
    match sent_over_table(alloc, table, output)? {
        None => String::from_str(alloc, "unfit"),
        Some(sent) if sent.is_given => Ok(sent.line),
        Some(sent) => format!(in alloc; "{}, and other steps one by one", sent.line.as_str()),
    }
}

/// The line of what is sent of an output over another text.
fn over(alloc: Global, entry: &Entry<'_>, output: &Output) -> Result<String, Trouble> {
    let (text, _) = entry.in_bars()?;
    let tokens = tokens_of(alloc, text)?;
    match table(alloc, text, &tokens) {
        Ok(table) => Ok(format!(in alloc;
            "over |{text}| {}",
            sent(alloc, &table, output)?.as_str()
        )?),
        Err(_) => Err(malformed(entry.line, "the small lexer can't cut this text")),
    }
}

/// The line of the steps of an output.
fn steps(alloc: Global, output: &Output) -> Result<String, AllocError> {
    let steps = written(alloc, output)?;
    if steps.is_counted {
        line_of(alloc, "steps", steps.line.as_str())
    } else {
        String::from_str(alloc, "steps that are counted otherwise")
    }
}

/// The line of a number, which is written as the sum is that is wanted where it is that.
fn count(alloc: Global, entry: &Entry<'_>, came: u64) -> Result<String, Trouble> {
    let mut sum = 0u64;
    for part in entry.value.split(" + ") {
        match part.parse::<u64>() {
            Ok(number) => sum = sum.saturating_add(number),
            Err(_) => return Err(malformed(entry.line, "a sum of numbers is wanted")),
        }
    }
    if sum == came {
        Ok(line_of(alloc, entry.word, entry.value.as_str())?)
    } else {
        let word = entry.word;
        Ok(format!(in alloc; "{word} {came}")?)
    }
}
