//! The kinds of raw tokens, and of those that a parser sees, as lines.

ghost use Rattle.std.specs.Prelude.{◌<◌, length};

use crate::sections::Entry;
use crate::trouble::{Trouble, malformed};
use row_fixtures::lines::push_kind;
use squawk_parser::{Input, LexedStr};
use std::alloc::{AllocError, Global};
use std::fmt::Write;
use std::ops::Range;

/// The line of the syntax kinds of raw tokens, as `raw IDENT WHITESPACE 44`.
pub fn raw_line(alloc: Global, table: &LexedStr<'_>) -> Result<String, AllocError> {
    let mut line = String::from_str(alloc, "raw")?;
    for i in 0..table.len() {
        line.push(' ')?;
        push_kind(&mut line, table.kind(i))?;
    }
    Ok(line)
}

/// The line of the raw tokens with their places and texts, and of where the text ends, as
/// `table IDENT@0..1'a' WHITESPACE@1..2' ' 2`.
pub fn table_line(alloc: Global, table: &LexedStr<'_>) -> Result<String, AllocError> {
    let mut line = String::from_str(alloc, "table")?;
    for i in 0..table.len() {
        push_token(&mut line, table, i)?;
    }
    let end = table.text_start(table.len());
    write!(line, " {end}")?;
    Ok(line)
}

fn push_token(line: &mut String, table: &LexedStr<'_>, i: usize) -> Result<(), AllocError>
    requires { i < length table.now.kinds }
{
    let Range { start, end } = table.text_range(i);
    line.push(' ')?;
    push_kind(line, table.kind(i))?;
    write!(line, "@{start}..{end}'{}'", table.text(i).escape_debug())
}

/// The line of the text of some raw tokens, as `range 1 3 |a b|`, which are named in the wanted line.
pub fn range_line(
    alloc: Global,
    table: &LexedStr<'_>,
    entry: &Entry<'_>,
) -> Result<String, Trouble> {
    let mut words = entry.value.split(' ').map(|word| word.parse::<usize>());
    let (Some(Ok(start)), Some(Ok(end))) = (words.next(), words.next()) else {
        return Err(malformed(entry.line, "a range is two numbers"));
    };
    if start >= end || end > table.len() {
        return Err(malformed(entry.line, "these raw tokens are not there"));
    }
    let text = table.range_text(start..end);
    Ok(format!(in alloc; "range {start} {end} |{text}|")?)
}

/// Adds the kinds at a place of the input, and `+` if the token is joint with the next.
fn push_seen(line: &mut String, input: &Input, i: usize) -> Result<(), AllocError> {
    line.push(' ')?;
    push_kind(line, input.kind(i))?;
    line.push('/')?;
    push_kind(line, input.contextual_kind(i))?;
    if i < input.len() && input.is_joint(i) {
        line.push('+')?;
    }
    Ok(())
}

/// The line of the tokens that a parser sees, with the end and what lies far behind it.
pub fn input_line(alloc: Global, input: &Input) -> Result<String, AllocError> {
    let mut line = String::from_str(alloc, "input")?;
    for i in 0..=input.len() {
        push_seen(&mut line, input, i)?;
    }
    push_seen(&mut line, input, usize::MAX)?;
    Ok(line)
}
