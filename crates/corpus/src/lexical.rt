//! What is wanted in several lines of one word, as lexical errors are.

use crate::sections::Entry;
use squawk_parser::{LexError, LexedStr};
use std::alloc::{AllocError, Global};
use std::fmt::Write;

/// The lines of the errors of a table, as the program prints them.
pub fn error_lines(alloc: Global, table: &LexedStr<'_>) -> Result<String, AllocError> {
    let mut lines = String::new(alloc);
    for error in table.errors() {
        push_error(&mut lines, error)?;
    }
    Ok(lines)
}

fn push_error(lines: &mut String, error: &LexError) -> Result<(), AllocError> {
    let range = error.range();
    let (start, end) = (range.start, range.end);
    let message = error.message();
    write!(lines, "\n    lex {start}..{end} {message:?}")?;
    match error.hint() {
        Some(hint) => write!(lines, " {hint:?}"),
        None => Ok(()),
    }
}

/// The wanted lines of a word, of which `none` is none.
pub fn wanted_lines(alloc: Global, wanted: &[Entry<'_>], word: &str) -> Result<String, AllocError> {
    let mut lines = String::new(alloc);
    for entry in wanted {
        if entry.word == word && entry.value.as_str() != "none" {
            push_line(&mut lines, word, entry.value.as_str())?;
        }
    }
    Ok(lines)
}

/// Adds a line of a word.
pub fn push_line(lines: &mut String, word: &str, line: &str) -> Result<(), AllocError> {
    write!(lines, "\n    {word} {line}")
}
