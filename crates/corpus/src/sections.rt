//! The cases of a file.
//!
//! ```text
//! # Lines that begin with this sign are comments, and empty lines count for nothing.
//! == the name of a case
//! text |x |
//! calls start, start, bump_any, complete 1 NAME,
//!     error e, complete 0 ROOT
//! ---
//! tree ROOT(NAME(x !'e'@1) _)
//! ```
//!
//! A line is a word and what stands behind it. One that begins with four spaces goes on the line before it.
//! Pieces that are repeated may be written once (`repeats`).

use crate::repeats::push_repeated;
use crate::trouble::{Trouble, malformed};
use std::alloc::{AllocError, Global};

/// A line of a case.
#[derive(Drop)]
pub struct Entry<'f> {
    /// Its place in the file, from 1.
    pub line: usize,
    pub word: &'f str,
    pub value: String,
}

impl<'f> Entry<'f> {
    /// The text between two bars, and what stands behind it.
    pub fn in_bars(&self) -> Result<(&str, &str), Trouble> {
        match self
            .value
            .strip_prefix('|')
            .and_then(|rest| rest.rsplit_once('|'))
        {
            Some(pieces) => Ok(pieces),
            None => Err(malformed(self.line, "a text stands between two bars")),
        }
    }
}

#[derive(Drop)]
pub struct Case<'f> {
    pub line: usize,
    pub name: &'f str,
    /// The lines before the dashes.
    pub given: Vec<Entry<'f>>,
    /// Those behind them.
    pub wanted: Vec<Entry<'f>>,
    has_dashes: bool,
}

/// The cases of the text of a file.
pub fn cases_of(alloc: Global, text: &str) -> Result<Vec<Case<'_>>, Trouble> {
    let mut cases = Vec::new(alloc);
    for (i, line) in text.lines().enumerate() {
        add_line(alloc, &mut cases, i.saturating_add(1), line)?;
    }
    Ok(cases)
}

/// Adds a line of a file to its cases.
fn add_line<'f>(
    alloc: Global,
    cases: &mut Vec<Case<'f>>,
    number: usize,
    line: &'f str,
) -> Result<(), Trouble> {
    if line.is_empty() || line.starts_with('#') {
        return Ok(());
    }
    if let Some(name) = line.strip_prefix("== ") {
        cases
            .push(Case::new(alloc, number, name))
            .map_err(AllocError::from)?;
        return Ok(());
    }
    match cases.last_mut() {
        Some(case) => case.add_line(alloc, number, line),
        None => Err(malformed(number, "no case begins before this line")),
    }
}

impl<'f> Case<'f> {
    fn new(alloc: Global, line: usize, name: &'f str) -> Case<'f> {
        Case {
            line,
            name,
            given: Vec::new(alloc),
            wanted: Vec::new(alloc),
            has_dashes: false,
        }
    }

    /// Whether a line of this word is wanted.
    pub fn wants(&self, word: &str) -> bool {
        self.wanted.iter().any(|entry| entry.word == word)
    }

    fn add_line(&mut self, alloc: Global, number: usize, line: &'f str) -> Result<(), Trouble> {
        if line == "---" {
            if self.has_dashes {
                return Err(malformed(number, "a case has one line of dashes"));
            }
            self.has_dashes = true;
            return Ok(());
        }
        if self.has_dashes {
            add_to(alloc, &mut self.wanted, number, line)
        } else {
            add_to(alloc, &mut self.given, number, line)
        }
    }
}

/// Adds a line to the entries.
fn add_to<'f>(
    alloc: Global,
    entries: &mut Vec<Entry<'f>>,
    number: usize,
    line: &'f str,
) -> Result<(), Trouble> {
    match line.strip_prefix("    ") {
        Some(rest) => go_on(entries, number, rest),
        None => Ok(add_entry(alloc, entries, number, line)?),
    }
}

fn add_entry<'f>(
    alloc: Global,
    entries: &mut Vec<Entry<'f>>,
    line: usize,
    text: &'f str,
) -> Result<(), AllocError> {
    let (word, rest) = text.split_once(' ').unwrap_or((text, ""));
    let mut value = String::new(alloc);
    push_repeated(&mut value, rest)?;
    entries.push(Entry { line, word, value })?;
    Ok(())
}

/// Puts a space and the rest of a line behind the last entry.
fn go_on(entries: &mut Vec<Entry<'_>>, line: usize, rest: &str) -> Result<(), Trouble> {
    let Some(entry) = entries.last_mut() else {
        return Err(malformed(line, "no line to go on"));
    };
    entry.value.push(' ')?;
    push_repeated(&mut entry.value, rest)?;
    Ok(())
}
