//! What errors say at each row.
use crate::called::{arms_in, choice_at, has_message, is_way, name_of, part, rule_of};
use crate::map::Map;
use rule_grammar::Part as Row;
use rule_parts::Part;
use std::alloc::{AllocError, Global};

/// Messages, one after another, and where each ends: one for each row.
#[derive(Drop)]
pub(crate) struct Messages {
    pub(crate) text: String,
    pub(crate) ends: Vec<usize>,
}

/// How many names a message has at most.
const MOST: usize = 6;

/// The rows of what is expected, in the order in which it may come: a token, a rule, or a list for its separator.
#[derive(Clone, Copy)]
struct Expected {
    rows: [usize; MOST],
    len: usize,
}

impl Messages {
    /// The messages at these rows, of these parts.
    pub(crate) fn new(
        alloc: Global,
        parts: &[Part<'_>],
        map: &Map<'_>,
    ) -> Result<Messages, AllocError> {
        let mut messages = Messages {
            text: String::new(alloc),
            ends: Vec::new(alloc),
        };
        for (row, part) in parts.iter().enumerate() {
            match part {
                Part::Token { .. } | Part::Rule { .. } => messages.add(parts, &only(row))?,
                Part::Optional { .. } | Part::Repeat { .. } => {
                    messages.add(parts, &expected_at(parts, map, row))?;
                }
                Part::Some { .. } | Part::List { .. } | Part::Choice { .. } => {
                    messages.add(parts, &expected_at(parts, map, row))?;
                }
                _ => {}
            }
            messages.ends.push(messages.text.len())?;
        }
        Ok(messages)
    }

    /// Adds the message that these are expected.
    fn add(&mut self, parts: &[Part<'_>], expected: &Expected) -> Result<(), AllocError> {
        self.text.push_str("expected ")?;
        for (index, row) in expected.rows.iter().take(expected.len).enumerate() {
            if index > 0 && index + 1 == expected.len {
                self.text.push_str(" or ")?;
            } else if index > 0 {
                self.text.push_str(", ")?;
            }
            self.text.push_str(name_at(parts, *row))?;
        }
        Ok(())
    }
}

/// What a token, a rule or the separator of a list is called.
fn name_at<'t>(parts: &[Part<'t>], row: usize) -> &'t str {
    let text = match parts.get(row) {
        Some(Part::Token { name }) => name.text,
        Some(Part::Rule { message, .. }) => message.text,
        Some(Part::List { separator, .. }) => separator.text,
        _ => "",
    };
    if text == "," { "a comma" } else { text }
}

impl Expected {
    const NOTHING: Expected = Expected {
        rows: [0; MOST],
        len: 0,
    };

    /// Adds a row, unless one with its name is there or there are enough. A choice is called as its rule.
    fn add(&mut self, parts: &[Part<'_>], map: &Map<'_>, row: usize) {
        let row = match part(map, row) {
            Row::Choice { .. } => rule_of(map, row),
            _ => row,
        };
        let name = name_at(parts, row);
        let is_new = !self
            .rows
            .iter()
            .take(self.len)
            .any(|one| name_at(parts, *one) == name);
        if is_new {
            if let Some(slot) = self.rows.get_mut(self.len) {
                *slot = row;
                self.len = self.len.saturating_add(1);
            }
        }
    }

    /// Adds what a row may begin with: the arms of a choice by themselves, if they aren't many.
    fn add_first(&mut self, parts: &[Part<'_>], map: &Map<'_>, row: usize) {
        let name = name_of(parts, map, row);
        match choice_at(map, row) {
            Some(choice) if !has_message(parts, name) && arms_in(map, choice) <= MOST => {
                self.add_arms(parts, map, choice);
            }
            _ => self.add(parts, map, name),
        }
    }

    fn add_arms(&mut self, parts: &[Part<'_>], map: &Map<'_>, choice: usize) {
        let mut arm = map.first(choice);
        for _ in 0..MOST {
            if let Some(row) = arm {
                self.add(parts, map, name_of(parts, map, row));
                arm = map.next(row, choice);
            }
        }
    }
}

fn only(row: usize) -> Expected {
    let mut expected = Expected::NOTHING;
    expected.rows[0] = row;
    expected.len = 1;
    expected
}

/// What may come where an optional part, a repeated one or a list may go on, up to what must come in its rule.
fn expected_at(parts: &[Part<'_>], map: &Map<'_>, row: usize) -> Expected {
    let mut expected = Expected::NOTHING;
    let mut at = row;
    for _ in 0..map.rows.len() {
        match part(map, at) {
            Row::List { .. } if at == row => expected.add(parts, map, at),
            Row::Optional { .. } | Row::Repeat { .. } => expected.add_first(parts, map, at),
            Row::Some { .. } if at == row => expected.add_first(parts, map, at),
            Row::Becomes { .. } | Row::Is { .. } => {}
            _ => {
                expected.add_first(parts, map, at);
                break;
            }
        }
        match after(parts, map, at, &mut expected) {
            Some(next) => at = next,
            None => break,
        }
    }
    expected
}

/// The row that comes after one in its rule, if there is one. What the rows around it may begin with again is expected,
/// too.
fn after(parts: &[Part<'_>], map: &Map<'_>, row: usize, expected: &mut Expected) -> Option<usize> {
    let mut at = row;
    for _ in 0..map.rows.len() {
        let outer = map.outer(at)?;
        let next = map.next(at, outer);
        if next.is_some() && !is_way(map, at) {
            return next;
        }
        match part(map, outer) {
            Row::Repeat { .. } | Row::Some { .. } => expected.add_first(parts, map, outer),
            Row::List { .. } => expected.add(parts, map, outer),
            Row::Operators { .. } => return None,
            _ => {}
        }
        at = outer;
    }
    None
}

/// The row of the message at a row.
pub(crate) fn row_of_message(parts: &[Part<'_>], map: &Map<'_>, row: usize) -> usize {
    match part(map, row) {
        Row::Optional { .. } | Row::Repeat { .. } | Row::Some { .. } | Row::List { .. } => row,
        Row::Choice { .. } if !has_message(parts, name_of(parts, map, row)) => row,
        _ => name_of(parts, map, row),
    }
}
