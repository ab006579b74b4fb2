//! The alternatives of a rule, and its operators, a level a line.
ghost use Rattle.std.specs.Prelude.{◌≡◌, ◌+◌, ◌^◌, ◌<◌, ◌≤◌, false, length, IfErr, IfSome, OnOk};
ghost use Rattle.rule_text.specs.Reading.{Caused, Decides, IsMissed, Operates};
ghost use Rattle.rule_text.specs.Rules.{Body, MoreOperators, Operator, first_level, floor_of, is_level, next_level};
ghost use Rattle.rule_text.specs.Written.{is_end};

use crate::error::WordError;
use crate::expression::{alternative, arm, arms, begins_guard, items, ordered_by};
use crate::reader::Reader;
use crate::word::Sort;
use rule_parts::{Association, Part};

/// How deep parentheses and braces may be nested in rules.
pub const NESTED: u32 = 100;

/// A level of operators.
#[derive(Clone, Copy)]
pub(crate) struct Level {
    number: usize,
    association: Association,
}

/// Alternatives, and operators after them.
pub(crate) fn body(reader: &mut Reader<'_, '_>) -> Result<(), WordError>
    requires { 0 < reader.old.at }
    ensures { Decides Body reader.old reader.new result }
{
    let start = reader.len();
    let guarded = begins_guard(reader.sort());
    alternative(reader, 0, NESTED, true)?;
    let Some(ordered) = ordered_by(reader) else {
        if !is_level(reader.sort()) {
            if guarded {
                return Err(reader.expected("| or /"));
            }
            return Ok(());
        }
        let size = reader.size_from(start);
        reader.wrap(start, Part::Arm { size })?;
        return operators(reader, start);
    };
    let size = reader.size_from(start);
    reader.wrap(start, Part::Arm { size })?;
    arms(reader, 0, NESTED, true, ordered)?;
    if !is_level(reader.sort()) {
        let size = reader.size_from(start);
        return reader.wrap(start, Part::Choice { size, ordered });
    }
    if ordered {
        return Err(reader.expected("no operators after /"));
    }
    operators(reader, start)
}

/// Operators, after the operands from `start` on.
fn operators(reader: &mut Reader<'_, '_>, start: usize) -> Result<(), WordError>
    requires before { start ≤ length reader.old.parts.items }
    requires later { 0 < reader.old.at }
    ensures reads { OnOk result (Operates start reader.old reader.new) }
    ensures refuses { IfErr result (Caused (IsMissed (MoreOperators first_level) reader.old.words.now reader.old.at)) }
{
    levels(reader)?;
    let size = reader.size_from(start);
    reader.wrap(start, Part::Operators { size })
}

/// Whether a word begins a level of operators.
fn is_level(sort: Sort) -> bool
    ensures { result ≡ is_level sort }
{
    matches!(sort, Sort::Left | Sort::Right | Sort::Neither)
}

/// Operators, from the lowest level to the highest.
fn levels(reader: &mut Reader<'_, '_>) -> Result<(), WordError>
    requires { 0 < reader.old.at }
    ensures { Decides (MoreOperators first_level) reader.old reader.new result }
{
    let mut level = Level {
        number: 0,
        association: Association::Neither,
    };
    while let Some(next) = next_level(reader.sort(), level) {
        reader.bump();
        operator(reader, next)?;
        level = next;
    }
    Ok(())
}

/// The level of the operator after a word.
fn next_level(sort: Sort, level: Level) -> Option<Level>
    requires { level.number + 1 < 2 ^ 64 }
    ensures is { result ≡ next_level sort level }
    ensures some { IfSome result (λ _. is_end sort ≡ false) }
{
    let association = match sort {
        Sort::Left => Association::Left,
        Sort::Right => Association::Right,
        Sort::Neither => Association::Neither,
        Sort::Or => return Some(level),
        _ => return None,
    };
    Some(Level {
        number: level.number + 1,
        association,
    })
}

/// An operator: after its first operand, or in front of it.
fn operator(reader: &mut Reader<'_, '_>, level: Level) -> Result<(), WordError>
    requires { level.number + 1 < 2 ^ 64 }
    ensures { Decides (Operator level) reader.old reader.new result }
{
    let floor = floor_of(level);
    if !reader.is_at(Sort::Operand) {
        return arm(reader, floor, NESTED, true);
    }
    reader.bump();
    let start = reader.len();
    items(reader, floor, NESTED)?;
    let size = reader.size_from(start);
    let tail = Part::Tail {
        level: level.number,
        association: level.association,
        size,
    };
    reader.wrap(start, tail)
}

/// The level that operators in an operand have at least.
fn floor_of(level: Level) -> usize
    requires { level.number + 1 < 2 ^ 64 }
    ensures { result ≡ floor_of level }
{
    match level.association {
        Association::Right => level.number,
        _ => level.number + 1,
    }
}
