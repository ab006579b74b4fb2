//! The numbers of rows.
ghost use Rattle.std.specs.Prelude.{◌≡◌, ◌<◌, ◌%◌, All, IfErr, IfOk, IsTrue, OnOk, Some, length, slice_get, slice_index};
ghost use Rattle.rule_grammar.specs.Parts.{part_by, part_of};
ghost use Rattle.rule_tables.specs.Forks.{AreDecided, IsDecidedWay, IsFirstOpen, IsOpenAt, IsOpenBy};
ghost use Rattle.rule_tables.specs.Limits.{IsLimit, IsUndecidedIf};
ghost use Rattle.rule_tables.specs.Sets.{Extends};
ghost use Rattle.rule_tables.specs.Strands.{IsElsewhere, IsToldAt};
ghost use Rattle.rule_tables.specs.Rows.{SayRows, is_exact, tail_tag};
ghost use Rattle.rule_tables.specs.Walks.{plan_of};

use crate::eats::kinds_at;
use crate::error::RulesError;
use crate::follow::Ahead;
use crate::looks::{Fork, Looks};
use crate::map::Map;
use crate::messages::row_of_message;
use crate::place::Place;
use crate::sets::push;
use crate::strands::Open;
use rule_grammar::Part as Row;
use rule_parts::Part;
use squawk_kinds::TokenSet;

/// The numbers of all rows.
pub(crate) fn all_numbers(
    looks: &mut Looks,
    map: &Map<'_>,
    parts: &[Part<'_>],
    ahead: &[Ahead],
) -> Result<Vec<[u16; 8]>, RulesError>
    requires { All (λ row. IsTrue (is_exact row)) map.now.rows.now }
    ensures err { IfErr result (IsFirstOpen (plan_of map.now) parts.now) }
    ensures decided { OnOk result (AreDecided (plan_of map.now) parts.now (length map.now.rows.now)) }
    ensures keeps { OnOk result (Extends looks.old.sets.list.items looks.new.sets.list.items) }
    ensures ok { IfOk result (λ numbers. SayRows map.now.rows.now numbers.items) }
{
    let undecided = looks.decide_all(parts, map)?;
    let mut numbers = Vec::new(looks.alloc);
    for (index, row) in map.rows.iter().enumerate() {
        let fork = Fork {
            map: &*map,
            parts: &*parts,
            part: index,
        };
        refuse(&undecided, index)?;
        let message = to_u16(row_of_message(parts, map, index));
        let numbers_of_row = numbers_of(looks, &fork, ahead, row, message)?;
        push(&mut numbers, numbers_of_row)?;
    }
    Ok(numbers)
}

/// Refuses a row if it is the one that is undecided.
fn refuse(undecided: &Option<Open>, row: usize) -> Result<(), RulesError>
    ensures err { IfErr result (IsToldAt undecided.now row) }
    ensures ok { OnOk result (IsElsewhere undecided.now row) }
{
    match undecided {
        Some(open) => {
            if open.row == row {
                let kinds = open.kinds;
                Err(RulesError::Undecided { part: row, kinds })
            } else {
                Ok(())
            }
        }
        None => Ok(()),
    }
}

fn to_u16(number: usize) -> u16 {
    u16::try_from(number).unwrap_or(u16::MAX)
}

/// The numbers of a row.
#[tactic(auto, using(crate::proofs::Limited::limit_if))]
fn numbers_of(
    looks: &mut Looks,
    fork: &Fork<'_, '_>,
    ahead: &[Ahead],
    row: &Row,
    message: u16,
) -> Result<[u16; 8], RulesError>
    requires exact { IsTrue (is_exact row.now) }
    requires way { IsDecidedWay (plan_of fork.now.map.now) fork.now.parts.now fork.now.part row.now }
    requires row { slice_get fork.now.map.now.rows.now fork.now.part ≡ Some row.now }
    ensures err { IfErr result (IsUndecidedIf (IsOpenBy fork.now row.now) fork.now.part) }
    ensures decided { OnOk result (IsOpenAt fork.now row.now → ⊥) }
    ensures keeps { OnOk result (Extends looks.old.sets.list.items looks.new.sets.list.items) }
    ensures ok { IfOk result (λ numbers. part_of numbers ≡ row.now) }
{
    let known = match ahead.get(fork.part) {
        Some(known) => *known,
        None => Ahead::NOTHING,
    };
    let [part, end, number] = part_numbers(row);
    let begins = begins(looks, fork, &known, row)?;
    let begins = looks.sets.number(begins)?;
    let follows = looks.sets.number(known.follows)?;
    let later = looks.sets.number(later(&known, row))?;
    let look = look(looks, fork, &known, row)?;
    let part = flagged(part, known.ends, has_guard(fork, row), is_named(fork, row));
    Ok([part, end, number, begins, follows, later, look, message])
}

/// The number 0 of a row: 256 more if the rule may end after it, 512 more if it is an arm with a guard or look, and
/// 1024 more if it is a node and the last part in it names its kind.
fn flagged(part: u16, ends: bool, has_guard: bool, is_named: bool) -> u16
    requires { part < 22 }
    ensures { result % 256 ≡ part }
{
    let ends = if ends { 256 } else { 0 };
    let kept = match (has_guard, is_named) {
        (false, false) => 0,
        (true, false) => 512,
        (_, true) => 1024,
    };
    part + ends + kept
}

fn has_guard(fork: &Fork<'_, '_>, row: &Row) -> bool {
    match row {
        Row::Arm { .. } => {
            let first = fork.map.rows.get(fork.part.saturating_add(1));
            matches!(first, Some(Row::Guard { .. } | Row::Look { .. }))
        }
        _ => false,
    }
}

/// Whether the last part in a node names its kind.
fn is_named(fork: &Fork<'_, '_>, row: &Row) -> bool {
    match row {
        Row::Node { end, .. } => {
            let last = usize::from(*end).saturating_sub(1);
            matches!(fork.map.rows.get(last), Some(Row::Becomes { .. }))
                && fork.map.outer(last) == Some(fork.part)
        }
        _ => false,
    }
}

/// The further kinds at which the rule goes on. Where a part may be left out, an item may come whose separator is
/// forgotten.
fn later(known: &Ahead, row: &Row) -> TokenSet {
    match row {
        Row::Optional { .. } | Row::Repeat { .. } | Row::Some { .. } => {
            known.later.union(known.items)
        }
        _ => known.later,
    }
}

/// The kinds at which a part is gone into.
fn begins(
    looks: &mut Looks,
    fork: &Fork<'_, '_>,
    known: &Ahead,
    row: &Row,
) -> Result<TokenSet, RulesError>
    ensures err { IfErr result IsLimit }
    ensures keeps { OnOk result (Extends looks.old.sets.list.items looks.new.sets.list.items) }
{
    let is_way = matches!(row, Row::Arm { .. } | Row::Tail { .. } | Row::Choice { .. });
    if (is_way || matches!(row, Row::Node { .. })) && fork.map.outer(fork.part).is_some() {
        let mine = looks.from(fork.map, Place::Before(fork.part))?;
        Ok(kinds_at(fork.map, &mine))
    } else {
        Ok(known.begins.kinds)
    }
}

/// The look of a row, or the set of kinds that one of its operators begins with.
#[tactic(auto, using(crate::proofs::Limited::limit_if))]
fn look(looks: &mut Looks, fork: &Fork<'_, '_>, known: &Ahead, row: &Row) -> Result<u16, RulesError>
    requires way { IsDecidedWay (plan_of fork.now.map.now) fork.now.parts.now fork.now.part row.now }
    requires row { slice_get fork.now.map.now.rows.now fork.now.part ≡ Some row.now }
    ensures err { IfErr result (IsUndecidedIf (IsOpenBy fork.now row.now) fork.now.part) }
    ensures decided { OnOk result (IsOpenAt fork.now row.now → ⊥) }
    ensures keeps { OnOk result (Extends looks.old.sets.list.items looks.new.sets.list.items) }
{
    match row {
        Row::Arm { .. } => Ok(looks.look_of(fork.part)),
        Row::Tail { .. } => Ok(looks.look_of(fork.part)),
        Row::Optional { .. } => looks.more_in(fork),
        Row::Repeat { .. } => looks.more_in(fork),
        Row::Some { .. } => looks.more_in(fork),
        Row::List { .. } => looks.more(fork, Place::Separator(fork.part)),
        Row::Operators { .. } => looks.sets.number(known.again),
        Row::Call { .. } | Row::Operand { .. } => items(looks, known),
        _ => Ok(0),
    }
}

/// 1 more than the number of the set of the kinds that items of lists around a call begin with, or 0 if there is none.
fn items(looks: &mut Looks, known: &Ahead) -> Result<u16, RulesError>
    ensures err { IfErr result IsLimit }
    ensures keeps { OnOk result (Extends looks.old.sets.list.items looks.new.sets.list.items) }
{
    if known.items == TokenSet::EMPTY {
        return Ok(0);
    }
    let number = looks.sets.number(known.items)?;
    Ok(number.saturating_add(1))
}

/// The numbers 0, 1 and 2 of a row.
fn part_numbers(row: &Row) -> [u16; 3]
    ensures small { slice_index result 0 < 22 }
    ensures is { IsTrue (is_exact row.now) → part_by (slice_index result 0) (slice_index result 1) (slice_index result 2) ≡ row.now }
{
    match row {
        Row::Nothing => [0, 0, 0],
        Row::Token { kind } => [1, 0, kind.0],
        Row::Word { set } => [2, 0, *set],
        Row::Class { set } => [3, 0, *set],
        Row::Name { kind, set } => [4, kind.0, *set],
        Row::Becomes { kind } => [5, 0, kind.0],
        Row::Call { start, end } => [6, *end, *start],
        Row::Operand { operators, floor } => [7, *operators, *floor],
        Row::Guard { first, next } => [8, *first, *next],
        Row::Node { end, kind } => [9, *end, kind.0],
        Row::Choice { end } => [10, *end, 0],
        Row::Arm { end } => [11, *end, 0],
        Row::Optional { end } => [12, *end, 0],
        Row::Repeat { end } => [13, *end, 0],
        Row::Some { end } => [14, *end, 0],
        Row::List { end, separator } => [15, *end, separator.0],
        Row::Operators { end } => [16, *end, 0],
        Row::Tail {
            end,
            level,
            ceiling,
        } => [tail_number(*level, *ceiling), *end, *level],
        Row::Is { end } => [20, *end, 0],
        Row::Look { end } => [21, *end, 0],
    }
}

fn tail_number(level: u16, ceiling: u16) -> u16
    ensures { result ≡ tail_tag level ceiling }
{
    if ceiling == level {
        17
    } else if ceiling < level {
        18
    } else {
        19
    }
}
