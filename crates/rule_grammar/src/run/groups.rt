//! Choices, and parts that are left out or repeated.
ghost use Rattle.std.specs.Prelude.{◌≡◌, ◌+◌, ◌<◌, None};
ghost use Rattle.rule_grammar.specs.Derivations.{Counts, Derived, text_of};
ghost use Rattle.rule_grammar.specs.Derivations.Span.{block, choice, items, single, turns};
ghost use Rattle.rule_grammar.specs.Parts.{part_at};
ghost use Rattle.squawk_parser.specs.SomeSteps.{AddsSome};
ghost use Rattle.squawk_parser.specs.State.{IsSound};

use crate::open::Open;
use crate::part::Part;
use crate::recovery::{bump_at, is_next, is_separated, missing};
use crate::run::{block, call};
use crate::table::Block;
use crate::told::Told;
use squawk_parser::{Parser, SyntaxKind};

/// The arm that stands at the position, also after an error.
#[cycle(run)]
pub(super) fn choice(rule: &Open<'_>, row: u16, end: u16, told: &mut Told, p: &mut Parser<'_>)
    requires room { row < 65535 }
    requires sound { IsSound p.old }
    ensures adds { AddsSome p.old p.new }
    ensures derives { Derived (text_of rule.now.table.now p.old) (choice (row + 1) end) told.old.place told.new.place p.old.position p.new.position }
    ensures counts { Counts told.old.place told.new.place p.old p.new }
{
    let arms = Block {
        start: row + 1,
        end,
    };
    match rule.table.arm(arms, told, p) {
        Some(arm) => block(rule, arm, told, p),
        None => choice_after_others(rule, row, arms, told, p),
    }
}

/// The error that no arm stands at the position, and the one that stands after tokens that are skipped.
#[cold]
#[inline(never)]
#[cycle(run)]
fn choice_after_others(rule: &Open<'_>, row: u16, arms: Block, told: &mut Told, p: &mut Parser<'_>)
    requires { IsSound p.old }
    ensures adds { AddsSome p.old p.new }
    ensures derives { Derived (text_of rule.now.table.now p.old) (choice arms.start arms.end) told.old.place told.new.place p.old.position p.new.position }
    ensures counts { Counts told.old.place told.new.place p.old p.new }
{
    missing(rule, row, told, p);
    if let Some(arm) = rule.table.arm(arms, told, p) {
        block(rule, arm, told, p);
    }
}

/// What is in a row. Often it is one call.
#[inline(always)]
#[cycle(run)]
fn inner(rule: &Open<'_>, row: u16, end: u16, told: &mut Told, p: &mut Parser<'_>)
    requires room { row < 65535 }
    requires sound { IsSound p.old }
    ensures adds { AddsSome p.old p.new }
    ensures derives { Derived (text_of rule.now.table.now p.old) (block (row + 1) end) told.old.place told.new.place p.old.position p.new.position }
    ensures counts { Counts told.old.place told.new.place p.old p.new }
{
    let rows = Block {
        start: row + 1,
        end,
    };
    match rule.table.part(rows.start) {
        Part::Call { start, end } if rule.table.is_one(rows) => {
            call(rule, rows.start, Block { start, end }, told, p)
        }
        _ => block(rule, rows, told, p),
    }
}

/// What is in a row, if it stands at the position.
#[inline(always)]
#[cycle(run)]
pub(super) fn optional(rule: &Open<'_>, row: u16, end: u16, told: &mut Told, p: &mut Parser<'_>)
    requires room { row < 65535 }
    requires sound { IsSound p.old }
    ensures adds { AddsSome p.old p.new }
    ensures derives { part_at rule.now.table.now.rows.now row ≡ Part.Optional end
        → Derived (text_of rule.now.table.now p.old) (single row) told.old.place told.new.place p.old.position p.new.position }
    ensures counts { Counts told.old.place told.new.place p.old p.new }
{
    if is_next(rule, row, told, p) {
        inner(rule, row, end, told, p);
    }
}

/// What is in a row, as long as it stands at the position.
#[cycle(run)]
pub(super) fn repeat(rule: &Open<'_>, row: u16, end: u16, told: &mut Told, p: &mut Parser<'_>)
    requires room { row < 65535 }
    requires sound { IsSound p.old }
    ensures adds { AddsSome p.old p.new }
    ensures derives { Derived (text_of rule.now.table.now p.old) (turns (row + 1) end) told.old.place told.new.place p.old.position p.new.position }
    ensures counts { Counts told.old.place told.new.place p.old p.new }
{
    while is_next(rule, row, told, p) {
        let place = p.position();
        inner(rule, row, end, told, p);
        if p.position() == place {
            break;
        }
    }
}

/// What is in a row, and again as long as it stands at the position.
#[cycle(run)]
pub(super) fn some(rule: &Open<'_>, row: u16, end: u16, told: &mut Told, p: &mut Parser<'_>)
    requires room { row < 65535 }
    requires sound { IsSound p.old }
    ensures adds { AddsSome p.old p.new }
    ensures derives { part_at rule.now.table.now.rows.now row ≡ Part.Some end
        → Derived (text_of rule.now.table.now p.old) (single row) told.old.place told.new.place p.old.position p.new.position }
    ensures counts { Counts told.old.place told.new.place p.old p.new }
{
    inner(rule, row, end, told, p);
    repeat(rule, row, end, told, p);
}

/// What is in a row, and again after each separator.
#[cycle(run)]
pub(super) fn list(
    rule: &Open<'_>,
    row: u16,
    end: u16,
    separator: SyntaxKind,
    told: &mut Told,
    p: &mut Parser<'_>,
)
    requires room { row < 65535 }
    requires sound { IsSound p.old }
    ensures adds { AddsSome p.old p.new }
    ensures derives { Derived (text_of rule.now.table.now p.old) (items (row + 1) end separator) told.old.place told.new.place p.old.position p.new.position }
    ensures counts { Counts told.old.place told.new.place p.old p.new }
{
    inner(rule, row, end, told, p);
    while is_separated(rule, row, separator, told, p) {
        let place = p.position();
        bump_at(separator, p);
        inner(rule, row, end, told, p);
        if p.position() == place {
            break;
        }
    }
}
