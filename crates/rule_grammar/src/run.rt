//! The interpreter: one for all rules.
ghost use Rattle.std.specs.Prelude.{◌≡◌, ◌<◌};
ghost use Rattle.rule_grammar.specs.Derivations.{Counts, Derived, text_of};
ghost use Rattle.rule_grammar.specs.Derivations.Span.{block, choice, single};
ghost use Rattle.rule_grammar.specs.Parts.{part_at};
ghost use Rattle.squawk_parser.specs.SomeSteps.{AddsSome};
ghost use Rattle.squawk_parser.specs.State.{IsSound};

mod groups;
mod node;
mod operators;

use crate::open::Open;
use crate::part::Part;
use crate::recovery::{expect_kind, too_deep};
use crate::run::groups::{choice, list, optional, repeat, some};
use crate::run::node::inner_node;
use crate::run::operators::{inner_operand, operators};
use crate::table::Block;
use crate::tokens::{class, name, token, word};
use crate::told::Told;
use squawk_parser::Parser;

/// The parts in some rows, one after another.
#[cycle(run)]
pub(crate) fn block(rule: &Open<'_>, rows: Block, told: &mut Told, p: &mut Parser<'_>)
    requires { IsSound p.old }
    ensures adds { AddsSome p.old p.new }
    ensures derives { Derived (text_of rule.now.table.now p.old) (block rows.start rows.end) told.old.place told.new.place p.old.position p.new.position }
    ensures counts { Counts told.old.place told.new.place p.old p.new }
{
    let mut row = rows.start;
    while row < rows.end {
        let beyond = rule.table.beyond(row);
        step(rule, row, rule.table.part(row), told, p);
        row = beyond;
    }
}

/// The part in a row.
#[inline(always)]
#[cycle(run)]
fn step(rule: &Open<'_>, row: u16, part: Part, told: &mut Told, p: &mut Parser<'_>)
    requires room { row < 65535 }
    requires sound { IsSound p.old }
    requires is { part ≡ part_at rule.now.table.now.rows.now row }
    ensures adds { AddsSome p.old p.new }
    ensures derives { Derived (text_of rule.now.table.now p.old) (single row) told.old.place told.new.place p.old.position p.new.position }
    ensures counts { Counts told.old.place told.new.place p.old p.new }
{
    match part {
        Part::Token { kind } => token(rule, row, kind, told, p),
        Part::Word { set } => word(rule, row, set, told, p),
        Part::Class { set } => class(rule, row, set, told, p),
        Part::Name { kind, set } => name(rule, row, kind, set, told, p),
        Part::Node { end, kind } => inner_node(rule, row, end, kind, told, p),
        Part::Becomes { kind } => told.becomes(kind),
        Part::Choice { end } => choice(rule, row, end, told, p),
        Part::Optional { end } => optional(rule, row, end, told, p),
        Part::Repeat { end } => repeat(rule, row, end, told, p),
        Part::Some { end } => some(rule, row, end, told, p),
        Part::List { end, separator } => list(rule, row, end, separator, told, p),
        Part::Call { start, end } => call(rule, row, Block { start, end }, told, p),
        Part::Operators { end } => operators(rule, row, end, 0, told, p),
        Part::Operand { operators, floor } => inner_operand(rule, row, operators, floor, told, p),
        Part::Nothing => {}
        Part::Is { end } => expect_kind(rule, row, end, told, p),
        Part::Guard { .. } => {}
        Part::Look { .. } => {}
        Part::Arm { .. } => {}
        Part::Tail { .. } => {}
    }
}

/// The rule in some rows, which a row calls.
#[cycle(run)]
pub(super) fn call(rule: &Open<'_>, row: u16, rows: Block, told: &mut Told, p: &mut Parser<'_>)
    requires { IsSound p.old }
    ensures adds { AddsSome p.old p.new }
    ensures derives { Derived (text_of rule.now.table.now p.old) (block rows.start rows.end) told.old.place told.new.place p.old.position p.new.position }
    ensures counts { Counts told.old.place told.new.place p.old p.new }
{
    if rule.is_deepest() {
        let _ = too_deep(rule, row, told, p);
    } else {
        called(&rule.called(row), rows, told, p);
    }
}

/// The same, where it is called. Mostly it is one node.
#[inline(always)]
#[cycle(run)]
fn called(rule: &Open<'_>, rows: Block, told: &mut Told, p: &mut Parser<'_>)
    requires { IsSound p.old }
    ensures adds { AddsSome p.old p.new }
    ensures derives { Derived (text_of rule.now.table.now p.old) (block rows.start rows.end) told.old.place told.new.place p.old.position p.new.position }
    ensures counts { Counts told.old.place told.new.place p.old p.new }
{
    match rule.table.part(rows.start) {
        Part::Node { end, kind } if rule.table.is_one(rows) => {
            inner_node(rule, rows.start, end, kind, told, p)
        }
        _ => block(rule, rows, told, p),
    }
}
