//! Nodes, and rules that are one node.
ghost use Rattle.std.specs.Prelude.{◌+◌, ◌<◌, None};
ghost use Rattle.rule_grammar.specs.Derivations.{Counts, Derived, IsEnd, text_of};
ghost use Rattle.rule_grammar.specs.Derivations.Span.{block, single};
ghost use Rattle.squawk_parser.specs.SomeSteps.{AddsSome, AddsSomeNode};
ghost use Rattle.squawk_parser.specs.State.{IsSound};

use crate::open::Open;
use crate::part::Part;
use crate::recovery::{can_begin, no_operand, too_deep};
use crate::run::block;
use crate::run::operators::{operand, operators_node};
use crate::table::Block;
use crate::tokens::token;
use crate::told::Told;
use squawk_parser::{CompletedMarker, Parser, SyntaxKind};

/// A node around what is in a row, unless that can't begin at the position.
#[inline(always)]
#[cycle(run)]
pub(super) fn inner_node(
    rule: &Open<'_>,
    row: u16,
    end: u16,
    kind: SyntaxKind,
    told: &mut Told,
    p: &mut Parser<'_>,
)
    requires room { row < 65535 }
    requires sound { IsSound p.old }
    ensures adds { AddsSome p.old p.new }
    ensures derives { Derived (text_of rule.now.table.now p.old) (block (row + 1) end) told.old.place told.new.place p.old.position p.new.position }
    ensures counts { Counts told.old.place told.new.place p.old p.new }
{
    if can_begin(rule, row, told, p) {
        let _ = node(rule, row, end, kind, told, p);
    }
}

/// A node around what is in a row.
#[inline(always)]
#[cycle(run)]
fn node(
    rule: &Open<'_>,
    row: u16,
    end: u16,
    kind: SyntaxKind,
    told: &mut Told,
    p: &mut Parser<'_>,
) -> CompletedMarker
    requires { row < 65535 }
    ensures adds { AddsSomeNode result p.old p.new }
    ensures derives { Derived (text_of rule.now.table.now p.old) (block (row + 1) end) told.old.place told.new.place p.old.position p.new.position }
    ensures counts { Counts told.old.place told.new.place p.old p.new }
{
    let inside = rule.table.inside(row, end, kind);
    let outer = told.enter(inside.kind);
    let node = p.start();
    let rows = Block {
        start: row + 1,
        end: inside.end,
    };
    parts(rule, rows, end, told, p);
    node.complete(p, told.leave(outer))
}

/// The parts in some rows, which are all of those up to `end` that have to be parsed. Often it is one token.
#[inline(always)]
#[cycle(run)]
fn parts(rule: &Open<'_>, rows: Block, end: u16, told: &mut Told, p: &mut Parser<'_>)
    requires sound { IsSound p.old }
    requires all { IsEnd rule.now.table.now.rows.now rows.end end }
    ensures adds { AddsSome p.old p.new }
    ensures derives { Derived (text_of rule.now.table.now p.old) (block rows.start end) told.old.place told.new.place p.old.position p.new.position }
    ensures counts { Counts told.old.place told.new.place p.old p.new }
{
    match rule.table.part(rows.start) {
        Part::Token { kind } if rule.table.is_one(rows) => {
            token(rule, rows.start, kind, told, p)
        }
        _ => block(rule, rows, told, p),
    }
}

/// What is in some rows, which is one node, also after a guard: it stands there, or in a rule that is called, or is an
/// operand with operators.
#[cycle(run)]
pub(super) fn one_node(
    rule: &Open<'_>,
    rows: Block,
    told: &mut Told,
    p: &mut Parser<'_>,
) -> CompletedMarker
    ensures adds { AddsSomeNode result p.old p.new }
    ensures derives { Derived (text_of rule.now.table.now p.old) (block rows.start rows.end) told.old.place told.new.place p.old.position p.new.position }
    ensures counts { Counts told.old.place told.new.place p.old p.new }
{
    match rule.table.only(rows) {
        Some(row) => node_in(rule, row, told, p),
        None => no_operand(rule, rows.start, told, p),
    }
}

/// The part in a row, which is one node.
#[inline(always)]
#[cycle(run)]
fn node_in(rule: &Open<'_>, row: u16, told: &mut Told, p: &mut Parser<'_>) -> CompletedMarker
    requires { row < 65535 }
    ensures adds { AddsSomeNode result p.old p.new }
    ensures derives { Derived (text_of rule.now.table.now p.old) (single row) told.old.place told.new.place p.old.position p.new.position }
    ensures counts { Counts told.old.place told.new.place p.old p.new }
{
    match rule.table.part(row) {
        Part::Node { end, kind } => node(rule, row, end, kind, told, p),
        Part::Call { start, end } => called_node(rule, row, Block { start, end }, told, p),
        Part::Choice { end } => operand(rule, row, end, told, p),
        Part::Operators { end } => operators_node(rule, row, end, told, p),
        _ => no_operand(rule, row, told, p),
    }
}

/// The rule in some rows, which a row calls, and which is one node.
#[inline(always)]
#[cycle(run)]
fn called_node(
    rule: &Open<'_>,
    row: u16,
    rows: Block,
    told: &mut Told,
    p: &mut Parser<'_>,
) -> CompletedMarker
    ensures adds { AddsSomeNode result p.old p.new }
    ensures derives { Derived (text_of rule.now.table.now p.old) (block rows.start rows.end) told.old.place told.new.place p.old.position p.new.position }
    ensures counts { Counts told.old.place told.new.place p.old p.new }
{
    if rule.is_deepest() {
        too_deep(rule, row, told, p)
    } else {
        node_called(&rule.called(row), rows, told, p)
    }
}

/// The same, where it is called. Mostly the node stands there.
#[inline(always)]
#[cycle(run)]
fn node_called(rule: &Open<'_>, rows: Block, told: &mut Told, p: &mut Parser<'_>) -> CompletedMarker
    ensures adds { AddsSomeNode result p.old p.new }
    ensures derives { Derived (text_of rule.now.table.now p.old) (block rows.start rows.end) told.old.place told.new.place p.old.position p.new.position }
    ensures counts { Counts told.old.place told.new.place p.old p.new }
{
    match rule.table.part(rows.start) {
        Part::Node { end, kind } if rule.table.is_one(rows) => {
            node(rule, rows.start, end, kind, told, p)
        }
        _ => one_node(rule, rows, told, p),
    }
}
