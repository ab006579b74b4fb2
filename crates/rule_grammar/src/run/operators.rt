//! Operands, and the operators after them.
ghost use Rattle.std.specs.Prelude.{◌≡◌, ◌+◌, ◌≤◌, ◌<◌, ℕ, None, true};
ghost use Rattle.rule_grammar.specs.Derivations.{Counts, Derived, IsArm, text_of};
ghost use Rattle.rule_grammar.specs.Derivations.Span.{block, choice, operation};
ghost use Rattle.rule_grammar.specs.Parts.{part_at};
ghost use Rattle.squawk_parser.specs.SomeSteps.{AddsSome, AddsSomeNode};
ghost use Rattle.squawk_parser.specs.State.{HasNode, IsSound, State};

use crate::open::Open;
use crate::part::Part;
use crate::recovery::{associate, missing, no_operand, too_deep};
use crate::run::block;
use crate::run::node::one_node;
use crate::table::Block;
use crate::told::Told;
use squawk_parser::{CompletedMarker, Parser, SyntaxKind};

/// An operand by a table of operators, which a row of an operator calls.
#[cycle(run)]
pub(super) fn inner_operand(
    rule: &Open<'_>,
    row: u16,
    operators_row: u16,
    floor: u16,
    told: &mut Told,
    p: &mut Parser<'_>,
)
    requires { IsSound p.old }
    ensures adds { AddsSome p.old p.new }
    ensures derives { (ceiling : ℕ) × Derived (text_of rule.now.table.now p.old) (operation operators_row floor ceiling) told.old.place told.new.place p.old.position p.new.position }
    ensures counts { Counts told.old.place told.new.place p.old p.new }
{
    if rule.is_deepest() {
        let _ = too_deep(rule, row, told, p);
    } else {
        called_operators(&rule.called(row), operators_row, floor, told, p);
    }
}

#[inline(always)]
#[cycle(run)]
fn called_operators(rule: &Open<'_>, row: u16, floor: u16, told: &mut Told, p: &mut Parser<'_>)
    requires { IsSound p.old }
    ensures adds { AddsSome p.old p.new }
    ensures derives { (ceiling : ℕ) × Derived (text_of rule.now.table.now p.old) (operation row floor ceiling) told.old.place told.new.place p.old.position p.new.position }
    ensures counts { Counts told.old.place told.new.place p.old p.new }
{
    match rule.table.part(row) {
        Part::Operators { end } if row < u16::MAX => operators(rule, row, end, floor, told, p),
        _ => missing(rule, row, told, p),
    }
}

/// An operand, and the operators after it whose level is `floor` at least, where the operators are these.
#[cycle(run)]
pub(super) fn operators(
    rule: &Open<'_>,
    row: u16,
    end: u16,
    floor: u16,
    told: &mut Told,
    p: &mut Parser<'_>,
)
    requires room { row < 65535 }
    requires sound { IsSound p.old }
    ensures adds { AddsSome p.old p.new }
    ensures derives { part_at rule.now.table.now.rows.now row ≡ Part.Operators end
        → (ceiling : ℕ) × Derived (text_of rule.now.table.now p.old) (operation row floor ceiling) told.old.place told.new.place p.old.position p.new.position }
    ensures counts { Counts told.old.place told.new.place p.old p.new }
{
    let arms = Block {
        start: row + 1,
        end,
    };
    match rule.table.arm(arms, told, p) {
        Some(arm) => {
            let _ = climb(rule, row, end, floor, arm, told, p);
        }
        None => operators_after_others(rule, row, end, floor, told, p),
    }
}

/// The error that no operand stands at the position, and the one that stands after tokens that are skipped.
#[cold]
#[inline(never)]
#[cycle(run)]
fn operators_after_others(
    rule: &Open<'_>,
    row: u16,
    end: u16,
    floor: u16,
    told: &mut Told,
    p: &mut Parser<'_>,
)
    requires room { row < 65535 }
    requires sound { IsSound p.old }
    ensures adds { AddsSome p.old p.new }
    ensures derives { part_at rule.now.table.now.rows.now row ≡ Part.Operators end
        → (ceiling : ℕ) × Derived (text_of rule.now.table.now p.old) (operation row floor ceiling) told.old.place told.new.place p.old.position p.new.position }
    ensures counts { Counts told.old.place told.new.place p.old p.new }
{
    missing(rule, row, told, p);
    let arms = Block {
        start: row + 1,
        end,
    };
    if let Some(arm) = rule.table.arm(arms, told, p) {
        let _ = climb(rule, row, end, floor, arm, told, p);
    }
}

/// The operand in some rows, and the operators after it whose level is `floor` at least, where the operators are these.
#[cycle(run)]
fn climb(
    rule: &Open<'_>,
    row: u16,
    end: u16,
    floor: u16,
    arm: Block,
    told: &mut Told,
    p: &mut Parser<'_>,
) -> CompletedMarker
    requires room { row < 65535 }
    requires later { row + 1 < arm.start }
    requires is { IsArm rule.now.table.now.rows.now (row + 1) end arm.start arm.end }
    ensures adds { AddsSomeNode result p.old p.new }
    ensures derives { part_at rule.now.table.now.rows.now row ≡ Part.Operators end
        → (ceiling : ℕ) × Derived (text_of rule.now.table.now p.old) (operation row floor ceiling) told.old.place told.new.place p.old.position p.new.position }
    ensures counts { Counts told.old.place told.new.place p.old p.new }
{
    let mut left = one_node(rule, arm, told, p);
    let mut ceiling = u16::MAX;
    while let Some(operator) = rule.table.operator(row, end, floor, told, p) {
        let place = p.position();
        let fits = operator.level <= ceiling;
        left = operation(left, rule, operator.block, fits, told, p);
        ceiling = operator.ceiling;
        if p.position() == place {
            break;
        }
    }
    left
}

/// The operand that stands at the position, of those in a row: a node, of kind ERROR where none stands.
#[cycle(run)]
pub(super) fn operand(
    rule: &Open<'_>,
    row: u16,
    end: u16,
    told: &mut Told,
    p: &mut Parser<'_>,
) -> CompletedMarker
    requires { row < 65535 }
    ensures adds { AddsSomeNode result p.old p.new }
    ensures derives { Derived (text_of rule.now.table.now p.old) (choice (row + 1) end) told.old.place told.new.place p.old.position p.new.position }
    ensures counts { Counts told.old.place told.new.place p.old p.new }
{
    let arms = Block {
        start: row + 1,
        end,
    };
    match rule.table.arm(arms, told, p) {
        Some(arm) => one_node(rule, arm, told, p),
        None => no_operand(rule, row, told, p),
    }
}

/// An operand and the operators after it: a node, of kind ERROR where no operand stands.
#[cycle(run)]
pub(super) fn operators_node(
    rule: &Open<'_>,
    row: u16,
    end: u16,
    told: &mut Told,
    p: &mut Parser<'_>,
) -> CompletedMarker
    requires { row < 65535 }
    ensures adds { AddsSomeNode result p.old p.new }
    ensures derives { part_at rule.now.table.now.rows.now row ≡ Part.Operators end
        → (ceiling : ℕ) × Derived (text_of rule.now.table.now p.old) (operation row 0 ceiling) told.old.place told.new.place p.old.position p.new.position }
    ensures counts { Counts told.old.place told.new.place p.old p.new }
{
    let arms = Block {
        start: row + 1,
        end,
    };
    match rule.table.arm(arms, told, p) {
        Some(arm) => climb(rule, row, end, 0, arm, told, p),
        None => no_operand(rule, row, told, p),
    }
}

/// An operator: a node around what stands on its left, and the rows of the operator.
#[cycle(run)]
fn operation(
    left: CompletedMarker,
    rule: &Open<'_>,
    rows: Block,
    fits: bool,
    told: &mut Told,
    p: &mut Parser<'_>,
) -> CompletedMarker
    requires at_hand { HasNode p.old left }
    ensures adds { (begun : State) → AddsSomeNode left begun p.old → AddsSomeNode result begun p.new }
    ensures forward { p.old.position ≤ p.new.position }
    ensures derives { Derived (text_of rule.now.table.now p.old) (block rows.start rows.end) told.old.place told.new.place p.old.position p.new.position }
    ensures fits { told.new.place ≡ None → fits ≡ true }
    ensures counts { Counts told.old.place told.new.place p.old p.new }
{
    let outer = told.enter(SyntaxKind::ERROR);
    let node = left.precede(p);
    associate(fits, told, p);
    block(rule, rows, told, p);
    node.complete(p, told.leave(outer))
}
