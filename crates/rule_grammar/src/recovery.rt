//! Errors, and where parsing goes on after one.
ghost use Rattle.std.specs.Prelude.{◌≡◌, ◌≢◌, ◌+◌, ◌<◌, IsSome, false, true};
ghost use Rattle.rule_grammar.specs.Derivations.{Counts, IfClean, IsSeparated, kind_of, text_of};
ghost use Rattle.squawk_kinds.specs.Kinds.{EOF};
ghost use Rattle.squawk_parser.specs.SomeSteps.{AddsSome, AddsSomeNode};
ghost use Rattle.squawk_parser.specs.State.{IsSound, kind_at};

use crate::open::Open;
use crate::skip::{bump_to, goes_on, resumes, skip_inside, tell};
use crate::table::Block;
use crate::told::Told;
use squawk_parser::{CompletedMarker, Parser, SyntaxKind};

/// Tells that what is in a row is missing, unless an error was told at this place. Tokens at which no open rule goes on
/// are skipped, into a node of kind ERROR.
#[cold]
#[inline(never)]
pub(crate) fn missing(rule: &Open<'_>, row: u16, told: &mut Told, p: &mut Parser<'_>)
    requires { IsSound p.old }
    ensures adds { AddsSome p.old p.new }
    ensures tells { IsSome told.new.place }
    ensures counts { Counts told.old.place told.new.place p.old p.new }
{
    if told.has_error_at(p.position()) {
        skip_inside(rule, row, p);
        told.move_to(p.position());
    } else {
        tell(rule, row, told, p);
        // A second error at the place after it is dropped.
        told.move_to(p.position());
    }
}

/// Whether what is in a row can begin at the position, also after tokens that are skipped. Where it can't, that is an
/// error.
#[inline(always)]
pub(crate) fn can_begin(rule: &Open<'_>, row: u16, told: &mut Told, p: &mut Parser<'_>) -> bool
    requires { IsSound p.old }
    ensures adds { AddsSome p.old p.new }
    ensures told { IfClean told.old.place told.new.place (p.new.position ≡ p.old.position) }
    ensures tells { result ≡ false → IsSome told.new.place }
    ensures counts { Counts told.old.place told.new.place p.old p.new }
{
    if rule.table.begins_with(row, told.symbol(rule.table, p)) {
        true
    } else {
        can_begin_after_others(rule, row, told, p)
    }
}

/// Whether it can begin after tokens that are skipped.
#[cold]
#[inline(never)]
fn can_begin_after_others(rule: &Open<'_>, row: u16, told: &mut Told, p: &mut Parser<'_>) -> bool
    requires { IsSound p.old }
    ensures adds { AddsSome p.old p.new }
    ensures tells { IsSome told.new.place }
    ensures counts { Counts told.old.place told.new.place p.old p.new }
{
    missing(rule, row, told, p);
    rule.table.begins_with(row, rule.table.symbol(p))
}

/// Whether what is in a row stands at the position. Where it doesn't and the token can't stand after it either, that is
/// an error, and tokens are skipped.
#[inline(always)]
pub(crate) fn is_next(rule: &Open<'_>, row: u16, told: &mut Told, p: &mut Parser<'_>) -> bool
    requires { IsSound p.old }
    ensures adds { AddsSome p.old p.new }
    ensures told { IfClean told.old.place told.new.place (p.new.position ≡ p.old.position) }
    ensures counts { Counts told.old.place told.new.place p.old p.new }
{
    if rule.table.stands(row, told.symbol(rule.table, p), p) {
        true
    } else if told.is_settled(p.position()) {
        false
    } else {
        is_after_others(rule, row, told, p)
    }
}

/// Whether it stands after tokens that are skipped.
#[inline(never)]
fn is_after_others(rule: &Open<'_>, row: u16, told: &mut Told, p: &mut Parser<'_>) -> bool
    requires { IsSound p.old }
    ensures adds { AddsSome p.old p.new }
    ensures told { IfClean told.old.place told.new.place (p.new.position ≡ p.old.position) }
    ensures counts { Counts told.old.place told.new.place p.old p.new }
{
    if is_unexpected(rule, row, told, p) {
        missing(rule, row, told, p);
        rule.table.stands(row, rule.table.symbol(p), p)
    } else {
        false
    }
}

/// Whether the token at the position stands at a place where no open rule goes on, and the one called last has to go on,
/// or does so after that token: else the error is left to another.
fn is_unexpected(rule: &Open<'_>, row: u16, told: &mut Told, p: &Parser<'_>) -> bool
    ensures { told.new.place ≡ told.old.place }
{
    if told.is_settled(p.position()) {
        return false;
    }
    let symbol = told.symbol(rule.table, p);
    if rule.may_follow(row, symbol) || rule.begins_item(symbol) || goes_on(rule, row, p) {
        told.settle(p.position());
        return false;
    }
    !rule.table.may_end_after(row) || resumes(rule, row, p)
}

/// Whether a list goes on: its separator stands at the position, also after tokens that are skipped, or is forgotten
/// there, which is an error.
#[inline(always)]
pub(crate) fn is_separated(
    rule: &Open<'_>,
    row: u16,
    separator: SyntaxKind,
    told: &mut Told,
    p: &mut Parser<'_>,
) -> bool
    requires { IsSound p.old }
    ensures adds { AddsSome p.old p.new }
    ensures told { IfClean told.old.place told.new.place (IsSeparated rule.now.table.now separator result p.old p.new) }
    ensures counts { Counts told.old.place told.new.place p.old p.new }
{
    if is_at(rule, separator, p) && rule.table.sees_look(row, p) {
        true
    } else {
        is_separated_after_others(rule, row, separator, told, p)
    }
}

#[inline(never)]
fn is_separated_after_others(
    rule: &Open<'_>,
    row: u16,
    separator: SyntaxKind,
    told: &mut Told,
    p: &mut Parser<'_>,
) -> bool
    requires { IsSound p.old }
    ensures adds { AddsSome p.old p.new }
    ensures told { IfClean told.old.place told.new.place (IsSeparated rule.now.table.now separator result p.old p.new) }
    ensures counts { Counts told.old.place told.new.place p.old p.new }
{
    if is_forgotten(rule, row, told, p) {
        forgotten(rule, row, separator, told, p);
        true
    } else if is_unexpected(rule, row, told, p) {
        missing(rule, row, told, p);
        is_at(rule, separator, p)
    } else {
        false
    }
}

/// Whether an item of a list stands at the position, where no open rule may go on, and no error was told of it.
fn is_forgotten(rule: &Open<'_>, row: u16, told: &Told, p: &Parser<'_>) -> bool {
    let symbol = rule.table.symbol(p);
    symbol != SyntaxKind::EOF
        && rule.table.begins_with(row, symbol)
        && !told.is_blamed(p.position())
        && !rule.may_follow(row, symbol)
}

/// The error that a separator is forgotten, unless one was told at this place.
fn forgotten(rule: &Open<'_>, row: u16, separator: SyntaxKind, told: &mut Told, p: &mut Parser<'_>)
    requires { IsSound p.old }
    ensures adds { AddsSome p.old p.new }
    ensures tells { IsSome told.new.place }
    ensures counts { Counts told.old.place told.new.place p.old p.new }
{
    let message = match separator {
        SyntaxKind::COMMA => "expected a comma",
        _ => rule.table.message(row),
    };
    told.error(message, p);
}

/// Eats the token at the position if it has this kind.
#[inline(always)]
pub(crate) fn bump_at(kind: SyntaxKind, p: &mut Parser<'_>)
    requires { IsSound p.old }
    ensures adds { AddsSome p.old p.new }
    ensures eats { kind_at p.old 0 ≡ kind → kind_at p.old 0 ≢ EOF → p.new.position ≡ p.old.position + 1 }
{
    if p.current() == kind {
        p.bump_any();
    }
}

/// Whether the token at the position has this kind, and isn't hidden.
#[inline(always)]
pub(crate) fn is_at(rule: &Open<'_>, kind: SyntaxKind, p: &Parser<'_>) -> bool
    ensures seen { result ≡ true → kind_of (text_of rule.now.table.now p.now) p.now.position ≡ kind }
    ensures is { result ≡ true → kind_at p.now 0 ≡ kind }
    ensures some { result ≡ true → kind_at p.now 0 ≢ EOF }
{
    rule.table.current(p) == kind && kind != SyntaxKind::EOF
}

/// The error that an operator stands after one that it doesn't associate with.
#[inline(always)]
pub(crate) fn associate(fits: bool, told: &mut Told, p: &mut Parser<'_>)
    requires { IsSound p.old }
    ensures adds { AddsSome p.old p.new }
    ensures told { IfClean told.old.place told.new.place ((fits ≡ true) × (p.new.position ≡ p.old.position)) }
    ensures counts { Counts told.old.place told.new.place p.old p.new }
{
    if !fits {
        told.error("this operator doesn't associate: use parentheses", p);
    }
}

/// The error that the node that ended last has none of the kinds that the rows in a row name.
pub(crate) fn expect_kind(rule: &Open<'_>, row: u16, end: u16, told: &mut Told, p: &mut Parser<'_>)
    requires room { row < 65535 }
    requires sound { IsSound p.old }
    ensures adds { AddsSome p.old p.new }
    ensures told { IfClean told.old.place told.new.place (p.new.position ≡ p.old.position) }
    ensures counts { Counts told.old.place told.new.place p.old p.new }
{
    let named = Block {
        start: row + 1,
        end,
    };
    if !rule.table.names(named, told.ended()) {
        told.error(rule.table.message(row), p);
    }
}

/// A node in place of an operand that is missing.
#[cold]
#[inline(never)]
pub(crate) fn no_operand(
    rule: &Open<'_>,
    row: u16,
    told: &mut Told,
    p: &mut Parser<'_>,
) -> CompletedMarker
    ensures adds { AddsSomeNode result p.old p.new }
    ensures tells { IsSome told.new.place }
    ensures counts { Counts told.old.place told.new.place p.old p.new }
{
    let node = p.start();
    missing(rule, row, told, p);
    node.complete(p, SyntaxKind::ERROR)
}

/// What is nested too deep: an error, and the tokens at which no open rule goes on.
#[cold]
#[inline(never)]
pub(crate) fn too_deep(
    rule: &Open<'_>,
    row: u16,
    told: &mut Told,
    p: &mut Parser<'_>,
) -> CompletedMarker
    ensures adds { AddsSomeNode result p.old p.new }
    ensures tells { IsSome told.new.place }
    ensures counts { Counts told.old.place told.new.place p.old p.new }
{
    let node = p.start();
    p.error("nested too deep");
    bump_to(rule, row, p);
    told.move_to(p.position());
    node.complete(p, SyntaxKind::ERROR)
}
