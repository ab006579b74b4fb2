//! The parts that eat tokens.
ghost use Rattle.std.specs.Prelude.{◌≡◌, ◌≢◌, ◌+◌, IsTrue, true};
ghost use Rattle.squawk_kinds.specs.Kinds.{EOF, IDENT};
ghost use Rattle.squawk_parser.specs.SomeSteps.{AddsSome};
ghost use Rattle.squawk_parser.specs.State.{IsSound, contextual_kind_at, kind_at};
ghost use Rattle.rule_grammar.specs.Derivations.{Counts, EatsKind, IfClean, kind_of, text_of};
ghost use Rattle.rule_grammar.specs.Parts.{set_has};

use crate::open::Open;
use crate::recovery::{is_at, missing};
use crate::told::Told;
use squawk_parser::{Parser, SyntaxKind, has_tail};

/// A token of the kind, or the tokens of a composite one, also after an error. Composite kinds with a tail are none.
#[inline(always)]
pub(crate) fn token(
    rule: &Open<'_>,
    row: u16,
    kind: SyntaxKind,
    told: &mut Told,
    p: &mut Parser<'_>,
)
    requires { IsSound p.old }
    ensures adds { AddsSome p.old p.new }
    ensures told { IfClean told.old.place told.new.place (EatsKind rule.now.table.now kind p.old p.new) }
    ensures counts { Counts told.old.place told.new.place p.old p.new }
{
    if is_at(rule, kind, p) {
        p.bump_any();
    } else {
        composite(rule, row, kind, told, p);
    }
}

#[inline(never)]
fn composite(rule: &Open<'_>, row: u16, kind: SyntaxKind, told: &mut Told, p: &mut Parser<'_>)
    requires { IsSound p.old }
    ensures adds { AddsSome p.old p.new }
    ensures told { IfClean told.old.place told.new.place (EatsKind rule.now.table.now kind p.old p.new) }
    ensures counts { Counts told.old.place told.new.place p.old p.new }
{
    if !eats(rule, kind, p) {
        missing(rule, row, told, p);
        eat_composite(rule, kind, p);
    }
}

fn eat_composite(rule: &Open<'_>, kind: SyntaxKind, p: &mut Parser<'_>)
    requires { IsSound p.old }
    ensures { AddsSome p.old p.new }
{
    let _ = eats(rule, kind, p);
}

fn eats(rule: &Open<'_>, kind: SyntaxKind, p: &mut Parser<'_>) -> bool
    requires { IsSound p.old }
    ensures adds { AddsSome p.old p.new }
    ensures eats { IsTrue result → EatsKind rule.now.table.now kind p.old p.new }
{
    if kind == SyntaxKind::EOF || has_tail(kind) || rule.table.hides(p.position()) {
        false
    } else {
        p.eat(kind)
    }
}

/// A token whose kind is in a set, also after an error.
pub(crate) fn class(rule: &Open<'_>, row: u16, set: u16, told: &mut Told, p: &mut Parser<'_>)
    requires { IsSound p.old }
    ensures adds { AddsSome p.old p.new }
    ensures told { IfClean told.old.place told.new.place ((set_has rule.now.table.now.sets.now set (kind_of (text_of rule.now.table.now p.old) p.old.position) ≡ true) × (p.new.position ≡ p.old.position + 1)) }
    ensures counts { Counts told.old.place told.new.place p.old p.new }
{
    if is_in(rule, set, p) {
        p.bump_any();
    } else {
        missing(rule, row, told, p);
        bump_class(rule, set, p);
    }
}

fn bump_class(rule: &Open<'_>, set: u16, p: &mut Parser<'_>)
    requires { IsSound p.old }
    ensures { AddsSome p.old p.new }
{
    if is_in(rule, set, p) {
        p.bump_any();
    }
}

/// The same. It gets this kind.
pub(crate) fn name(
    rule: &Open<'_>,
    row: u16,
    kind: SyntaxKind,
    set: u16,
    told: &mut Told,
    p: &mut Parser<'_>,
)
    requires { IsSound p.old }
    ensures adds { AddsSome p.old p.new }
    ensures told { IfClean told.old.place told.new.place ((set_has rule.now.table.now.sets.now set (kind_of (text_of rule.now.table.now p.old) p.old.position) ≡ true) × (p.new.position ≡ p.old.position + 1)) }
    ensures counts { Counts told.old.place told.new.place p.old p.new }
{
    if is_in(rule, set, p) {
        p.bump_remap(kind);
    } else {
        missing(rule, row, told, p);
        bump_name(rule, kind, set, p);
    }
}

fn bump_name(rule: &Open<'_>, kind: SyntaxKind, set: u16, p: &mut Parser<'_>)
    requires { IsSound p.old }
    ensures { AddsSome p.old p.new }
{
    if is_in(rule, set, p) {
        p.bump_remap(kind);
    }
}

/// Whether the kind of the token at the position is in a set. The end is in none.
#[inline(always)]
fn is_in(rule: &Open<'_>, set: u16, p: &Parser<'_>) -> bool
    ensures is { result ≡ true → set_has rule.now.table.now.sets.now set (kind_of (text_of rule.now.table.now p.now) p.now.position) ≡ true }
    ensures some { result ≡ true → kind_at p.now 0 ≢ EOF }
{
    let kind = rule.table.current(p);
    kind != SyntaxKind::EOF && rule.table.has(set, kind)
}

/// An identifier whose contextual kind is in a set, also after an error.
pub(crate) fn word(rule: &Open<'_>, row: u16, set: u16, told: &mut Told, p: &mut Parser<'_>)
    requires { IsSound p.old }
    ensures adds { AddsSome p.old p.new }
    ensures told { IfClean told.old.place told.new.place ((kind_of (text_of rule.now.table.now p.old) p.old.position ≡ IDENT) × (set_has rule.now.table.now.sets.now set (contextual_kind_at p.old 0) ≡ true)
        × (p.new.position ≡ p.old.position + 1)) }
    ensures counts { Counts told.old.place told.new.place p.old p.new }
{
    if is_word(rule, set, p) {
        p.bump_any();
    } else {
        missing(rule, row, told, p);
        bump_word(rule, set, p);
    }
}

fn bump_word(rule: &Open<'_>, set: u16, p: &mut Parser<'_>)
    requires { IsSound p.old }
    ensures { AddsSome p.old p.new }
{
    if is_word(rule, set, p) {
        p.bump_any();
    }
}

/// Whether the token at the position is an identifier whose contextual kind is in a set.
fn is_word(rule: &Open<'_>, set: u16, p: &Parser<'_>) -> bool
    ensures name { result ≡ true → kind_of (text_of rule.now.table.now p.now) p.now.position ≡ IDENT }
    ensures is { result ≡ true → set_has rule.now.table.now.sets.now set (contextual_kind_at p.now 0) ≡ true }
{
    rule.table.current(p) == SyntaxKind::IDENT && rule.table.has(set, p.nth_contextual_kind(0))
}
