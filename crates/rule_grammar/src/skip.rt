//! Tokens that are skipped after an error.
ghost use Rattle.std.specs.Prelude.{IsSome};
ghost use Rattle.rule_grammar.specs.Derivations.{Counts};
ghost use Rattle.squawk_parser.specs.SomeSteps.{AddsSome};
ghost use Rattle.squawk_parser.specs.State.{IsSound};

use crate::guard::unclosed_after;
use crate::open::Open;
use crate::part::Part;
use crate::told::Told;
use squawk_parser::{Parser, SyntaxKind};

/// Tells that what is in a row is missing. Tokens at which no open rule goes on are skipped, into a node of kind ERROR.
pub(crate) fn tell(rule: &Open<'_>, row: u16, told: &mut Told, p: &mut Parser<'_>)
    requires { IsSound p.old }
    ensures adds { AddsSome p.old p.new }
    ensures tells { IsSome told.new.place }
    ensures counts { Counts told.old.place told.new.place p.old p.new }
{
    let inside = before_match(rule, row, p);
    if inside > 0 {
        skip_some(rule, row, inside, told, p);
    } else if goes_on(rule, row, p) {
        told.error(rule.table.missing(row, p), p);
    } else {
        skip_unexpected(rule, row, told, p);
    }
}

/// Where a row is a closing parenthesis: how many tokens stand before the one that closes the innermost open one, if it
/// is among the next [`FAR`] tokens and no semicolon stands before it, else 0.
fn before_match(rule: &Open<'_>, row: u16, p: &Parser<'_>) -> usize {
    match rule.table.part(row) {
        Part::Token {
            kind: SyntaxKind::R_PAREN,
        } => closing(p),
        _ => 0,
    }
}

/// How many tokens are looked at to find the parenthesis that closes another.
const FAR: usize = 256;

fn closing(p: &Parser<'_>) -> usize {
    let mut unclosed = 0usize;
    for n in 0..FAR {
        let kind = p.nth(n);
        if kind == SyntaxKind::R_PAREN && unclosed == 0 {
            return n;
        }
        if kind == SyntaxKind::SEMICOLON || kind == SyntaxKind::EOF {
            return 0;
        }
        unclosed = unclosed_after(unclosed, kind);
    }
    0
}

/// Skips what stands before a parenthesis that closes, without an error.
pub(crate) fn skip_inside(rule: &Open<'_>, row: u16, p: &mut Parser<'_>)
    requires { IsSound p.old }
    ensures { AddsSome p.old p.new }
{
    let inside = before_match(rule, row, p);
    if inside > 0 {
        let node = p.start();
        bump_some(inside, p);
        node.complete(p, SyntaxKind::ERROR);
    }
}

/// An error, and so many tokens.
fn skip_some(rule: &Open<'_>, row: u16, count: usize, told: &mut Told, p: &mut Parser<'_>)
    ensures adds { AddsSome p.old p.new }
    ensures tells { IsSome told.new.place }
    ensures counts { Counts told.old.place told.new.place p.old p.new }
{
    let node = p.start();
    told.error(rule.table.missing(row, p), p);
    bump_some(count, p);
    node.complete(p, SyntaxKind::ERROR);
}

fn bump_some(count: usize, p: &mut Parser<'_>)
    requires { IsSound p.old }
    ensures { AddsSome p.old p.new }
{
    let mut left = count;
    while left > 0 && p.current() != SyntaxKind::EOF {
        p.bump_any();
        left -= 1;
    }
}

/// Whether no token is to be skipped after an error in a row.
pub(crate) fn goes_on(rule: &Open<'_>, row: u16, p: &Parser<'_>) -> bool {
    p.current() == SyntaxKind::EOF || rule.goes_on_at(row, rule.table.symbol(p))
}

/// Whether it is the rule that was called last that goes on after the tokens that would be skipped here.
pub(crate) fn resumes(rule: &Open<'_>, row: u16, p: &Parser<'_>) -> bool {
    let mut unclosed = unclosed_after(0, p.current());
    for n in 1..FAR {
        let kind = p.nth(n);
        if kind == SyntaxKind::EOF {
            return rule.is_file();
        }
        if unclosed == 0 && rule.goes_on_at(row, kind) {
            return rule.resumes_at(row, kind);
        }
        unclosed = unclosed_after(unclosed, kind);
    }
    true
}

/// An error, and the tokens at which no open rule goes on.
fn skip_unexpected(rule: &Open<'_>, row: u16, told: &mut Told, p: &mut Parser<'_>)
    ensures adds { AddsSome p.old p.new }
    ensures tells { IsSome told.new.place }
    ensures counts { Counts told.old.place told.new.place p.old p.new }
{
    let node = p.start();
    told.error(rule.table.missing(row, p), p);
    bump_to(rule, row, p);
    node.complete(p, SyntaxKind::ERROR);
}

/// Eats the token at the position, and those after it up to one at which an open rule goes on. Parentheses are eaten
/// with what is in them.
pub(crate) fn bump_to(rule: &Open<'_>, row: u16, p: &mut Parser<'_>)
    requires { IsSound p.old }
    ensures { AddsSome p.old p.new }
{
    let mut unclosed = unclosed_after(0, p.current());
    p.bump_any();
    while p.current() != SyntaxKind::EOF && (unclosed > 0 || !goes_on(rule, row, p)) {
        unclosed = unclosed_after(unclosed, p.current());
        p.bump_any();
    }
}
