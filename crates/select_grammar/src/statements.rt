//! Statements.
//!
//! ```text
//! select := SELECT [DISTINCT] item {',' item} FROM name [WHERE expression] ';'
//! item := expression [AS name]
//! ```
ghost use Rattle.std.specs.Prelude.{◌≢◌, ◌<◌};
ghost use Rattle.squawk_kinds.specs.Kinds.{EOF};
ghost use Rattle.squawk_parser.specs.SomeSteps.{AddsSome, Spends};
ghost use Rattle.squawk_parser.specs.State.{IsSound, kind_at};

use crate::expressions::{ANY, DEPTH, expression};
use crate::kinds::{AS_KW, FROM_CLAUSE, ITEM, NAME_REF, SELECT, SELECT_KW, WHERE_CLAUSE, WHERE_KW};
use squawk_parser::{Parser, SyntaxKind, TokenSet, token_set};

/// Where a statement begins.
const STARTS: TokenSet = token_set![SELECT_KW];

/// Where a statement ends.
const ENDS: TokenSet = token_set![SELECT_KW, SyntaxKind::SEMICOLON];

/// Where a statement goes on or ends.
const CLAUSES: TokenSet = token_set![WHERE_KW, SELECT_KW, SyntaxKind::SEMICOLON];

/// A statement, or what is none, up to where one begins.
pub fn statement(p: &mut Parser<'_>)
    requires { kind_at p.old 0 ≢ EOF }
    ensures adds { AddsSome p.old p.new }
    ensures spends { Spends 12 0 p.old p.new }
    ensures eats { p.old.position < p.new.position }
{
    if p.at_ts(STARTS) {
        select(p);
    } else {
        p.skip_to(STARTS, "expected SELECT");
    }
}

fn select(p: &mut Parser<'_>)
    requires { kind_at p.old 0 ≢ EOF }
    ensures adds { AddsSome p.old p.new }
    ensures spends { Spends 12 0 p.old p.new }
    ensures eats { p.old.position < p.new.position }
{
    let node = p.start();
    p.bump_any();
    items(p);
    from_clause(p);
    where_clause(p);
    end(p);
    node.complete(p, SELECT);
}

fn items(p: &mut Parser<'_>)
    ensures adds { AddsSome p.old p.new }
    ensures spends { Spends 12 5 p.old p.new }
{
    p.eat(SyntaxKind::DISTINCT_KW);
    item(p);
    while p.current() == SyntaxKind::COMMA {
        p.bump_any();
        item(p);
    }
}

fn item(p: &mut Parser<'_>)
    ensures adds { AddsSome p.old p.new }
    ensures spends { Spends 12 5 p.old p.new }
{
    let node = p.start();
    expression(p, ANY, DEPTH);
    if p.eat(AS_KW) {
        name(p);
    }
    node.complete(p, ITEM);
}

fn name(p: &mut Parser<'_>)
    ensures adds { AddsSome p.old p.new }
    ensures spends { Spends 12 3 p.old p.new }
{
    let node = p.start();
    p.expect(SyntaxKind::IDENT);
    node.complete(p, NAME_REF);
}

/// A table. Where its word is missing, what stands before the next clause is skipped.
fn from_clause(p: &mut Parser<'_>)
    ensures adds { AddsSome p.old p.new }
    ensures spends { Spends 12 3 p.old p.new }
{
    let node = p.start();
    if p.expect(SyntaxKind::FROM_KW) {
        name(p);
    } else {
        p.skip_to(CLAUSES, "expected a clause");
    }
    node.complete(p, FROM_CLAUSE);
}

fn where_clause(p: &mut Parser<'_>)
    requires { IsSound p.old }
    ensures adds { AddsSome p.old p.new }
    ensures spends { Spends 12 0 p.old p.new }
{
    if p.current() == WHERE_KW {
        let node = p.start();
        p.bump_any();
        expression(p, ANY, DEPTH);
        node.complete(p, WHERE_CLAUSE);
    }
}

/// The end of a statement, behind what doesn't belong before it.
fn end(p: &mut Parser<'_>)
    ensures adds { AddsSome p.old p.new }
    ensures spends { Spends 12 1 p.old p.new }
{
    p.skip_to(ENDS, "expected the end of the statement");
    p.expect(SyntaxKind::SEMICOLON);
}
