//! Expressions.
//!
//! ```text
//! expression := operand {operator expression}
//! operand := IDENT | INT_NUMBER | STRING | NULL | NOT expression | list
//! list := '(' [expression {',' expression}] ')'
//! ```
ghost use Rattle.std.specs.Prelude.{◌≢◌, ◌<◌};
ghost use Rattle.squawk_kinds.specs.Kinds.{EOF, TOMBSTONE};
ghost use Rattle.squawk_parser.specs.SomeSteps.{AddsSome, AddsSomeNode, Spends};
ghost use Rattle.squawk_parser.specs.State.{HasNode, IsSound, State, kind_at};

use crate::kinds::{
    AND_KW, AS_KW, BIN_EXPR, LIST, LITERAL, NAME_REF, NOT_EXPR, NULL_KW, OR_KW, SELECT_KW, WHERE_KW,
};
use squawk_parser::{CompletedMarker, Parser, SyntaxKind, TokenSet, token_set};

/// Where the grammar goes on if an operand is missing.
const RECOVERY: TokenSet = token_set![
    SyntaxKind::COMMA,
    SyntaxKind::R_PAREN,
    SyntaxKind::SEMICOLON,
    SyntaxKind::FROM_KW,
    SELECT_KW,
    WHERE_KW,
    AS_KW,
];

/// How many expressions may stand in one another.
pub const DEPTH: u32 = 500;

/// The floor under all operators, and how tightly NOT binds.
pub const ANY: u8 = 0;

const NOT: u8 = 3;

/// An expression of operators that bind tighter than the floor, with as many expressions in one another as
/// the depth allows.
#[cycle(expressions)]
pub fn expression(p: &mut Parser<'_>, floor: u8, depth: u32)
    ensures adds { AddsSome p.old p.new }
    ensures spends { Spends 12 3 p.old p.new }
{
    if depth == 0 {
        too_deep(p);
        return;
    }
    let mut left = operand(p, depth - 1);
    while floor < binding(p) {
        left = operation(left, p, depth - 1);
    }
}

/// What is nested too deep: one error, and all tokens up to where the list ends that they stand in.
fn too_deep(p: &mut Parser<'_>)
    ensures adds { AddsSome p.old p.new }
    ensures spends { Spends 12 3 p.old p.new }
{
    let node = p.start();
    p.error("nested too deep");
    let mut lists: usize = 0;
    while p.current() != SyntaxKind::EOF && (lists > 0 || !p.at_ts(RECOVERY)) {
        lists = match p.current() {
            SyntaxKind::L_PAREN => lists.saturating_add(1),
            SyntaxKind::R_PAREN => lists.saturating_sub(1),
            _ => lists,
        };
        p.bump_any();
    }
    node.complete(p, SyntaxKind::ERROR);
}

/// How tightly the operator at the position binds; 0 where none stands.
fn binding(p: &Parser<'_>) -> u8
    ensures { 0 < result → kind_at p.now 0 ≢ EOF }
{
    match p.current() {
        SyntaxKind::EOF => 0,
        OR_KW => 1,
        AND_KW => 2,
        SyntaxKind::IS_KW | SyntaxKind::IN_KW | SyntaxKind::LIKE_KW => 4,
        SyntaxKind::NOT_KW if p.at(SyntaxKind::NOT_IN) || p.at(SyntaxKind::NOT_LIKE) => 4,
        _ if p.at(SyntaxKind::CUSTOM_OP) => 4,
        _ => 0,
    }
}

/// An operator and its right operand, behind its left one: a node around all three.
#[cycle(expressions)]
fn operation(left: CompletedMarker, p: &mut Parser<'_>, depth: u32) -> CompletedMarker
    requires at_hand { HasNode p.old left }
    requires some { kind_at p.old 0 ≢ EOF }
    ensures adds { (begun : State) → AddsSomeNode left begun p.old → AddsSomeNode result begun p.new }
    ensures spends { Spends 12 0 p.old p.new }
    ensures eats { p.old.position < p.new.position }
{
    let node = left.precede(p);
    let floor = binding(p);
    operator(p);
    expression(p, floor, depth);
    node.complete(p, BIN_EXPR)
}

/// An operator: a composite kind, or else one token.
fn operator(p: &mut Parser<'_>)
    requires { kind_at p.old 0 ≢ EOF }
    ensures adds { AddsSome p.old p.new }
    ensures spends { Spends 3 0 p.old p.new }
    ensures eats { p.old.position < p.new.position }
{
    let kind = match p.current() {
        SyntaxKind::IS_KW => SyntaxKind::IS_NOT,
        SyntaxKind::NOT_KW if p.at(SyntaxKind::NOT_IN) => SyntaxKind::NOT_IN,
        SyntaxKind::NOT_KW => SyntaxKind::NOT_LIKE,
        _ => SyntaxKind::CUSTOM_OP,
    };
    if !p.eat(kind) {
        p.bump_any();
    }
}

/// An operand: always a node, of kind ERROR where none stands.
#[cycle(expressions)]
fn operand(p: &mut Parser<'_>, depth: u32) -> CompletedMarker
    ensures adds { AddsSomeNode result p.old p.new }
    ensures spends { Spends 12 3 p.old p.new }
{
    match p.current() {
        SyntaxKind::IDENT => leaf(p, NAME_REF),
        SyntaxKind::INT_NUMBER | SyntaxKind::STRING | NULL_KW => leaf(p, LITERAL),
        SyntaxKind::NOT_KW => negation(p, depth),
        SyntaxKind::L_PAREN => list(p, depth),
        _ => no_operand(p),
    }
}

fn leaf(p: &mut Parser<'_>, kind: SyntaxKind) -> CompletedMarker
    requires { kind ≢ TOMBSTONE }
    ensures adds { AddsSomeNode result p.old p.new }
    ensures spends { Spends 12 2 p.old p.new }
{
    let node = p.start();
    p.bump_any();
    node.complete(p, kind)
}

/// The error that an operand is missing, and the token in its place unless the grammar goes on there.
fn no_operand(p: &mut Parser<'_>) -> CompletedMarker
    ensures adds { AddsSomeNode result p.old p.new }
    ensures spends { Spends 12 3 p.old p.new }
{
    let node = p.start();
    p.error("expected an expression");
    if !p.at_ts(RECOVERY) {
        p.bump_any();
    }
    node.complete(p, SyntaxKind::ERROR)
}

#[cycle(expressions)]
fn negation(p: &mut Parser<'_>, depth: u32) -> CompletedMarker
    requires { kind_at p.old 0 ≢ EOF }
    ensures adds { AddsSomeNode result p.old p.new }
    ensures spends { Spends 12 0 p.old p.new }
{
    let node = p.start();
    p.bump_any();
    expression(p, NOT, depth);
    node.complete(p, NOT_EXPR)
}

#[cycle(expressions)]
fn list(p: &mut Parser<'_>, depth: u32) -> CompletedMarker
    requires { kind_at p.old 0 ≢ EOF }
    ensures adds { AddsSomeNode result p.old p.new }
    ensures spends { Spends 12 0 p.old p.new }
{
    let node = p.start();
    p.bump_any();
    list_items(p, depth);
    p.expect(SyntaxKind::R_PAREN);
    node.complete(p, LIST)
}

#[cycle(expressions)]
fn list_items(p: &mut Parser<'_>, depth: u32)
    requires { IsSound p.old }
    ensures adds { AddsSome p.old p.new }
    ensures spends { Spends 12 3 p.old p.new }
{
    if p.current() == SyntaxKind::R_PAREN {
        return;
    }
    expression(p, ANY, depth);
    while p.current() == SyntaxKind::COMMA {
        p.bump_any();
        expression(p, ANY, depth);
    }
}
