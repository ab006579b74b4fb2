//! Rows of what names stand for. A name without a meaning is nothing.
ghost use Rattle.std.specs.Prelude.{◌≡◌, ◌≤◌, IfSome, IsTrue, option_map, position, slice_get, take};
ghost use Rattle.std.specs.Option.{option_and_then};
ghost use Rattle.rule_grammar.specs.declared.part.Part.TheVariants.{Becomes, Call, List as Items, Token};
ghost use Rattle.rule_tables.specs.Definitions.{classes_in, defined, definition_of, is_rule};
ghost use Rattle.rule_tables.specs.Rows.{AreSmall, IsFileRule, call_of, call_of_rule, class_of, class_row, file_row, guard_of, guard_row, is_exact, named_kind, or_nothing, token_row};

use crate::classes::{members_of, named_kind};
use crate::definitions::{Definitions, part_at};
use crate::names::Names;
use crate::rows::end_of;
use rule_grammar::Part as Row;
use rule_parts::{Name, Part};

pub(crate) fn token<N: Names>(names: &N, name: &Name<'_>) -> Row
    ensures is { result ≡ or_nothing (option_map Token ((N.vocabulary names.now).token name.now.text.now)) }
    ensures exact { IsTrue (is_exact result) }
{
    match names.token(name.text) {
        Some(kind) => Row::Token { kind },
        None => Row::Nothing,
    }
}

pub(crate) fn becomes<N: Names>(names: &N, name: &Name<'_>) -> Row
    ensures is { result ≡ or_nothing (option_map Becomes ((N.vocabulary names.now).node name.now.text.now)) }
    ensures exact { IsTrue (is_exact result) }
{
    match names.node(name.text) {
        Some(kind) => Row::Becomes { kind },
        None => Row::Nothing,
    }
}

pub(crate) fn list<N: Names>(names: &N, end: u16, separator: &Name<'_>) -> Row
    ensures is { result ≡ or_nothing (option_map (Items end) ((N.vocabulary names.now).token separator.now.text.now)) }
    ensures exact { IsTrue (is_exact result) }
{
    match names.token(separator.text) {
        Some(separator) => Row::List { end, separator },
        None => Row::Nothing,
    }
}

/// A token of a class.
pub(crate) fn class<N: Names>(definitions: &Definitions<'_, '_>, names: &N, name: &Name<'_>) -> Row
    requires { AreSmall definitions.now.parts.now }
    ensures is { result ≡ class_of (N.vocabulary names.now) definitions.now.parts.now (definition_of definitions.now.parts.now name.now.text.now) }
    ensures exact { IsTrue (is_exact result) }
{
    match definitions.find(name.text) {
        Some(found) => class_row(definitions.parts, names, found.part, found.number),
        None => Row::Nothing,
    }
}

/// A token of the class that a part is, by its number.
fn class_row<N: Names>(parts: &[Part<'_>], names: &N, part: usize, number: usize) -> Row
    requires number { number ≡ classes_in (take part parts.now) }
    requires few { number ≤ 65000 }
    ensures is { result ≡ class_row (N.vocabulary names.now) parts.now part (slice_get parts.now part) }
    ensures exact { IsTrue (is_exact result) }
{
    let set = number as u16;
    match part_at(parts, part) {
        Some(Part::Set { size, .. }) => set_row(names, set, members_of(parts, part, *size)),
        Some(Part::Words { .. }) => Row::Word { set },
        _ => Row::Nothing,
    }
}

/// A token of a set, with the kind that the members of its class name.
fn set_row<N: Names>(names: &N, set: u16, members: &[Part<'_>]) -> Row
    ensures is { result ≡ token_row set (option_and_then (N.vocabulary names.now).token (named_kind members.now)) }
    ensures exact { IsTrue (is_exact result) }
{
    match named_kind(members) {
        Some(name) => match names.token(name) {
            Some(kind) => Row::Name { kind, set },
            None => Row::Class { set },
        },
        None => Row::Class { set },
    }
}

pub(crate) fn guard(definitions: &Definitions<'_, '_>, name: &Name<'_>) -> Row
    requires { AreSmall definitions.now.parts.now }
    ensures is { result ≡ guard_row definitions.now.parts.now (defined definitions.now.parts.now name.now.text.now) }
    ensures exact { IsTrue (is_exact result) }
{
    match definitions.part(name.text) {
        Some(Part::Guard { first, next, .. }) => guard_of(
            definitions.class_number(first.text),
            definitions.class_number(next.text),
        ),
        _ => Row::Nothing,
    }
}

fn guard_of(first: Option<usize>, next: Option<usize>) -> Row
    requires first { IfSome first (λ number. number ≤ 65000) }
    requires next { IfSome next (λ number. number ≤ 65000) }
    ensures is { result ≡ guard_of first next }
    ensures exact { IsTrue (is_exact result) }
{
    match (first, next) {
        (Some(first), Some(next)) => Row::Guard {
            first: first as u16,
            next: next as u16,
        },
        _ => Row::Nothing,
    }
}

pub(crate) fn call(definitions: &Definitions<'_, '_>, name: &Name<'_>) -> Row
    requires { AreSmall definitions.now.parts.now }
    ensures is { result ≡ or_nothing (call_of definitions.now.parts.now (definition_of definitions.now.parts.now name.now.text.now)) }
    ensures exact { IsTrue (is_exact result) }
{
    match definitions.find(name.text) {
        Some(found) => match rule_at(definitions.parts, found.part) {
            Some(Span { start, end }) => Row::Call { start, end },
            None => Row::Nothing,
        },
        None => Row::Nothing,
    }
}

/// Rows, from one up to another.
#[derive(Clone, Copy)]
pub(crate) struct Span {
    pub(crate) start: u16,
    pub(crate) end: u16,
}

/// The rows of the rule that a part is.
fn rule_at(parts: &[Part<'_>], part: usize) -> Option<Span>
    requires { AreSmall parts.now }
    ensures { option_map (λ span. Call span.start span.end) result ≡ call_of_rule part (slice_get parts.now part) }
{
    match part_at(parts, part) {
        Some(Part::Rule { size, .. }) => Some(Span {
            start: end_of(part, 0),
            end: end_of(part, *size),
        }),
        _ => None,
    }
}

fn first_rule(parts: &[Part<'_>]) -> Option<usize>
    ensures { result ≡ position (λ part. is_rule (Some part)) parts.now }
{
    parts
        .iter()
        .position(|part| matches!(part, Part::Rule { .. }))
}

/// The row of the first rule, or 0.
pub(crate) fn file_row(parts: &[Part<'_>]) -> usize
    ensures { result ≡ file_row parts.now }
{
    match first_rule(parts) {
        Some(rule) => rule,
        None => 0,
    }
}

/// The rows of the rule of a file: the first rule, if there is one.
pub(crate) fn file_of(parts: &[Part<'_>]) -> Span
    requires { AreSmall parts.now }
    ensures { IsFileRule parts.now result.start result.end }
{
    match first_rule(parts) {
        Some(rule) => match rule_at(parts, rule) {
            Some(span) => span,
            None => Span { start: 0, end: 0 },
        },
        None => Span { start: 0, end: 0 },
    }
}
