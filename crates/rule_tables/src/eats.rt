//! Which tokens are eaten at a place.
ghost use Rattle.std.specs.Prelude.{◌≡◌, ℕ, IfOk, Some, slice_get};
ghost use Rattle.std.specs.List.{filter, list_any};
ghost use Rattle.squawk_kinds.specs.TokenSets.{has};
ghost use Rattle.rule_tables.specs.Classes.{list_has};
ghost use Rattle.rule_tables.specs.Places.{does_eat, eats, is_token_row, row_eats, separates};
ghost use Rattle.rule_tables.specs.Walks.{plan_of};

use crate::map::Map;
use crate::place::Place;
use crate::sets::set_of;
use rule_grammar::{Part as Row, bit_of};
use squawk_kinds::{SyntaxKind, TokenSet};
use std::alloc::{AllocError, Global};

/// The kinds of tokens that are eaten at a place.
pub(crate) fn kinds_of(map: &Map<'_>, place: Place) -> TokenSet
    ensures { (kind : ℕ) → has result kind ≡ eats (plan_of map.now) place kind }
{
    match place {
        Place::Before(row) => kinds_before(map, row),
        Place::After(_) => TokenSet::EMPTY,
        Place::Separator(row) => separators_at(map, row),
        Place::End => set_of(SyntaxKind::EOF),
    }
}

fn kinds_before(map: &Map<'_>, row: usize) -> TokenSet
    ensures { (kind : ℕ) → has result kind ≡ row_eats map.now.sets.now (slice_get map.now.rows.now row) kind }
{
    match map.rows.get(row) {
        Some(part) => kinds_in(map.sets, part),
        None => TokenSet::EMPTY,
    }
}

fn kinds_in(sets: &[TokenSet], part: &Row) -> TokenSet
    ensures { (kind : ℕ) → has result kind ≡ row_eats sets.now (Some part.now) kind }
{
    match part {
        Row::Token { kind } => set_of(bit_of(*kind)),
        Row::Word { .. } => set_of(SyntaxKind::IDENT),
        Row::Class { set } => set_at(sets, *set),
        Row::Name { set, .. } => set_at(sets, *set),
        _ => TokenSet::EMPTY,
    }
}

fn separators_at(map: &Map<'_>, row: usize) -> TokenSet
    ensures { (kind : ℕ) → has result kind ≡ separates (slice_get map.now.rows.now row) kind }
{
    match map.rows.get(row) {
        Some(part) => separators(part),
        None => TokenSet::EMPTY,
    }
}

fn set_at(sets: &[TokenSet], number: u16) -> TokenSet
    ensures { (kind : ℕ) → has result kind ≡ list_has sets.now number kind }
{
    match sets.get(usize::from(number)) {
        Some(set) => *set,
        None => TokenSet::EMPTY,
    }
}

/// The kind of the separators of a list.
pub(crate) fn separators(part: &Row) -> TokenSet
    ensures { (kind : ℕ) → has result kind ≡ separates (Some part.now) kind }
{
    match part {
        Row::List { separator, .. } => set_of(*separator),
        _ => TokenSet::EMPTY,
    }
}

/// Whether a token is eaten at a place.
pub(crate) fn does_eat(map: &Map<'_>, place: Place) -> bool
    ensures { result ≡ does_eat (plan_of map.now) place }
{
    match place {
        Place::Before(row) => is_token_row(map, row),
        Place::After(_) => false,
        Place::Separator(_) => true,
        Place::End => true,
    }
}

fn is_token_row(map: &Map<'_>, row: usize) -> bool
    ensures { result ≡ is_token_row (slice_get map.now.rows.now row) }
{
    match map.rows.get(row) {
        Some(part) => is_token(part),
        None => false,
    }
}

fn is_token(part: &Row) -> bool
    ensures { result ≡ is_token_row (Some part.now) }
{
    matches!(
        part,
        Row::Token { .. } | Row::Word { .. } | Row::Class { .. } | Row::Name { .. }
    )
}

/// Those of some places where a token is eaten.
pub(crate) fn eaters(
    alloc: Global,
    map: &Map<'_>,
    places: &[Place],
) -> Result<Vec<Place>, AllocError>
    ensures { IfOk result (λ found. found.items ≡ filter (does_eat (plan_of map.now)) places.now) }
{
    places
        .iter()
        .filter(|place| does_eat(map, **place))
        .copied()
        .collect(alloc)
}

/// The kinds that are eaten at some places.
pub(crate) fn kinds_at(map: &Map<'_>, places: &[Place]) -> TokenSet
    ensures { (kind : ℕ) → has result kind ≡ list_any (λ p. eats (plan_of map.now) p kind) places.now }
{
    let mut kinds = TokenSet::EMPTY;
    for place in places {
        kinds = kinds.union(kinds_of(map, *place));
    }
    kinds
}
