//! Kinds of tokens that are eaten at the same places.
ghost use Rattle.std.specs.Prelude.{IfOk, OnOk, length};
ghost use Rattle.rule_tables.specs.Looks.{AddsSome, AreAlike, IsCut};
ghost use Rattle.rule_tables.specs.Strands.{AreGroupsOn};
ghost use Rattle.rule_tables.specs.Walks.{plan_of};

use crate::eats::kinds_of;
use crate::map::Map;
use crate::place::Place;
use crate::sets::{both, is_empty, push, without};
use crate::strands::Strand;
use squawk_kinds::TokenSet;
use std::alloc::{AllocError, Global};

/// The set, cut into kinds that are eaten at the same places of each strand.
pub(crate) fn groups(
    alloc: Global,
    map: &Map<'_>,
    strands: &[Strand],
    set: TokenSet,
) -> Result<Vec<TokenSet>, AllocError>
    ensures { IfOk result (λ groups. AreGroupsOn (plan_of map.now) strands.now (length strands.now) set groups.items) }
{
    let mut groups = Vec::new(alloc);
    if is_empty(set) {
        return Ok(groups);
    }
    push(&mut groups, set)?;
    for strand in strands {
        groups = cut_all(alloc, map, groups, &strand.places)?;
    }
    Ok(groups)
}

/// Each set, cut into kinds that are eaten at the same places.
fn cut_all(
    alloc: Global,
    map: &Map<'_>,
    sets: Vec<TokenSet>,
    places: &[Place],
) -> Result<Vec<TokenSet>, AllocError>
    ensures { IfOk result (λ groups. AreAlike (plan_of map.now) places.now (length places.now) sets.items groups.items) }
{
    let mut groups = sets;
    for place in places {
        groups = cut(alloc, &groups, kinds_of(map, *place))?;
    }
    Ok(groups)
}

/// Each set, cut into the kinds that are in another, and those that aren't.
fn cut(alloc: Global, sets: &[TokenSet], kinds: TokenSet) -> Result<Vec<TokenSet>, AllocError>
    ensures { IfOk result (λ cut. IsCut sets.now kinds cut.items) }
{
    let mut cut = Vec::new(alloc);
    for set in sets {
        push_some(&mut cut, both(*set, kinds))?;
        push_some(&mut cut, without(*set, kinds))?;
    }
    Ok(cut)
}

/// Adds a set, unless it is empty.
fn push_some(sets: &mut Vec<TokenSet>, set: TokenSet) -> Result<(), AllocError>
    ensures { OnOk result (AddsSome sets.old.items set sets.new.items) }
{
    if is_empty(set) {
        Ok(())
    } else {
        push(sets, set)
    }
}
