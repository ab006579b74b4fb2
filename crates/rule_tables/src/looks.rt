//! What decides between two ways: the tokens that come.
ghost use Rattle.std.specs.Prelude.{◌≡◌, ◌<◌, IfErr, IfOk, OnOk, length};
ghost use Rattle.rule_tables.specs.Forks.{IsOpenFork};
ghost use Rattle.rule_tables.specs.Limits.{IsLimit, IsUndecidedIf};
ghost use Rattle.rule_tables.specs.Places.{AreShared, AreTold, ComeBoth, ComesFirst, Sees, first_in};
ghost use Rattle.rule_tables.specs.Sets.{Extends};
ghost use Rattle.rule_tables.specs.Walks.{plan_of};

use crate::error::RulesError;
use crate::map::Map;
use crate::place::Place;
use crate::sets::{Sets, push};
use crate::strands::strand_of;
use crate::trail::Trail;
use crate::walk::Walk;
use rule_parts::Part;
use squawk_kinds::TokenSet;
use std::alloc::Global;

/// Any kinds, after the last set of a look.
pub(crate) const ANY: u16 = u16::MAX;

/// A look: the sets that the tokens are in, or [`ANY`], and the number of the look that is tried next, or 0.
pub(crate) type Look = [u16; 5];

/// Looks, and what they are worked out with.
#[derive(Drop)]
pub(crate) struct Looks {
    pub(crate) alloc: Global,
    pub(crate) walk: Walk,
    pub(crate) sets: Sets,
    pub(crate) list: Vec<Look>,
    /// The numbers of the first and the last look of each arm and operator, or 0.
    pub(crate) ends: Vec<[u16; 2]>,
}

/// A part of rules where there are two ways.
#[derive(Clone, Copy)]
pub(crate) struct Fork<'m, 'p> {
    pub(crate) map: &'m Map<'m>,
    pub(crate) parts: &'p [Part<'p>],
    pub(crate) part: usize,
}

#[tactic(auto, using(crate::proofs::Limited::limit_if))]
impl Looks {
    /// The places that eat first, from one on.
    pub(crate) fn from(&mut self, map: &Map<'_>, place: Place) -> Result<Vec<Place>, RulesError>
        ensures err { IfErr result IsLimit }
        ensures keeps { OnOk result (Extends self.old.sets.list.items self.new.sets.list.items) }
    {
        self.walk.from(self.alloc, map, place)
    }

    /// The number of the look at which a part goes on at its first row, and not after it.
    pub(crate) fn more_in(&mut self, fork: &Fork<'_, '_>) -> Result<u16, RulesError>
        requires { fork.now.part < length fork.now.map.now.rows.now }
        ensures err { IfErr result (IsUndecidedIf (λ kinds. (IsOpenFork fork.now) × AreTold (ComesFirst (plan_of fork.now.map.now) fork.now.part (first_in fork.now.map.now.rows.now fork.now.part)) kinds) fork.now.part) }
        ensures ok { OnOk result (IsOpenFork fork.now → AreShared 4 (ComesFirst (plan_of fork.now.map.now) fork.now.part (first_in fork.now.map.now.rows.now fork.now.part)) → ⊥) }
        ensures keeps { OnOk result (Extends self.old.sets.list.items self.new.sets.list.items) }
    {
        match fork.map.first(fork.part) {
            Some(first) => self.more(fork, Place::Before(first)),
            None => Ok(0),
        }
    }

    /// The number of the look at which a part goes on at a place, and not after it, or 0 if one token decides.
    pub(crate) fn more(&mut self, fork: &Fork<'_, '_>, place: Place) -> Result<u16, RulesError>
        requires { fork.now.part < length fork.now.map.now.rows.now }
        ensures err { IfErr result (IsUndecidedIf (λ kinds. (IsOpenFork fork.now) × AreTold (ComeBoth (Sees (plan_of fork.now.map.now) place) (Sees (plan_of fork.now.map.now) (Place.After fork.now.part))) kinds) fork.now.part) }
        ensures ok { OnOk result (IsOpenFork fork.now → AreShared 4 (ComeBoth (Sees (plan_of fork.now.map.now) place) (Sees (plan_of fork.now.map.now) (Place.After fork.now.part))) → ⊥) }
        ensures keeps { OnOk result (Extends self.old.sets.list.items self.new.sets.list.items) }
    {
        let others = self
            .walk
            .from(self.alloc, fork.map, Place::After(fork.part))?;
        let mine = self.walk.from(self.alloc, fork.map, place)?;
        let mut strands = Vec::new(self.alloc);
        push(&mut strands, strand_of(fork.map, fork.part + 1, others))?;
        push(&mut strands, strand_of(fork.map, fork.part, mine))?;
        match self.decide(fork.parts, fork.map, &strands, &Trail::none())? {
            Some(open) => {
                let kinds = open.kinds;
                Err(RulesError::Undecided {
                    part: fork.part,
                    kinds,
                })
            }
            None => Ok(self.look_of(fork.part)),
        }
    }

    /// The number of the first look of a row, or 0.
    pub(crate) fn look_of(&self, row: usize) -> u16 {
        match self.ends.get(row) {
            Some(ends) => ends[0],
            None => 0,
        }
    }

    /// Adds a look of a row.
    pub(crate) fn add(&mut self, row: usize, trail: &Trail, set: TokenSet) -> Result<(), RulesError>
        requires { trail.now.depth < 4 }
        ensures err { IfErr result IsLimit }
        ensures keeps { OnOk result (Extends self.old.sets.list.items self.new.sets.list.items) }
    {
        let set = self.sets.number(set)?;
        let number = number_of(self.list.len())?;
        push(&mut self.list, trail.look_at(set))?;
        self.link(row, number);
        Ok(())
    }

    /// Links a look of a row to the last one of it.
    fn link(&mut self, row: usize, number: u16)
        ensures { self.new.sets.list.items ≡ self.old.sets.list.items }
    {
        if let Some(ends) = self.ends.get_mut(row) {
            if ends[0] == 0 {
                ends[0] = number;
            } else if let Some(look) = self.list.get_mut(usize::from(ends[1].saturating_sub(1))) {
                look[4] = number;
            }
            ends[1] = number;
        }
    }
}

/// The number of a look, from 1.
fn number_of(index: usize) -> Result<u16, RulesError>
    ensures err { IfErr result IsLimit }
    ensures more { IfOk result (λ number. 0 < number) }
{
    if index < 65535 {
        Ok(index as u16 + 1)
    } else {
        Err(RulesError::TooMany)
    }
}
