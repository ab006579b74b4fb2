//! Which places come from a place on, without eating.
ghost use Rattle.std.specs.Prelude.{◌≡◌, ℕ, ◌<◌, ◌≤◌, All, IfErr, IfOk, OnOk, [], ◌∷◌, length, slice_index, true};
ghost use Rattle.rule_tables.specs.Limits.{IsLimit};

use crate::eats::{eaters, kinds_of};
use crate::error::RulesError;
use crate::map::Map;
use crate::place::{Place, slot_of};
use crate::sets::push;
use squawk_kinds::SyntaxKind;
use std::alloc::{AllocError, Global};

/// A walk over places, without eating.
#[derive(Drop)]
pub(crate) struct Walk {
    /// The number of the walk that was last at each place.
    pub(crate) marks: Vec<u64>,
    /// The number of this walk.
    pub(crate) number: u64,
    /// The places that this walk reached.
    pub(crate) reached: Vec<Place>,
    ghost below: { (i : ℕ) → slice_index marks.items i ≤ number },
}

impl Walk {
    ghost use Rattle.rule_tables.specs.Places.{Sees, SeesFrom, Steps, does_eat, eats};
    ghost use Rattle.rule_tables.specs.Walks.{AreFirst, Goes, HasReached, IsClosed, IsWalking, plan_of, slots};

    pub(crate) fn new(alloc: Global) -> Walk {
        Walk {
            marks: Vec::new(alloc),
            number: 0,
            reached: Vec::new(alloc),
        }
    }

    /// The places that eat first, from one on.
    pub(crate) fn from(
        &mut self,
        alloc: Global,
        map: &Map<'_>,
        place: Place,
    ) -> Result<Vec<Place>, RulesError>
        ensures err { IfErr result IsLimit }
        ensures ok { IfOk result (λ places. AreFirst (plan_of map.now) (Sees (plan_of map.now) place) places.items) }
    {
        self.begin(map)?;
        self.push(place)?;
        self.finish(alloc, map)
    }

    /// The places that eat first after a token of the kind was eaten at one of these.
    pub(crate) fn over(
        &mut self,
        alloc: Global,
        map: &Map<'_>,
        places: &[Place],
        kind: SyntaxKind,
    ) -> Result<Vec<Place>, RulesError>
        requires { All (λ p. does_eat (plan_of map.now) p ≡ true) places.now }
        ensures err { IfErr result IsLimit }
        ensures ok { IfOk result (λ found. AreFirst (plan_of map.now) (λ word. SeesFrom (plan_of map.now) places.now (kind ∷ word)) found.items) }
    {
        self.begin(map)?;
        for place in places {
            self.step(map, *place, kind)?;
        }
        self.finish(alloc, map)
    }

    /// Goes over a token of the kind, if it is eaten at a place.
    fn step(&mut self, map: &Map<'_>, place: Place, kind: SyntaxKind) -> Result<(), AllocError>
        ensures { OnOk result (Goes self.old self.new (λ q. (eats (plan_of map.now) place kind ≡ true) × Steps (plan_of map.now) place q)) }
    {
        if kinds_of(map, place).contains(kind) {
            self.go_over(map, place)
        } else {
            Ok(())
        }
    }

    /// Begins a walk.
    fn begin(&mut self, map: &Map<'_>) -> Result<(), RulesError>
        ensures err { IfErr result IsLimit }
        ensures ok { OnOk result (HasReached (plan_of map.now) self.new (λ q. ⊥)) }
    {
        self.reached.clear();
        self.marks.resize(3 * map.rows.len() + 1, 0)?;
        if self.number < u64::MAX {
            self.number += 1;
            Ok(())
        } else {
            Err(RulesError::TooMany)
        }
    }

    /// Reaches a place, once.
    pub(crate) fn push(&mut self, place: Place) -> Result<(), AllocError>
        ensures { OnOk result (Goes self.old self.new (λ q. q ≡ place)) }
    {
        let slot = slot_of(place);
        if slot < self.marks.len() && self.marks[slot] != self.number {
            push(&mut self.reached, place)?;
            self.marks[slot] = self.number;
        }
        Ok(())
    }

    /// Goes on until nothing is new. Returns the places that eat.
    fn finish(&mut self, alloc: Global, map: &Map<'_>) -> Result<Vec<Place>, RulesError>
        requires walks { IsWalking self.old }
        requires len { length self.old.marks.items ≡ slots (length map.now.rows.now) }
        ensures err { IfErr result IsLimit }
        ensures ok { IfOk result (λ places. AreFirst (plan_of map.now) (SeesFrom (plan_of map.now) self.old.reached.items) places.items) }
    {
        self.go_all(map)?;
        let places = eaters(alloc, map, &self.reached)?;
        Ok(places)
    }

    /// Goes on until nothing is new.
    fn go_all(&mut self, map: &Map<'_>) -> Result<(), AllocError>
        requires walks { IsWalking self.old }
        requires len { length self.old.marks.items ≡ slots (length map.now.rows.now) }
        ensures { OnOk result (IsClosed (plan_of map.now) self.old.reached.items self.new.reached.items) }
    {
        let mut done = 0usize;
        while done < self.reached.len() {
            let place = self.reached[done];
            self.go_on(map, place)?;
            done += 1;
        }
        Ok(())
    }
}
