//! What decides between arms or operators: the tokens that come.
ghost use Rattle.std.specs.Prelude.{◌≡◌, ◌<◌, IfErr, IfOk, OnOk, length, slice_get};
ghost use Rattle.rule_tables.specs.Limits.{IsLimit};
ghost use Rattle.rule_tables.specs.Places.{Sees, leads_as, led_to};
ghost use Rattle.rule_tables.specs.Sets.{Extends};
ghost use Rattle.rule_tables.specs.Strands.{AddsStrand, AreDecidedBy, AreListed, AreWaysDecided, ComesOn, IsIn, IsWayUndecided};
ghost use Rattle.rule_tables.specs.Walks.{plan_of};

use crate::error::RulesError;
use crate::looks::Looks;
use crate::map::Map;
use crate::moves::{leads_as, led_to};
use crate::place::Way;
use crate::sets::push;
use crate::strands::{Open, Strand, first_open, strand_of};
use crate::trail::Trail;
use rule_parts::Part;

impl Looks {
    /// Adds the looks of all arms and operators. Returns the first that four tokens don't decide.
    pub(crate) fn decide_all(
        &mut self,
        parts: &[Part<'_>],
        map: &Map<'_>,
    ) -> Result<Option<Open>, RulesError>
        ensures err { IfErr result IsLimit }
        ensures ok { IfOk result (λ found. AreWaysDecided (plan_of map.now) parts.now (length map.now.rows.now) found) }
        ensures keeps { OnOk result (Extends self.old.sets.list.items self.new.sets.list.items) }
    {
        self.ends.resize(map.rows.len(), [0, 0])?;
        let mut undecided: Option<Open> = None;
        for row in 0..map.rows.len() {
            let found = self.decide_row(parts, map, row)?;
            undecided = first_open(undecided, found);
        }
        Ok(undecided)
    }

    /// The same of those in a row.
    fn decide_row(
        &mut self,
        parts: &[Part<'_>],
        map: &Map<'_>,
        row: usize,
    ) -> Result<Option<Open>, RulesError>
        requires { row < length map.now.rows.now }
        ensures err { IfErr result IsLimit }
        ensures arms { IfOk result (AreDecidedBy (plan_of map.now) parts.now (ComesOn (plan_of map.now) Way.Arm row) 4) }
        ensures tails { IfOk result (AreDecidedBy (plan_of map.now) parts.now (ComesOn (plan_of map.now) Way.Tail row) 4) }
        ensures told { IfOk result (IsWayUndecided (plan_of map.now) parts.now) }
        ensures keeps { OnOk result (Extends self.old.sets.list.items self.new.sets.list.items) }
    {
        let Some(_) = map.last_to(row) else {
            return Ok(None);
        };
        let arm = self.decide_ways(parts, map, row, Way::Arm)?;
        let tail = self.decide_ways(parts, map, row, Way::Tail)?;
        Ok(first_open(arm, tail))
    }

    /// The same of the arms or operators.
    fn decide_ways(
        &mut self,
        parts: &[Part<'_>],
        map: &Map<'_>,
        row: usize,
        way: Way,
    ) -> Result<Option<Open>, RulesError>
        requires way { IsIn way }
        requires row { row < length map.now.rows.now }
        ensures err { IfErr result IsLimit }
        ensures ok { IfOk result (AreDecidedBy (plan_of map.now) parts.now (ComesOn (plan_of map.now) way row) 4) }
        ensures told { IfOk result (IsWayUndecided (plan_of map.now) parts.now) }
        ensures keeps { OnOk result (Extends self.old.sets.list.items self.new.sets.list.items) }
    {
        let strands = self.ways(map, row, way)?;
        self.decide(parts, map, &strands, &Trail::none())
    }

    /// The strands of the arms or operators in a row.
    fn ways(&mut self, map: &Map<'_>, row: usize, way: Way) -> Result<Vec<Strand>, RulesError>
        requires { row < length map.now.rows.now }
        ensures err { IfErr result IsLimit }
        ensures ok { IfOk result (λ strands. AreListed (plan_of map.now) (ComesOn (plan_of map.now) way row) strands.items) }
        ensures keeps { OnOk result (Extends self.old.sets.list.items self.new.sets.list.items) }
    {
        let mut strands = Vec::new(self.alloc);
        let mut at = map.last_to(row);
        while let Some(led) = at {
            self.push_way(map, led, way, &mut strands)?;
            at = map.earlier(led);
        }
        Ok(strands)
    }

    /// Adds the strand of a row, if it leads so.
    fn push_way(
        &mut self,
        map: &Map<'_>,
        row: usize,
        way: Way,
        strands: &mut Vec<Strand>,
    ) -> Result<(), RulesError>
        requires { row < length map.now.rows.now }
        ensures err { IfErr result IsLimit }
        ensures ok { OnOk result (AddsStrand (plan_of map.now) (leads_as way (slice_get map.now.rows.now row)) (Sees (plan_of map.now) (led_to way row)) row strands.old.items strands.new.items) }
        ensures keeps { OnOk result (Extends self.old.sets.list.items self.new.sets.list.items) }
    {
        if leads_as(way, &map.rows[row]) {
            let places = self.walk.from(self.alloc, map, led_to(way, row))?;
            push(strands, strand_of(map, row, places))?;
        }
        Ok(())
    }
}
