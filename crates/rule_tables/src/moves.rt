//! Where parsing goes from a place, without eating.
ghost use Rattle.std.specs.Prelude.{◌≡◌, ◌<◌, ◌⊎◌, OnOk, Some, length, slice_get, true};
ghost use Rattle.rule_tables.specs.Places.{Begins, EndsWay, EndsWayIn, Enters, Exits, GoesOnIn, IsBefore, IsLed, Leaves, Moves, Returns, Steps, first_in, leads_as, led_to, outer_of};
ghost use Rattle.rule_tables.specs.Walks.{Goes, IsLedWithin, plan_of};

use crate::map::Map;
use crate::place::{Place, Way};
use crate::walk::Walk;
use rule_grammar::Part as Row;
use std::alloc::AllocError;

impl Walk {
    /// Goes on from a place.
    pub(crate) fn go_on(&mut self, map: &Map<'_>, place: Place) -> Result<(), AllocError>
        ensures { OnOk result (Goes self.old self.new (Moves (plan_of map.now) place)) }
    {
        match place {
            Place::Before(row) => match map.rows.get(row) {
                Some(part) => self.enter(map, row, part),
                None => Ok(()),
            },
            Place::After(row) => match map.rows.get(row) {
                Some(part) => self.exit(map, row, part),
                None => Ok(()),
            },
            Place::Separator(_) => Ok(()),
            Place::End => Ok(()),
        }
    }

    /// Goes over the token that is eaten at a place.
    pub(crate) fn go_over(&mut self, map: &Map<'_>, place: Place) -> Result<(), AllocError>
        ensures { OnOk result (Goes self.old self.new (Steps (plan_of map.now) place)) }
    {
        match place {
            Place::Before(row) => self.push(Place::After(row)),
            Place::After(_) => Ok(()),
            Place::Separator(row) => self.go_in(map, row),
            Place::End => self.push(Place::End),
        }
    }

    /// Goes on from before a part.
    fn enter(&mut self, map: &Map<'_>, row: usize, part: &Row) -> Result<(), AllocError>
        ensures { OnOk result (Goes self.old self.new (Enters map.now.rows.now row (Some part.now))) }
    {
        match part {
            Row::Token { .. } => Ok(()),
            Row::Word { .. } => Ok(()),
            Row::Class { .. } => Ok(()),
            Row::Name { .. } => Ok(()),
            Row::Choice { .. } => self.arms(map, row),
            Row::Operators { .. } => self.arms(map, row),
            Row::Operand { operators, .. } => self.arms(map, usize::from(*operators)),
            Row::Optional { .. } => self.pass_or_go_in(map, row),
            Row::Repeat { .. } => self.pass_or_go_in(map, row),
            Row::Call { start, .. } => self.go_in(map, usize::from(*start).saturating_sub(1)),
            Row::Becomes { .. } => self.push(Place::After(row)),
            Row::Is { .. } => self.push(Place::After(row)),
            Row::Guard { .. } => self.push(Place::After(row)),
            Row::Look { .. } => self.push(Place::After(row)),
            Row::Nothing => self.push(Place::After(row)),
            Row::Node { .. } => self.go_in(map, row),
            Row::Arm { .. } => self.go_in(map, row),
            Row::Some { .. } => self.go_in(map, row),
            Row::List { .. } => self.go_in(map, row),
            Row::Tail { .. } => self.go_in(map, row),
        }
    }

    /// Goes past a part, and into it.
    fn pass_or_go_in(&mut self, map: &Map<'_>, row: usize) -> Result<(), AllocError>
        ensures { OnOk result (Goes self.old self.new (λ q. (q ≡ Place.After row) ⊎ Begins map.now.rows.now row (first_in map.now.rows.now row) q)) }
    {
        self.push(Place::After(row))?;
        self.go_in(map, row)
    }

    /// Goes to the first of the rows in one, or out of it if there is none.
    fn go_in(&mut self, map: &Map<'_>, row: usize) -> Result<(), AllocError>
        ensures { OnOk result (Goes self.old self.new (Begins map.now.rows.now row (first_in map.now.rows.now row))) }
    {
        match map.first(row) {
            Some(first) => self.push(Place::Before(first)),
            None => self.leave(map, row),
        }
    }

    /// Goes out of a row.
    fn leave(&mut self, map: &Map<'_>, row: usize) -> Result<(), AllocError>
        ensures { OnOk result (Goes self.old self.new (Leaves map.now.rows.now row (slice_get map.now.rows.now row))) }
    {
        match map.rows.get(row) {
            Some(part) => self.leave_part(map, row, part),
            None => Ok(()),
        }
    }

    fn leave_part(&mut self, map: &Map<'_>, row: usize, part: &Row) -> Result<(), AllocError>
        ensures { OnOk result (Goes self.old self.new (Leaves map.now.rows.now row (Some part.now))) }
    {
        match part {
            Row::Repeat { .. } => self.again(map, row),
            Row::Some { .. } => self.again(map, row),
            Row::List { .. } => {
                self.push(Place::Separator(row))?;
                self.push(Place::After(row))
            }
            _ => self.push(Place::After(row)),
        }
    }

    /// Goes to the first of the rows in one again, and after it.
    fn again(&mut self, map: &Map<'_>, row: usize) -> Result<(), AllocError>
        ensures { OnOk result (Goes self.old self.new (λ q. IsBefore (first_in map.now.rows.now row) q ⊎ (q ≡ Place.After row))) }
    {
        match map.first(row) {
            Some(first) => {
                self.push(Place::Before(first))?;
                self.push(Place::After(row))
            }
            None => self.push(Place::After(row)),
        }
    }

    /// Goes on from after a part.
    fn exit(&mut self, map: &Map<'_>, row: usize, part: &Row) -> Result<(), AllocError>
        requires { row < length map.now.rows.now }
        ensures { OnOk result (Goes self.old self.new (Exits (plan_of map.now) row (Some part.now))) }
    {
        match part {
            Row::Arm { .. } => self.end_way(map, row),
            Row::Tail { .. } => self.end_way(map, row),
            _ => self.next(map, row),
        }
    }

    /// Goes to the next row in the same one, or out of that.
    fn next(&mut self, map: &Map<'_>, row: usize) -> Result<(), AllocError>
        requires { row < length map.now.rows.now }
        ensures { OnOk result (Goes self.old self.new (GoesOnIn map.now.rows.now row (outer_of map.now.rows.now row))) }
    {
        match map.outer(row) {
            Some(outer) => match map.next(row, outer) {
                Some(next) => self.push(Place::Before(next)),
                None => self.leave(map, outer),
            },
            None => Ok(()),
        }
    }

    /// Goes on after an arm, an operator or a rule.
    fn end_way(&mut self, map: &Map<'_>, row: usize) -> Result<(), AllocError>
        requires { row < length map.now.rows.now }
        ensures { OnOk result (Goes self.old self.new (EndsWayIn (plan_of map.now) row (outer_of map.now.rows.now row))) }
    {
        match map.outer(row) {
            Some(outer) => self.end_way_in(map, row, outer),
            None => self.give_back(map, row),
        }
    }

    fn end_way_in(&mut self, map: &Map<'_>, row: usize, outer: usize) -> Result<(), AllocError>
        requires { row < length map.now.rows.now }
        ensures { OnOk result (Goes self.old self.new (EndsWay (plan_of map.now) row outer (slice_get map.now.rows.now outer))) }
    {
        match map.rows.get(outer) {
            Some(part) => self.end_way_of(map, row, outer, part),
            None => self.give_back(map, row),
        }
    }

    fn end_way_of(
        &mut self,
        map: &Map<'_>,
        row: usize,
        outer: usize,
        part: &Row,
    ) -> Result<(), AllocError>
        requires row { row < length map.now.rows.now }
        requires outer { outer < length map.now.rows.now }
        ensures { OnOk result (Goes self.old self.new (EndsWay (plan_of map.now) row outer (Some part.now))) }
    {
        match part {
            Row::Choice { .. } => self.push(Place::After(outer)),
            Row::Operators { .. } => self.end_operand(map, outer),
            _ => self.give_back(map, row),
        }
    }

    /// Goes on after an operand: to the operators after it, and to where it is called.
    fn end_operand(&mut self, map: &Map<'_>, row: usize) -> Result<(), AllocError>
        requires { row < length map.now.rows.now }
        ensures { OnOk result (Goes self.old self.new (λ q. (q ≡ Place.After row) ⊎ (IsLed map.now.rows.now Way.Tail row q ⊎ Returns (plan_of map.now) row q))) }
    {
        self.push(Place::After(row))?;
        self.lead(map, row, Way::Tail)?;
        self.give_back(map, row)
    }

    /// Goes on after each call of a row.
    fn give_back(&mut self, map: &Map<'_>, row: usize) -> Result<(), AllocError>
        requires { row < length map.now.rows.now }
        ensures { OnOk result (Goes self.old self.new (Returns (plan_of map.now) row)) }
    {
        self.lead(map, row, Way::Call)?;
        if row == map.start {
            self.push(Place::End)
        } else {
            Ok(())
        }
    }

    /// Goes to the arms in a row.
    fn arms(&mut self, map: &Map<'_>, row: usize) -> Result<(), AllocError>
        ensures { OnOk result (Goes self.old self.new (IsLed map.now.rows.now Way.Arm row)) }
    {
        self.lead_within(map, row, Way::Arm)
    }

    /// Goes to the places of the rows that lead so to a row.
    fn lead(&mut self, map: &Map<'_>, row: usize, way: Way) -> Result<(), AllocError>
        requires { row < length map.now.rows.now }
        ensures { OnOk result (Goes self.old self.new (IsLed map.now.rows.now way row)) }
    {
        self.lead_within(map, row, way)
    }

    /// Goes to the places of the rows that lead so to a row, if there is such a row.
    fn lead_within(&mut self, map: &Map<'_>, row: usize, way: Way) -> Result<(), AllocError>
        ensures { OnOk result (Goes self.old self.new (IsLedWithin map.now.rows.now way row)) }
    {
        if row >= map.rows.len() {
            return Ok(());
        }
        let mut at = map.last_to(row);
        while let Some(led) = at {
            self.push_way(map, led, way)?;
            at = map.earlier(led);
        }
        Ok(())
    }

    /// Goes to the place of a row, if it leads so.
    fn push_way(&mut self, map: &Map<'_>, row: usize, way: Way) -> Result<(), AllocError>
        requires { row < length map.now.rows.now }
        ensures { OnOk result (Goes self.old self.new (λ q. (leads_as way (slice_get map.now.rows.now row) ≡ true) × (q ≡ led_to way row))) }
    {
        if leads_as(way, &map.rows[row]) {
            self.push(led_to(way, row))
        } else {
            Ok(())
        }
    }
}

/// Whether a row leads so to another.
pub(crate) fn leads_as(way: Way, row: &Row) -> bool
    ensures { result ≡ leads_as way (Some row.now) }
{
    match way {
        Way::Arm => matches!(row, Row::Arm { .. }),
        Way::Tail => matches!(row, Row::Tail { .. }),
        Way::Call => matches!(row, Row::Call { .. } | Row::Operand { .. }),
    }
}

/// The place that a row leads to.
pub(crate) fn led_to(way: Way, row: usize) -> Place
    ensures { result ≡ led_to way row }
{
    match way {
        Way::Arm => Place::Before(row),
        Way::Tail => Place::Before(row),
        Way::Call => Place::After(row),
    }
}
