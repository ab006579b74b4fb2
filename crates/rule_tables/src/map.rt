//! How rows stand in one another, and lead to one another.
ghost use Rattle.std.specs.Prelude.{◌≡◌, ℕ, ◌+◌, ◌<◌, ◌≤◌, List, Some, IfOk, length, slice_get, true};
ghost use Rattle.std.proofs.Props.{props};
ghost use Rattle.rule_grammar.specs.declared.part.Part.{Part};
ghost use Rattle.rule_tables.specs.Places.{end_at, end_in, first_in, goal_of, last_below, next_in, outer_of};
ghost use Rattle.rule_tables.specs.Maps.{AreLinked, AreOuters, at_goal, known_at, leads_to, with_goal};

use crate::sets::push;
use rule_grammar::Part as Row;
use squawk_kinds::TokenSet;
use std::alloc::{AllocError, Global};

/// Rows, and how they stand in one another.
#[derive(Drop)]
pub(crate) struct Map<'m> {
    pub(crate) rows: &'m [Row],
    pub(crate) sets: &'m [TokenSet],
    /// The row of the header of the rule of a file.
    pub(crate) start: usize,
    /// The row that each row is in.
    outers: Vec<Option<usize>>,
    /// The last row that leads to each row.
    lasts: Vec<Option<usize>>,
    /// The row before each row that leads to the same row.
    earlier: Vec<Option<usize>>,
    ghost few: { length rows.now ≤ 65535 },
    ghost nested: { AreOuters rows.now outers.items (length rows.now) } by { Prim.hlevel props },
    ghost linked: { AreLinked rows.now lasts.items earlier.items (length rows.now) } by { Prim.hlevel props },
}

impl<'m> Map<'m> {
    /// The map of these rows.
    pub(crate) fn new(
        alloc: Global,
        rows: &'m [Row],
        sets: &'m [TokenSet],
        start: usize,
    ) -> Result<Map<'m>, AllocError>
        requires { length rows.now ≤ 65535 }
        ensures rows { IfOk result (λ map. map.rows.now ≡ rows.now) }
        ensures sets { IfOk result (λ map. map.sets.now ≡ sets.now) }
        ensures start { IfOk result (λ map. map.start ≡ start) }
    {
        let outers = outers_of(alloc, rows)?;
        let Links { lasts, earlier } = links_of(alloc, rows, &outers)?;
        Ok(Map {
            rows,
            sets,
            start,
            outers,
            lasts,
            earlier,
        })
    }

    /// The row that a row is in.
    pub(crate) fn outer(&self, row: usize) -> Option<usize>
        ensures { row < length self.now.rows.now → result ≡ outer_of self.now.rows.now row }
    {
        read(&self.outers, row)
    }

    /// The first row in one.
    pub(crate) fn first(&self, row: usize) -> Option<usize>
        ensures { result ≡ first_in self.now.rows.now row }
    {
        let first = row.saturating_add(1);
        if first < end_at(self.rows, row) {
            Some(first)
        } else {
            None
        }
    }

    /// The row after a row in the same one.
    pub(crate) fn next(&self, row: usize, outer: usize) -> Option<usize>
        ensures { result ≡ next_in self.now.rows.now row outer }
    {
        let next = end_at(self.rows, row).max(row.saturating_add(1));
        if next < end_at(self.rows, outer) {
            Some(next)
        } else {
            None
        }
    }

    /// The last row that leads to one.
    pub(crate) fn last_to(&self, row: usize) -> Option<usize>
        ensures { row < length self.now.rows.now → result ≡ last_below (leads_to self.now.rows.now row) (length self.now.rows.now) }
    {
        read(&self.lasts, row)
    }

    /// The row before a row that leads to the same one.
    pub(crate) fn earlier(&self, row: usize) -> Option<usize>
        ensures { (h : ℕ) → row < length self.now.rows.now → h < length self.now.rows.now → leads_to self.now.rows.now h row ≡ true → result ≡ last_below (leads_to self.now.rows.now h) row }
    {
        read(&self.earlier, row)
    }
}

fn read(list: &[Option<usize>], index: usize) -> Option<usize>
    ensures { result ≡ known_at (slice_get list.now index) }
{
    match list.get(index) {
        Some(found) => *found,
        None => None,
    }
}

/// The row after the last one in a row, or 0.
pub(crate) fn end_at(rows: &[Row], row: usize) -> usize
    ensures { result ≡ end_at rows.now row }
{
    match rows.get(row) {
        Some(part) => usize::from(end_of(part)),
        None => 0,
    }
}

fn end_of(row: &Row) -> u16
    ensures { result ≡ end_in (Some row.now) }
{
    match row {
        Row::Node { end, .. } => *end,
        Row::Choice { end } => *end,
        Row::Arm { end } => *end,
        Row::Optional { end } => *end,
        Row::Repeat { end } => *end,
        Row::Some { end } => *end,
        Row::List { end, .. } => *end,
        Row::Operators { end } => *end,
        Row::Is { end } => *end,
        Row::Look { end } => *end,
        Row::Tail { end, .. } => *end,
        _ => 0,
    }
}

/// The row that each row is in.
fn outers_of(alloc: Global, rows: &[Row]) -> Result<Vec<Option<usize>>, AllocError>
    ensures { IfOk result (λ outers. AreOuters rows.now outers.items (length rows.now)) }
{
    let mut outers = Vec::new(alloc);
    for index in 0..rows.len() {
        let outer = outer_of(rows, &outers, index);
        push(&mut outers, outer)?;
    }
    Ok(outers)
}

/// The row that a row is in, by those that the rows before it are in.
fn outer_of(rows: &[Row], outers: &[Option<usize>], index: usize) -> Option<usize>
    requires { AreOuters rows.now outers.now index }
    ensures { result ≡ outer_of rows.now index }
{
    let mut at = index.checked_sub(1);
    while let Some(row) = at {
        if index < end_at(rows, row) {
            return Some(row);
        }
        at = outers[row];
    }
    None
}

/// Which rows lead to which.
#[derive(Drop)]
struct Links {
    lasts: Vec<Option<usize>>,
    earlier: Vec<Option<usize>>,
}

fn links_of(alloc: Global, rows: &[Row], outers: &[Option<usize>]) -> Result<Links, AllocError>
    requires { AreOuters rows.now outers.now (length rows.now) }
    ensures { IfOk result (λ links. AreLinked rows.now links.lasts.items links.earlier.items (length rows.now)) }
{
    let mut lasts = Vec::new(alloc);
    lasts.resize(rows.len(), None)?;
    let mut earlier = Vec::new(alloc);
    for (index, row) in rows.iter().enumerate() {
        let before = link(&mut lasts, goal_of(row, outers[index]), index);
        push(&mut earlier, before)?;
    }
    Ok(Links { lasts, earlier })
}

/// The row that a row leads to, by that which it is in.
fn goal_of(row: &Row, outer: Option<usize>) -> Option<usize>
    ensures { (rows : List Part) → (k : ℕ) → outer ≡ outer_of rows k → result ≡ goal_of rows k (Some row.now) }
{
    match row {
        Row::Arm { .. } => outer,
        Row::Tail { .. } => outer,
        Row::Call { start, .. } => Some(usize::from(*start).saturating_sub(1)),
        Row::Operand { operators, .. } => Some(usize::from(*operators)),
        _ => None,
    }
}

/// Notes that a row leads to another. Returns the last one before that leads to the same.
fn link(lasts: &mut Vec<Option<usize>>, goal: Option<usize>, row: usize) -> Option<usize>
    ensures new { lasts.new.items ≡ with_goal goal row lasts.old.items }
    ensures last { result ≡ at_goal goal lasts.old.items }
{
    match goal {
        Some(goal) => {
            if goal < lasts.len() {
                let last = lasts[goal];
                lasts[goal] = Some(row);
                last
            } else {
                None
            }
        }
        None => None,
    }
}
