//! Rows that are entered first from a row.
ghost use Rattle.std.specs.Prelude.{◌≡◌, ℕ, ◌<◌, ◌↔◌, Contains, length, true, IfOk, IsTrue};
ghost use Rattle.rule_checks.specs.Empty.{Empty};
ghost use Rattle.rule_checks.specs.Leads.{Begins, Leads};
ghost use Rattle.rule_checks.specs.Rows.{Beside, First, row_at};
ghost use Rattle.rule_checks.specs.Sets.{IsSetOf};
ghost use Rattle.rule_checks.specs.Steps.{Lists};

use crate::rows::{has, next_at, row_at};
use rule_grammar::Part as Row;
use std::alloc::{AllocError, Global};

/// For each row those that are entered first from it.
pub(crate) fn all_leads(
    alloc: Global,
    rows: &[Row],
    empties: &[bool],
) -> Result<Vec<Vec<usize>>, AllocError>
    requires { IsSetOf (Empty rows.now) empties.now }
    ensures len { IfOk result (λ lists. length lists.items ≡ length rows.now) }
    ensures is { IfOk result (λ lists. (k m : ℕ) → Lists lists.items k m ↔ Leads rows.now k m) }
{
    let mut lists = Vec::new(alloc);
    for k in 0..rows.len() {
        lists.push(leads(alloc, rows, empties, k)?)?;
    }
    Ok(lists)
}

/// The rows that are entered first from a row.
fn leads(alloc: Global, rows: &[Row], empties: &[bool], k: usize) -> Result<Vec<usize>, AllocError>
    requires k { k < length rows.now }
    requires empties { IsSetOf (Empty rows.now) empties.now }
    ensures { IfOk result (λ list. (m : ℕ) → Contains list.items m ↔ Leads rows.now k m) }
{
    match row_at(rows, k) {
        Row::Node { end, .. }
        | Row::Arm { end }
        | Row::Tail { end, .. }
        | Row::Optional { end }
        | Row::Repeat { end }
        | Row::Some { end }
        | Row::List { end, .. } => first(alloc, rows, empties, k + 1, end),
        Row::Call { start, end } => first(alloc, rows, empties, usize::from(start), end),
        Row::Choice { end } => begins(alloc, rows, false, k + 1, end),
        Row::Operators { end } => begins(alloc, rows, has(empties, k), k + 1, end),
        Row::Operand { operators, .. } => Ok(vec![in alloc; usize::from(operators)]?),
        _ => Ok(Vec::new(alloc)),
    }
}

/// Of the rows beside one another, from one up to an end, those before which all may be empty.
fn first(
    alloc: Global,
    rows: &[Row],
    empties: &[bool],
    start: usize,
    end: u16,
) -> Result<Vec<usize>, AllocError>
    requires { IsSetOf (Empty rows.now) empties.now }
    ensures { IfOk result (λ list. (m : ℕ) → Contains list.items m ↔ First rows.now (Empty rows.now) end start m) }
{
    let mut list = Vec::new(alloc);
    let mut at = start;
    while at < usize::from(end) {
        list.push(at)?;
        if !has(empties, at) {
            return Ok(list);
        }
        at = next_at(rows, at);
    }
    Ok(list)
}

/// Of the rows beside one another the arms, and the operators too where the operand may be empty.
fn begins(
    alloc: Global,
    rows: &[Row],
    operand_may_be_empty: bool,
    start: usize,
    end: u16,
) -> Result<Vec<usize>, AllocError>
    ensures { IfOk result (λ list. (m : ℕ) → Contains list.items m ↔ (Beside rows.now start end m × Begins (operand_may_be_empty ≡ true) (row_at rows.now m))) }
{
    let mut list = Vec::new(alloc);
    let mut at = start;
    while at < usize::from(end) {
        if begins_at(rows, operand_may_be_empty, at) {
            list.push(at)?;
        }
        at = next_at(rows, at);
    }
    Ok(list)
}

/// Whether a row is an arm, or an operator where the operand may be empty.
fn begins_at(rows: &[Row], operand_may_be_empty: bool, k: usize) -> bool
    ensures { IsTrue result ↔ Begins (operand_may_be_empty ≡ true) (row_at rows.now k) }
{
    match row_at(rows, k) {
        Row::Arm { .. } => true,
        Row::Tail { .. } => operand_may_be_empty,
        _ => false,
    }
}
