//! The first row with a fault.
ghost use Rattle.std.specs.Prelude.{◌≡◌, ℕ, ◌<◌, ◌↔◌, length, IfOk, IsTrue};
ghost use Rattle.rule_checks.specs.Empty.{Empty, IsEmptyRepeat};
ghost use Rattle.rule_checks.specs.Leads.{IsCall, IsLeftRecursive, Leads};
ghost use Rattle.rule_checks.specs.Rows.{row_at};
ghost use Rattle.rule_checks.specs.Rules.{IsUnreached};
ghost use Rattle.rule_checks.specs.Sets.{IsFirst, IsSetOf};
ghost use Rattle.rule_checks.specs.Steps.{HaveEnded, Lists};

use crate::empty::{all_have, empties};
use crate::leads::all_leads;
use crate::rows::{has, row_at};
use crate::rules::{rules, used};
use crate::steps::{comes_back, ended};
use rule_grammar::Part as Row;
use std::alloc::{AllocError, Global};

/// The first row that repeats what may eat nothing.
pub fn empty_repeat(alloc: Global, rows: &[Row]) -> Result<Option<usize>, AllocError>
    ensures { IfOk result (IsFirst (length rows.now) (IsEmptyRepeat rows.now)) }
{
    let empties = empties(alloc, rows)?;
    for k in 0..rows.len() {
        if repeats_nothing(rows, &empties, k) {
            return Ok(Some(k));
        }
    }
    Ok(None)
}

fn repeats_nothing(rows: &[Row], empties: &[bool], k: usize) -> bool
    requires k { k < length rows.now }
    requires empties { IsSetOf (Empty rows.now) empties.now }
    ensures { IsTrue result ↔ IsEmptyRepeat rows.now k }
{
    match row_at(rows, k) {
        Row::Repeat { end } | Row::Some { end } | Row::List { end, .. } => {
            all_have(rows, empties, k + 1, end)
        }
        _ => false,
    }
}

/// The first row that calls a rule from which parsing comes back to it without eating.
pub fn left_recursive(alloc: Global, rows: &[Row]) -> Result<Option<usize>, AllocError>
    ensures { IfOk result (IsFirst (length rows.now) (IsLeftRecursive rows.now)) }
{
    let empties = empties(alloc, rows)?;
    let leads = all_leads(alloc, rows, &empties)?;
    let ended = ended(alloc, &leads)?;
    for k in 0..rows.len() {
        if is_left_recursive(alloc, rows, &leads, &ended, k)? {
            return Ok(Some(k));
        }
    }
    Ok(None)
}

fn is_left_recursive(
    alloc: Global,
    rows: &[Row],
    leads: &[Vec<usize>],
    ended: &[bool],
    k: usize,
) -> Result<bool, AllocError>
    requires k { k < length leads.now }
    requires leads { (i j : ℕ) → Lists leads.now i j ↔ Leads rows.now i j }
    requires ended { HaveEnded leads.now ended.now }
    ensures { IfOk result (λ found. IsTrue found ↔ IsLeftRecursive rows.now k) }
{
    if is_call(rows, k) {
        comes_back(alloc, leads, ended, k)
    } else {
        Ok(false)
    }
}

fn is_call(rows: &[Row], k: usize) -> bool
    ensures { IsTrue result ↔ IsCall (row_at rows.now k) }
{
    matches!(row_at(rows, k), Row::Call { .. } | Row::Operand { .. })
}

/// The first row of the first rule that neither is the file's nor is called, through other rules, from it. The file's
/// begins at row `file`.
pub fn unreached(alloc: Global, rows: &[Row], file: usize) -> Result<Option<usize>, AllocError>
    ensures { IfOk result (IsFirst (length rows.now) (IsUnreached rows.now file)) }
{
    let rules = rules(alloc, rows)?;
    let used = used(alloc, rows, &rules, file)?;
    for k in 0..rows.len() {
        if has(&rules, k) && k != file && !has(&used, k) {
            return Ok(Some(k));
        }
    }
    Ok(None)
}
