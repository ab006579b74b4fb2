//! Which rules use which.
ghost use Rattle.std.specs.Prelude.{◌≡◌, ℕ, ◌+◌, ◌<◌, ◌≤◌, ◌↔◌, Contains, Some, length, IfOk, IfSome, IsTrue};
ghost use Rattle.rule_grammar.specs.declared.part.Part.TheVariants.{Call};
ghost use Rattle.rule_checks.specs.Empty.{IsArm};
ghost use Rattle.rule_checks.specs.Rows.{row_at};
ghost use Rattle.rule_checks.specs.Rules.{IsCalled, IsRule, Uses};
ghost use Rattle.rule_checks.specs.Sets.{IsSetBelow};
ghost use Rattle.rule_checks.specs.Steps.{After, Lists};

use crate::empty::is_arm;
use crate::rows::{has, next_at, row_at};
use crate::steps::after;
use rule_grammar::Part as Row;
use std::alloc::{AllocError, Global};

/// The first rows of rules.
pub(crate) fn rules(alloc: Global, rows: &[Row]) -> Result<Vec<bool>, AllocError>
    ensures { IfOk result (λ rules. IsSetBelow (length rows.now) (IsRule rows.now) rules.items) }
{
    let mut rules = Vec::new(alloc);
    let mut past = 0;
    for k in 0..rows.len() {
        rules.push(begins_rule(rows, past, k))?;
        past = past.max(next_at(rows, k));
    }
    Ok(rules)
}

/// Whether a row is an arm that no row before it holds: those end at `past`.
fn begins_rule(rows: &[Row], past: usize, k: usize) -> bool
    ensures { IsTrue result ↔ ((past ≤ k) × IsArm (row_at rows.now k)) }
{
    past <= k && is_arm(rows, k)
}

/// The first rows of the rules that are called, through other rules, from the rule of a row.
pub(crate) fn used(
    alloc: Global,
    rows: &[Row],
    rules: &[bool],
    from: usize,
) -> Result<Vec<bool>, AllocError>
    requires { IsSetBelow (length rows.now) (IsRule rows.now) rules.now }
    ensures { IfOk result (λ used. IsSetBelow (length rows.now) (After (Uses rows.now) from) used.items) }
{
    let lists = all_uses(alloc, rows, rules)?;
    after(alloc, &lists, from)
}

/// For each row those whose rules are called in the rule that begins with it.
fn all_uses(alloc: Global, rows: &[Row], rules: &[bool]) -> Result<Vec<Vec<usize>>, AllocError>
    requires { IsSetBelow (length rows.now) (IsRule rows.now) rules.now }
    ensures len { IfOk result (λ lists. length lists.items ≡ length rows.now) }
    ensures is { IfOk result (λ lists. (h r : ℕ) → Lists lists.items h r ↔ Uses rows.now h r) }
{
    let mut lists = Vec::new(alloc);
    for k in 0..rows.len() {
        lists.push(uses(alloc, rows, rules, k)?)?;
    }
    Ok(lists)
}

/// The rows whose rules are called in the rule that begins with a row.
fn uses(alloc: Global, rows: &[Row], rules: &[bool], k: usize) -> Result<Vec<usize>, AllocError>
    requires k { k < length rows.now }
    requires rules { IsSetBelow (length rows.now) (IsRule rows.now) rules.now }
    ensures { IfOk result (λ list. (r : ℕ) → Contains list.items r ↔ Uses rows.now k r) }
{
    if has(rules, k) {
        calls(alloc, rows, k + 1, next_at(rows, k))
    } else {
        Ok(Vec::new(alloc))
    }
}

/// The rows in front of those that are called from one row up to another.
fn calls(alloc: Global, rows: &[Row], start: usize, end: usize) -> Result<Vec<usize>, AllocError>
    requires { start ≤ end }
    ensures { IfOk result (λ list. (r : ℕ) → Contains list.items r ↔ IsCalled rows.now start end r) }
{
    let mut list = Vec::new(alloc);
    for k in start..end {
        if let Some(rule) = called(rows, k) {
            list.push(rule)?;
        }
    }
    Ok(list)
}

/// The row in front of those that a row calls.
fn called(rows: &[Row], k: usize) -> Option<usize>
    ensures is { IfSome result (λ r. (last : ℕ) × row_at rows.now k ≡ Call (r + 1) last) }
    ensures none { (r last : ℕ) → row_at rows.now k ≡ Call (r + 1) last → result ≡ Some r }
{
    match row_at(rows, k) {
        Row::Call { start, .. } => usize::from(start).checked_sub(1),
        _ => None,
    }
}
