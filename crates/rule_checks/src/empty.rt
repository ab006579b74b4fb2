//! Rows that may eat nothing.
ghost use Rattle.std.specs.Prelude.{◌≡◌, ℕ, ◌+◌, ◌<◌, ◌≤◌, ◌↔◌, length, count_by, not, true, false, IfOk, IsTrue};
ghost use Rattle.rule_checks.specs.Empty.{AllHave, EatsNothingBy, Empty, IsArm, IsClosed, SomeArmHas};
ghost use Rattle.rule_checks.specs.Rows.{row_at};
ghost use Rattle.rule_checks.specs.Sets.{IsSetOf, has};

use crate::rows::{has, next_at, row_at};
use rule_grammar::Part as Row;
use std::alloc::{AllocError, Global};

/// The rows that may eat nothing.
pub(crate) fn empties(alloc: Global, rows: &[Row]) -> Result<Vec<bool>, AllocError>
    ensures { IfOk result (λ empties. IsSetOf (Empty rows.now) empties.items) }
{
    let mut empties = vec![in alloc; false; rows.len()]?;
    while add_empties(rows, &mut empties) {}
    Ok(empties)
}

/// Marks rows that eat nothing if marked ones do. Returns whether one is new.
fn add_empties(rows: &[Row], empties: &mut [bool]) -> bool
    requires { length empties.old ≡ length rows.now }
    ensures len { length empties.new ≡ length rows.now }
    ensures sound { ((k : ℕ) → has empties.old k ≡ true → Empty rows.now k) → (k : ℕ) → has empties.new k ≡ true → Empty rows.now k }
    ensures all { result ≡ false → IsClosed rows.now (has empties.new) }
    ensures more { result ≡ true → count_by not empties.new < count_by not empties.old }
{
    let mut is_new = false;
    let mut k = rows.len();
    while k > 0 {
        k -= 1;
        if !empties[k] && eats_nothing(rows, empties, k) {
            empties[k] = true;
            is_new = true;
        }
    }
    is_new
}

/// Whether a row eats nothing if the marked rows do.
fn eats_nothing(rows: &[Row], empties: &[bool], k: usize) -> bool
    requires { k < length rows.now }
    ensures { IsTrue result ↔ EatsNothingBy rows.now (λ m. has empties.now m ≡ true) k }
{
    match row_at(rows, k) {
        Row::Nothing
        | Row::Becomes { .. }
        | Row::Is { .. }
        | Row::Guard { .. }
        | Row::Look { .. }
        | Row::Optional { .. }
        | Row::Repeat { .. } => true,
        Row::Node { end, .. }
        | Row::Arm { end }
        | Row::Tail { end, .. }
        | Row::Some { end }
        | Row::List { end, .. } => all_have(rows, empties, k + 1, end),
        Row::Call { start, end } => all_have(rows, empties, usize::from(start), end),
        Row::Choice { end } | Row::Operators { end } => some_arm_has(rows, empties, k + 1, end),
        Row::Operand { operators, .. } => has(empties, usize::from(operators)),
        Row::Token { .. } | Row::Word { .. } | Row::Class { .. } | Row::Name { .. } => false,
    }
}

/// Whether all rows beside one another, from one up to an end, are marked.
pub(crate) fn all_have(rows: &[Row], marks: &[bool], start: usize, end: u16) -> bool
    ensures { IsTrue result ↔ AllHave rows.now (λ m. has marks.now m ≡ true) start end }
{
    let mut at = start;
    while at < usize::from(end) {
        if !has(marks, at) {
            return false;
        }
        at = next_at(rows, at);
    }
    true
}

/// Whether an arm that stands there is marked.
fn some_arm_has(rows: &[Row], marks: &[bool], start: usize, end: u16) -> bool
    ensures { IsTrue result ↔ SomeArmHas rows.now (λ m. has marks.now m ≡ true) start end }
{
    let mut at = start;
    while at < usize::from(end) {
        if is_arm(rows, at) && has(marks, at) {
            return true;
        }
        at = next_at(rows, at);
    }
    false
}

/// Whether a row is an arm.
pub(crate) fn is_arm(rows: &[Row], k: usize) -> bool
    ensures { IsTrue result ↔ IsArm (row_at rows.now k) }
{
    matches!(rows.get(k), Some(Row::Arm { .. }))
}
