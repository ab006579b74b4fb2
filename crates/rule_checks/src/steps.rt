//! What comes after a row, in any number of steps.
ghost use Rattle.std.specs.Prelude.{◌≡◌, ℕ, ◌<◌, ◌≤◌, ◌↔◌, ◌⊎◌, Contains, length, count_by, not, true, false, IfOk, IsTrue};
ghost use Rattle.rule_checks.specs.Sets.{IsSetBelow, has};
ghost use Rattle.rule_checks.specs.Steps.{After, HaveEnded, IsClosedFrom, Lists};

use crate::rows::has;
use std::alloc::{AllocError, Global};

/// The rows after a row, by one or more steps.
pub(crate) fn after(
    alloc: Global,
    lists: &[Vec<usize>],
    from: usize,
) -> Result<Vec<bool>, AllocError>
    ensures { IfOk result (λ marks. IsSetBelow (length lists.now) (After (Lists lists.now) from) marks.items) }
{
    let mut marks = vec![in alloc; false; lists.len()]?;
    while add_after(lists, from, &mut marks) {}
    Ok(marks)
}

/// Marks what the row and marked rows lead to. Returns whether one is new.
fn add_after(lists: &[Vec<usize>], from: usize, marks: &mut [bool]) -> bool
    requires { length marks.old ≡ length lists.now }
    ensures len { length marks.new ≡ length lists.now }
    ensures sound { ((k : ℕ) → k < length lists.now → has marks.old k ≡ true → After (Lists lists.now) from k)
        → (k : ℕ) → k < length lists.now → has marks.new k ≡ true → After (Lists lists.now) from k }
    ensures all { result ≡ false → IsClosedFrom (Lists lists.now) from (has marks.new) }
    ensures more { result ≡ true → count_by not marks.new < count_by not marks.old }
{
    let mut is_new = false;
    for k in 0..lists.len() {
        if mark_next(lists, from, k, marks) {
            is_new = true;
        }
    }
    is_new
}

/// Marks what row `k` leads to, if it is the first one or marked. Returns whether one is new.
fn mark_next(lists: &[Vec<usize>], from: usize, k: usize, marks: &mut [bool]) -> bool
    requires { k < length lists.now }
    ensures len { length marks.new ≡ length marks.old }
    ensures sound { ((m : ℕ) → m < length lists.now → has marks.old m ≡ true → After (Lists lists.now) from m)
        → (m : ℕ) → m < length lists.now → has marks.new m ≡ true → After (Lists lists.now) from m }
    ensures all { (j : ℕ) → (k ≡ from) ⊎ (has marks.old k ≡ true) → Lists lists.now k j → has marks.new j ≡ true }
    ensures none { result ≡ false → marks.new ≡ marks.old }
    ensures more { result ≡ true → count_by not marks.new < count_by not marks.old }
{
    if k == from || has(marks, k) {
        mark_all(&lists[k], marks)
    } else {
        false
    }
}

/// Marks the rows of a list. Returns whether one is new.
fn mark_all(list: &[usize], marks: &mut [bool]) -> bool
    ensures len { length marks.new ≡ length marks.old }
    ensures marked { (k : ℕ) → has marks.new k ≡ true ↔ ((has marks.old k ≡ true) ⊎ Contains list.now k) }
    ensures none { result ≡ false → marks.new ≡ marks.old }
    ensures more { result ≡ true → count_by not marks.new < count_by not marks.old }
{
    let mut is_new = false;
    for k in list {
        if !has(marks, *k) {
            marks[*k] = true;
            is_new = true;
        }
    }
    is_new
}

/// Whether a row comes after itself. Marked are rows that don't.
pub(crate) fn comes_back(
    alloc: Global,
    lists: &[Vec<usize>],
    ended: &[bool],
    k: usize,
) -> Result<bool, AllocError>
    requires k { k < length lists.now }
    requires ended { HaveEnded lists.now ended.now }
    ensures { IfOk result (λ back. IsTrue back ↔ After (Lists lists.now) k k) }
{
    if has(ended, k) {
        return Ok(false);
    }
    let marks = after(alloc, lists, k)?;
    Ok(has(&marks, k))
}

/// Rows from which all steps end: none of them comes after itself.
pub(crate) fn ended(alloc: Global, lists: &[Vec<usize>]) -> Result<Vec<bool>, AllocError>
    ensures { IfOk result (λ marks. HaveEnded lists.now marks.items) }
{
    let mut marks = vec![in alloc; false; lists.len()]?;
    for _ in 0..lists.len() {
        if !add_ended(lists, &mut marks) {
            break;
        }
    }
    Ok(marks)
}

/// Marks rows that lead to none but marked ones. Returns whether one is new.
fn add_ended(lists: &[Vec<usize>], marks: &mut [bool]) -> bool
    requires { length marks.old ≡ length lists.now }
    ensures len { length marks.new ≡ length lists.now }
    ensures ended { HaveEnded lists.now marks.old → HaveEnded lists.now marks.new }
{
    let mut is_new = false;
    let mut k = lists.len();
    while k > 0 {
        k -= 1;
        if !marks[k] && all_marked(&lists[k], marks) {
            marks[k] = true;
            is_new = true;
        }
    }
    is_new
}

/// Whether all rows of a list are marked.
fn all_marked(list: &[usize], marks: &[bool]) -> bool
    ensures { IsTrue result ↔ ((k : ℕ) → Contains list.now k → has marks.now k ≡ true) }
{
    list.iter().all(|k| has(marks, *k))
}
