//! The lengths of operators, without a pass over each.
//!
//! An operator's run of joint kinds ends at some token, or at the limit. The last special kind before
//! that end and the last kind that is no sign then decide its length.
ghost use Rattle.std.specs.Prelude.{◌≡◌, ◌*◌, ◌+◌, ◌<◌, ◌≤◌, ◌↔◌, ℕ, length, not, IfOk, IsTrue, if◌then◌else◌};
ghost use Rattle.squawk_kinds.specs.TokenSets.{has};
ghost use Rattle.squawk_parser.specs.LookAhead.{seen_from};
ghost use Rattle.squawk_parser.specs.Operators.{is_special, operator_length, joint_run};
ghost use Rattle.squawk_parser.specs.OperatorRuns.{AreEnds, ArePastLast, AreRunsOf, IsInRun, is_no_sign};

use crate::parser::operator_names::{is_sign, is_special};
use squawk_kinds::TokenSet;
use squawk_table::Input;
use std::alloc::{AllocError, Global};

/// Three numbers for each token of an input.
#[derive(Drop)]
pub(super) struct OperatorRuns {
    operator_first: TokenSet,
    /// The index past the run of joint operator kinds that starts at the token.
    ends: Vec<u32>,
    /// The index past the last special kind of the tokens up to this one.
    past_specials: Vec<u32>,
    /// The index past the last kind that is no sign, of the tokens up to this one.
    past_others: Vec<u32>,
}

impl OperatorRuns {
    /// Makes the numbers of an input, for operators of these kinds, in two passes.
    pub(super) fn new(
        alloc: Global,
        input: &Input,
        operator_first: &TokenSet,
    ) -> Result<OperatorRuns, AllocError>
        requires { length input.now ≤ u32.MAX }
        ensures { IfOk result (λ runs. AreRunsOf runs input.now) }
    {
        let ends = run_ends(alloc, input, operator_first)?;
        let (past_specials, past_others) = past_last(alloc, input)?;
        Ok(OperatorRuns {
            operator_first: *operator_first,
            ends,
            past_specials,
            past_others,
        })
    }

    /// Whether the numbers are those of operators of these kinds.
    pub(super) fn are_of(&self, operator_first: &TokenSet) -> bool
        ensures { IsTrue result ↔ self.now.operator_first ≡ operator_first.now }
    {
        self.operator_first == *operator_first
    }

    /// The number of tokens before token `limit` that the operator at token `start` has.
    pub(super) fn operator_len(&self, input: &Input, start: usize, limit: usize) -> usize
        requires runs { AreRunsOf self.now input.now }
        requires limit { limit ≤ length input.now }
        ensures { result ≡ operator_length (has self.now.operator_first) (seen_from input.now limit start) }
    {
        if start >= limit {
            return 0;
        }
        let end = limit.min(self.ends[start] as usize);
        if end <= start {
            return 0;
        }
        let last = end - 1;
        if self.past_specials[last] as usize > start {
            return end - start;
        }
        let past_other = self.past_others[last] as usize;
        if past_other > start {
            past_other - start
        } else {
            1
        }
    }
}

/// For each token the index past the run of joint operator kinds that starts there.
fn run_ends(alloc: Global, input: &Input, operator_first: &TokenSet) -> Result<Vec<u32>, AllocError>
    requires { length input.now ≤ u32.MAX }
    ensures { IfOk result (λ ends. AreEnds (has operator_first.now) input.now ends.items) }
{
    let len = input.len();
    let mut ends = vec![in alloc; 0; len]?;
    let mut end = len;
    for index in (0..len).rev() {
        if !operator_first.contains(input.kind(index)) {
            end = index;
        } else if !input.is_joint(index) {
            end = index + 1;
        }
        ends[index] = end as u32;
    }
    Ok(ends)
}

/// For each token the index past the last special kind up to it, and past the last kind that is no sign.
fn past_last(alloc: Global, input: &Input) -> Result<(Vec<u32>, Vec<u32>), AllocError>
    requires { length input.now ≤ u32.MAX }
    ensures specials { IfOk result (λ pasts. ArePastLast is_special input.now (length input.now) pasts.0.items) }
    ensures others { IfOk result (λ pasts. ArePastLast is_no_sign input.now (length input.now) pasts.1.items) }
{
    let len = input.len();
    let mut past_specials = Vec::with_capacity(alloc, len)?;
    let mut past_others = Vec::with_capacity(alloc, len)?;
    let mut past_special = 0;
    let mut past_other = 0;
    for i in 0..len {
        let kind = input.kind(i);
        past_special = past(i, is_special(kind), past_special);
        past_other = past(i, !is_sign(kind), past_other);
        past_specials.push_reserved(past_special);
        past_others.push_reserved(past_other);
    }
    Ok((past_specials, past_others))
}

/// The index past the last token up to token `i` that passes a test: past `i` if that one does, else `before`.
fn past(i: usize, passes: bool, before: u32) -> u32
    requires { i < u32.MAX }
    ensures { result ≡ (if passes then i + 1 else before) }
{
    if passes { i as u32 + 1 } else { before }
}

/// The number of tokens that are tested together.
const BLOCK: usize = 16;

/// Whether an operator of these kinds may be long. If not, each has fewer than 32 tokens.
///
/// A run of 32 tokens has a whole block in which each is joint with the next.
pub(super) fn has_long_run(input: &Input, operator_first: &TokenSet) -> bool
    requires { length input.now ≤ u32.MAX }
    ensures { IsTrue (not result) → (limit start : ℕ) → limit ≤ length input.now
        → length (joint_run (has operator_first.now) (seen_from input.now limit start)) < 32 }
{
    for block in 0..input.len() / BLOCK {
        if is_in_run(input, block * BLOCK, operator_first) {
            return true;
        }
    }
    false
}

/// Whether each token of the block at `start` has an operator's kind and is joint with the next.
fn is_in_run(input: &Input, start: usize, operator_first: &TokenSet) -> bool
    requires few { length input.now ≤ u32.MAX }
    requires within { start + BLOCK ≤ length input.now }
    ensures { IsTrue result ↔ IsInRun (has operator_first.now) input.now start }
{
    for i in start..start + BLOCK {
        if !input.is_joint(i) || !operator_first.contains(input.kind(i)) {
            return false;
        }
    }
    true
}
