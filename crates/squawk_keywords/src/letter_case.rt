//! ASCII lower case, and the order of texts with or without regard to case.
ghost use Rattle.std.specs.Prelude.{◌≡◌, true};
ghost use Rattle.std.specs.Cmp.Lexicographic.{slice_cmp};
ghost use Rattle.std.specs.Ordering.{nat_cmp};
ghost use Rattle.squawk_keywords.specs.LetterCase.{compared, lowered};

use std::cmp::Ordering;

/// Eight bytes, each in ASCII lower case.
///
/// In `from_a` the highest bit of a byte says whether it is `A` or above, in `past_z` whether it is above
/// `Z`. In both it is set for a byte from 128 on. So they differ only at capital letters, whose bit 5 is
/// then set.
// Runs at each look-up.
#[inline(always)]
pub fn lower_case(bytes: u64) -> u64
    ensures { result ≡ lowered 8 bytes }
{
    let low_bits = bytes & 0x7f7f_7f7f_7f7f_7f7f;
    let from_a = (low_bits + 0x3f3f_3f3f_3f3f_3f3f) | bytes;
    let past_z = (low_bits + 0x2525_2525_2525_2525) | bytes;
    let capitals = (from_a ^ past_z) & 0x8080_8080_8080_8080;
    bytes | (capitals >> 2)
}

/// How two texts are ordered: by their bytes, or by these in ASCII lower case.
pub fn order(ignores_case: bool, one: &str, other: &str) -> Ordering
    ensures { result ≡ slice_cmp nat_cmp (compared ignores_case one.now) (compared ignores_case other.now) }
{
    if ignores_case {
        order_ignoring_case(one.as_bytes(), other.as_bytes())
    } else {
        one.cmp(other)
    }
}

/// How texts are ordered by their bytes in ASCII lower case.
fn order_ignoring_case(one: &[u8], other: &[u8]) -> Ordering
    ensures { result ≡ slice_cmp nat_cmp (compared true one.now) (compared true other.now) }
{
    for i in 0..one.len().min(other.len()) {
        let a = one[i].to_ascii_lowercase();
        let b = other[i].to_ascii_lowercase();
        if a != b {
            return a.cmp(&b);
        }
    }
    one.len().cmp(&other.len())
}
