//! The key of a text, by which short texts are compared. What is inlined runs at each look-up.
ghost use Rattle.std.specs.Prelude.{◌≡◌, ◌+◌, ◌<◌, ◌≤◌, ◌^◌, length};
ghost use Rattle.squawk_keywords.specs.LetterCase.{compared};
ghost use Rattle.squawk_keywords.specs.TextKeys.{key_of, four_bytes_at};

use crate::letter_case::lower_case;

/// The key of a text, or of the text in ASCII lower case.
#[inline(always)]
pub fn key(ignores_case: bool, text: &str) -> (u64, u64)
    ensures { result ≡ key_of (compared ignores_case text.now) }
{
    let (low, high) = exact_key(text);
    if ignores_case {
        (lower_case(low), lower_case(high))
    } else {
        (low, high)
    }
}

/// The key of a text: its first four bytes, the next, the next, and its last four, as two numbers.
///
/// These may overlap, so no branch depends on the length of a text of four bytes or more. A shorter text
/// is all in the first number. Two texts of the same length, at most 16 bytes, are equal if and only if
/// their keys are.
#[inline(always)]
fn exact_key(text: &str) -> (u64, u64)
    ensures { result ≡ key_of text.now }
{
    let bytes = text.as_bytes();
    let len = bytes.len();
    if len >= 4 {
        let last = len - 4;
        let one = four_bytes(bytes, 0);
        let two = four_bytes(bytes, last.min(4));
        let three = four_bytes(bytes, last.min(8));
        let four = four_bytes(bytes, last);
        return (one + 0x1_0000_0000 * two, three + 0x1_0000_0000 * four);
    }
    if len == 0 {
        return (0, 0);
    }
    let all = u32::from_le_bytes([bytes[0], bytes[len / 2], bytes[len - 1], 0]);
    (u64::from(all), 0)
}

/// Four bytes from offset `at` on, as a little-endian number.
#[inline(always)]
fn four_bytes(bytes: &[u8], at: usize) -> u64
    requires { at + 4 ≤ length bytes.now }
    ensures value { result ≡ four_bytes_at bytes.now at }
    ensures fits { result < 2 ^ 32 }
{
    let four = [bytes[at], bytes[at + 1], bytes[at + 2], bytes[at + 3]];
    u64::from(u32::from_le_bytes(four))
}
