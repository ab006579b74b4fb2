//! Sorted words with their kinds, for a binary search.
ghost use Rattle.std.specs.Prelude.{◌≡◌, ℕ, List, IfOk, IsTrue};
ghost use Rattle.squawk_keywords.specs.KeywordPairs.{pairs_of};
ghost use Rattle.squawk_keywords.specs.LetterCase.{IsInOrder, kind_by};

use crate::letter_case::order;
use squawk_kinds::SyntaxKind;
use std::alloc::{AllocError, Global};

/// Sorts these words, with the numbers of their kinds. Equal words stay in the order given.
pub fn sorted<'k>(
    alloc: Global,
    ignores_case: bool,
    pairs: &[(&'k str, SyntaxKind)],
) -> Result<Vec<(&'k str, u16)>, AllocError>
    ensures order { IfOk result (λ words. IsInOrder ignores_case words.items) }
    ensures kinds { IfOk result (λ words. (text : List ℕ) → kind_by ignores_case (pairs_of words.items) text ≡ kind_by ignores_case (pairs_of pairs.now) text) }
{
    let mut words = numbered(alloc, pairs)?;
    if is_in_order(ignores_case, &words) {
        return Ok(words);
    }
    words.sort_by(|one, other| order(ignores_case, one.0, other.0))?;
    Ok(words)
}

/// These words with the numbers of their kinds, which constants can have.
fn numbered<'k>(
    alloc: Global,
    pairs: &[(&'k str, SyntaxKind)],
) -> Result<Vec<(&'k str, u16)>, AllocError>
    ensures { IfOk result (λ words. words.items ≡ pairs.now) }
{
    let mut words = Vec::with_capacity(alloc, pairs.len())?;
    for (word, kind) in pairs {
        words.push_reserved((*word, kind.0));
    }
    Ok(words)
}

/// Whether words are sorted. Most lists are, and a sort takes far longer.
fn is_in_order(ignores_case: bool, words: &[(&str, u16)]) -> bool
    ensures { IsTrue result → IsInOrder ignores_case words.now }
{
    words.is_sorted_by(|one, other| !order(ignores_case, other.0, one.0).is_lt())
}

/// The kind of the first of these sorted words that equals a text.
pub fn look_up(ignores_case: bool, words: &[(&str, u16)], text: &str) -> Option<SyntaxKind>
    requires { IsInOrder ignores_case words.now }
    ensures { result ≡ kind_by ignores_case (pairs_of words.now) text.now }
{
    let at = words.partition_point(|word| order(ignores_case, word.0, text).is_lt());
    let (word, kind) = words.get(at)?;
    order(ignores_case, word, text)
        .is_eq()
        .then_some(SyntaxKind(*kind))
}
