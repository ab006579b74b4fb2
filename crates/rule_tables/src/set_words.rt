//! Sets as words of 16 bits.
ghost use Rattle.std.specs.Prelude.{◌≡◌, ℕ, ◌<◌, IfOk, Some, length};
ghost use Rattle.squawk_kinds.specs.TokenSets.{has};
ghost use Rattle.rule_grammar.specs.Parts.{words_have};
ghost use Rattle.rule_tables.specs.Sets.{HaveSets, word_of};

use crate::sets::push;
use squawk_kinds::TokenSet;
use std::alloc::{AllocError, Global};

/// The words of all sets.
pub(crate) fn all_words(alloc: Global, sets: &[TokenSet]) -> Result<Vec<[u16; 40]>, AllocError>
    ensures { IfOk result (λ words. HaveSets sets.now words.items (length sets.now)) }
{
    let mut words = Vec::new(alloc);
    for set in sets {
        push(&mut words, words_of(set))?;
    }
    Ok(words)
}

/// The words of a set: four of 16 bits for each of its words.
fn words_of(set: &TokenSet) -> [u16; 40]
    ensures { (kind : ℕ) → words_have (Some result) kind ≡ has set.now kind }
{
    let mut words = [0u16; 40];
    for index in 0..40usize {
        words[index] = word_of(set, index);
    }
    words
}

fn word_of(set: &TokenSet, index: usize) -> u16
    requires { index < 40 }
    ensures { result ≡ word_of set.now index }
{
    let word = set.0[index / 4];
    ((word >> (16 * (index % 4))) % 65536) as u16
}
