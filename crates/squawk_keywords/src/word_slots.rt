//! A hash table of words, by which most texts are looked up at once. What is inlined runs at each look-up.
ghost use Rattle.std.specs.Prelude.{◌≡◌, ◌≢◌, ℕ, ◌+◌, ◌<◌, ◌≤◌, All, List, [], length, min, Option, Some, None, IfOk, IfSome, vec_capacity, vec_len, if◌then◌else◌};
ghost use Rattle.std.specs.Option.{option_or};
ghost use Rattle.std.specs.Str.{bytes_eq};
ghost use Rattle.squawk_kinds.specs.Keywords.{Keywords as KindsOfTexts};
ghost use Rattle.squawk_keywords.specs.KeywordPairs.{pairs_of};
ghost use Rattle.squawk_keywords.specs.LetterCase.{compared, kind_by};
ghost use Rattle.squawk_keywords.specs.ReadyWords.{kept_of};
ghost use Rattle.squawk_keywords.specs.TextKeys.{AreBytes, IsOfText, key_of};
ghost use Rattle.squawk_keywords.specs.WordSlots.{AreSlots, IsKept, AgreeWith, bucket_at, probed, slot_answer};

use crate::kept_word::KeptWord;
use crate::ready_words::KeptRow;
use crate::text_key::key;
use squawk_kinds::SyntaxKind;
use std::alloc::{AllocError, Global};

/// A hash table of 2048 buckets, each of two slots, and the words in them.
///
/// A slot is 0 while it is free, then one more than the index of its word, or `NOT_KEPT`. A word takes the
/// first free slot of its bucket. If a bucket has a free slot, its words are those in the slots before. If
/// both are taken, other words may have the same bucket, so a text that is neither needs a search.
#[derive(Drop)]
pub struct WordSlots {
    slots: Vec<u16>,
    words: Vec<KeptWord>,
    ghost sound: { AreSlots slots.items words.items },
    ghost room: { vec_capacity words ≤ 2048 },
}

impl WordSlots {
    /// The greatest number of words that are kept.
    const MOST: usize = 2048;

    /// A taken slot whose word isn't kept.
    const NOT_KEPT: u16 = u16::MAX;

    /// Makes the table of a list of words.
    pub fn of_list(
        alloc: Global,
        ignores_case: bool,
        pairs: &[(&str, SyntaxKind)],
    ) -> Result<WordSlots, AllocError>
        ensures { IfOk result (λ slots. AgreeWith ignores_case (kind_by ignores_case (pairs_of pairs.now)) slots.slots.items slots.words.items) }
    {
        let mut slots = WordSlots::with_room(alloc, pairs.len())?;
        for (word, kind) in pairs {
            slots.add(ignores_case, word, *kind);
        }
        Ok(slots)
    }

    /// Makes the table of these slots and rows.
    pub fn ready(alloc: Global, slots: &[u16], rows: &[KeptRow]) -> Result<WordSlots, AllocError>
        requires kept { All (λ row. IsOfText row.len (row.low, row.high)) rows.now }
        requires slots { AreSlots slots.now (kept_of rows.now) }
        ensures slots { IfOk result (λ table. table.slots.items ≡ slots.now) }
        ensures words { IfOk result (λ table. table.words.items ≡ kept_of rows.now) }
    {
        let mut words = Vec::with_capacity(alloc, rows.len())?;
        for row in rows {
            words.push_reserved(KeptWord::of_row(row));
        }
        Ok(WordSlots {
            slots: Vec::from_slice(alloc, slots)?,
            words,
        })
    }

    /// Makes a table whose slots are free, with room for this many words, at most `MOST`.
    fn with_room(alloc: Global, words: usize) -> Result<WordSlots, AllocError>
        ensures free { IfOk result (λ slots. (text : List ℕ) → probed slots.slots.items slots.words.items text ≡ Some None) }
        ensures room { IfOk result (λ slots. vec_capacity slots.words ≡ min words 2048) }
    {
        Ok(WordSlots {
            slots: vec![in alloc; 0; 4096]?,
            words: Vec::with_capacity(alloc, words.min(WordSlots::MOST))?,
        })
    }

    /// Adds a word, if the slots so far say that it is none.
    fn add(&mut self, ignores_case: bool, word: &str, kind: SyntaxKind)
        ensures { (kind_of : KindsOfTexts) → AgreeWith ignores_case kind_of self.old.slots.items self.old.words.items
            → AgreeWith ignores_case (λ text. option_or (kind_of text) (if bytes_eq (compared ignores_case word.now) (compared ignores_case text) then Some kind else None)) self.new.slots.items self.new.words.items }
    {
        match self.probe(ignores_case, word) {
            Some(None) => self.take(ignores_case, word, kind),
            Some(Some(_)) => {}
            None => {}
        }
    }

    /// The kind of a text, or `Some(None)` if it is no word; `None` if the slots don't say.
    ///
    /// Branches on whether the first slot is free and on whether its word is the text mispredict, so both
    /// together are one branch.
    #[inline(always)]
    pub fn probe(&self, ignores_case: bool, text: &str) -> Option<Option<SyntaxKind>>
        ensures { result ≡ probed self.now.slots.items self.now.words.items (compared ignores_case text.now) }
    {
        let key = key(ignores_case, text);
        let at = 2 * bucket(key);
        let first = self.slots[at];
        let second = self.slots[at + 1];
        let Some(word) = self.words.get(usize::from(first).saturating_sub(1)) else {
            return if first == 0 { Some(None) } else { None };
        };
        if (first != 0) & word.is(key, text.len()) {
            return Some(Some(word.kind()));
        }
        if (first == 0) | (second == 0) {
            return Some(None);
        }
        self.probe_second(second, key, text.len())
    }

    /// The kind of a text by the second slot of its bucket, which is taken; `None` if it doesn't say.
    #[inline(always)]
    fn probe_second(&self, slot: u16, key: (u64, u64), len: usize) -> Option<Option<SyntaxKind>>
        requires { slot ≢ 0 }
        ensures { (text : List ℕ) → AreBytes text → key ≡ key_of text → len ≡ length text → result ≡ slot_answer self.now.words.items slot text None }
    {
        match self.words.get(usize::from(slot) - 1) {
            Some(word) if word.is(key, len) => Some(Some(word.kind())),
            _ => None,
        }
    }

    /// Adds a word that the slots so far say is none.
    fn take(&mut self, ignores_case: bool, word: &str, kind: SyntaxKind)
        requires { probed self.old.slots.items self.old.words.items (compared ignores_case word.now) ≡ Some None }
        ensures answers { (text : List ℕ) (answer : Option ℕ) → probed self.new.slots.items self.new.words.items text ≡ Some answer
            → (before : Option ℕ) × (probed self.old.slots.items self.old.words.items text ≡ Some before)
            × (answer ≡ option_or before (if bytes_eq (compared ignores_case word.now) text then Some kind else None)) }
        ensures answers_word { vec_len self.old.words < vec_capacity self.old.words → length word.now ≤ 16
            → probed self.new.slots.items self.new.words.items (compared ignores_case word.now) ≡ Some (Some kind) }
    {
        let at = 2 * bucket(key(ignores_case, word));
        let slot = keep(&mut self.words, ignores_case, word, kind);
        if self.slots[at] == 0 {
            self.slots[at] = slot;
        } else {
            self.slots[at + 1] = slot;
        }
    }
}

/// Keeps a word, if there is room for it and it is short. Returns its slot.
fn keep(words: &mut Vec<KeptWord>, ignores_case: bool, word: &str, kind: SyntaxKind) -> u16
    requires { vec_capacity words.old ≤ 2048 }
    ensures kept { IsKept words.old.items (compared ignores_case word.now, kind) result words.new.items }
    ensures short_is { vec_len words.old < vec_capacity words.old → length word.now ≤ 16 → result ≡ length words.old.items + 1 }
    ensures room { vec_capacity words.new ≡ vec_capacity words.old }
{
    let count = words.len();
    if count >= words.capacity() || word.len() > KeptWord::LONGEST {
        return WordSlots::NOT_KEPT;
    }
    words.push_reserved(KeptWord::new(ignores_case, word, kind));
    (count + 1) as u16
}

/// The bucket of a text with this key, by multiplicative hashing: the factor is 2^64 by the golden ratio,
/// and the result is the eleven highest bits.
#[inline(always)]
fn bucket(key: (u64, u64)) -> usize
    ensures bucket { result ≡ bucket_at key }
    ensures within { result < 2048 }
{
    let (low, high) = key;
    (low.wrapping_add(high).wrapping_mul(0x9e37_79b9_7f4a_7c15) >> 53) as usize
}
