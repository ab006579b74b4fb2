//! A list of words with their kinds. What is inlined runs at each look-up.
ghost use Rattle.std.specs.Prelude.{◌≡◌, ◌↔◌, ℕ, ◌<◌, List, length, true, Some, IfOk, IfSome, IsSome};
ghost use Rattle.std.proofs.Props.{props};
ghost use Rattle.squawk_kinds.specs.Kinds.{IsKeyword};
ghost use Rattle.squawk_kinds.specs.TokenSets.{has};
ghost use Rattle.squawk_keywords.specs.KeywordPairs.{AreKeywords, has_kind, pairs_of};
ghost use Rattle.squawk_keywords.specs.LetterCase.{IsInOrder, kind_by};
ghost use Rattle.squawk_keywords.specs.ReadyWords.{AreReady};
ghost use Rattle.squawk_keywords.specs.WordSlots.{AgreeWith};
ghost use Rattle.squawk_keywords.specs.declared.word_slots.WordSlots.{WordSlots as Slots};

use crate::ready_words::ReadyWords;
use crate::sorted_words::{look_up, sorted};
use crate::word_slots::WordSlots;
use squawk_kinds::{SyntaxKind, TokenSet};
use std::alloc::{AllocError, Global};

/// Words, each with the kind of its keyword, and the set of these kinds.
#[derive(Drop)]
pub struct WordList<'k> {
    ignores_case: bool,
    words: Vec<(&'k str, u16)>,
    set: TokenSet,
    /// None if there are no words, or if an allocation failed.
    slots: Option<WordSlots>,
    ghost in_order: { IsInOrder ignores_case words.items },
    ghost keywords: { (text : List ℕ) → IfSome (kind_by ignores_case (pairs_of words.items) text) IsKeyword } by { Prim.hlevel props },
    ghost agree: { (s : Slots) → slots ≡ Some s → AgreeWith ignores_case (kind_by ignores_case (pairs_of words.items)) s.slots.items s.words.items },
}

impl<'k> WordList<'k> {
    /// Makes the list of these words. If a word stands there twice, its first kind counts.
    pub fn new(
        alloc: Global,
        ignores_case: bool,
        pairs: &[(&'k str, SyntaxKind)],
    ) -> Result<WordList<'k>, AllocError>
        requires { AreKeywords (pairs_of pairs.now) }
        ensures kinds { IfOk result (λ list. (text : List ℕ) → kind_by list.ignores_case (pairs_of list.words.items) text ≡ kind_by ignores_case (pairs_of pairs.now) text) }
        ensures set { IfOk result (λ list. (kind : ℕ) → has list.set kind ≡ has_kind (pairs_of pairs.now) kind) }
    {
        let words = sorted(alloc, ignores_case, pairs)?;
        Ok(WordList {
            ignores_case,
            words,
            set: kinds_of(pairs),
            slots: slots_of(alloc, ignores_case, pairs).unwrap_or(None),
        })
    }

    /// Makes the list of words whose tables stand ready, without regard to case.
    pub fn ready(alloc: Global, tables: &ReadyWords<'k>) -> Result<WordList<'k>, AllocError>
        requires { AreReady tables.now }
        ensures case { IfOk result (λ list. list.ignores_case ≡ true) }
        ensures words { IfOk result (λ list. list.words.items ≡ tables.now.words.now) }
        ensures set { IfOk result (λ list. list.set ≡ tables.now.set) }
    {
        let slots = WordSlots::ready(alloc, tables.slots, tables.kept)?;
        Ok(WordList {
            ignores_case: true,
            words: Vec::from_slice(alloc, tables.words)?,
            set: tables.set,
            slots: Some(slots),
        })
    }

    /// The kind of a text, if it is a word.
    #[inline(always)]
    pub fn kind_of(&self, text: &str) -> Option<SyntaxKind>
        ensures { result ≡ kind_by self.now.ignores_case (pairs_of self.now.words.items) text.now }
    {
        match self.probe(text) {
            Some(kind) => kind,
            None => self.looked_up(text),
        }
    }

    /// The kind of a text, or `Some(None)` if it is no word, as far as that is known without a search.
    #[inline(always)]
    fn probe(&self, text: &str) -> Option<Option<SyntaxKind>>
        ensures { IfSome result (λ kind. kind ≡ kind_by self.now.ignores_case (pairs_of self.now.words.items) text.now) }
    {
        match &self.slots {
            Some(slots) => slots.probe(self.ignores_case, text),
            None if self.words.is_empty() => Some(None),
            None => None,
        }
    }

    /// The kind of a text by a binary search.
    #[inline(never)]
    fn looked_up(&self, text: &str) -> Option<SyntaxKind>
        ensures { result ≡ kind_by self.now.ignores_case (pairs_of self.now.words.items) text.now }
    {
        look_up(self.ignores_case, &self.words, text)
    }

    /// The kinds of the words.
    pub fn kinds(&self) -> TokenSet
        ensures { result ≡ self.now.set }
    {
        self.set
    }
}

/// The slots of these words, if there are words.
fn slots_of(
    alloc: Global,
    ignores_case: bool,
    pairs: &[(&str, SyntaxKind)],
) -> Result<Option<WordSlots>, AllocError>
    ensures some { IfOk result (λ slots. IsSome slots ↔ (0 < length pairs.now)) }
    ensures agree { IfOk result (λ found. (s : Slots) → found ≡ Some s → AgreeWith ignores_case (kind_by ignores_case (pairs_of pairs.now)) s.slots.items s.words.items) }
{
    if pairs.is_empty() {
        return Ok(None);
    }
    let slots = WordSlots::of_list(alloc, ignores_case, pairs)?;
    Ok(Some(slots))
}

/// The set of the kinds of these words.
fn kinds_of(pairs: &[(&str, SyntaxKind)]) -> TokenSet
    requires { AreKeywords (pairs_of pairs.now) }
    ensures { (kind : ℕ) → has result kind ≡ has_kind (pairs_of pairs.now) kind }
{
    let mut set = TokenSet::EMPTY;
    for (_, kind) in pairs {
        set = set.union(TokenSet::new(&[*kind]));
    }
    set
}
