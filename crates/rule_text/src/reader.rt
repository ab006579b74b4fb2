//! Words that are read, and the parts that they have given so far.
ghost use Rattle.std.specs.Prelude.{◌≡◌, ◌≢◌, ◌<◌, ◌≤◌, ◌-◌, false, true, [], drop, length, IfErr, IfOk, OnErr, OnOk};
ghost use Rattle.rule_text.specs.Reading.{Adds, Bumps, IsMemory, Takes, Wraps};
ghost use Rattle.rule_text.specs.Written.{IsWord, is_end, names_kind, sort_at};

use crate::error::{Place, WordError};
use crate::word::{Sort, Word};
use rule_parts::{Name, Part};
use std::alloc::{AllocError, Global};

/// The words of a text, from the first one that isn't read yet.
#[derive(Drop)]
pub(crate) struct Reader<'w, 't> {
    text: &'t str,
    words: &'w [Word<'t>],
    at: usize,
    parts: Vec<Part<'t>>,
}

impl<'w, 't> Reader<'w, 't> {
    pub(crate) fn new(alloc: Global, text: &'t str, words: &'w [Word<'t>]) -> Reader<'w, 't>
        ensures words { result.words.now ≡ words.now }
        ensures first { result.at ≡ 0 }
        ensures none { result.parts.items ≡ [] }
    {
        Reader {
            text,
            words,
            at: 0,
            parts: Vec::new(alloc),
        }
    }

    /// What the next word is.
    pub(crate) fn sort(&self) -> Sort
        ensures { result ≡ sort_at self.now.words.now self.now.at }
    {
        match self.words.get(self.at) {
            Some(word) => word.sort,
            None => Sort::End,
        }
    }

    /// Whether the next word is of this sort.
    pub(crate) fn is_at(&self, sort: Sort) -> bool
        ensures is { result ≡ true → sort_at self.now.words.now self.now.at ≡ sort }
        ensures is_not { result ≡ false → sort_at self.now.words.now self.now.at ≢ sort }
    {
        self.sort() == sort
    }

    /// Whether there is no further word.
    pub(crate) fn is_done(&self) -> bool
        ensures done { result ≡ true → length self.now.words.now ≤ self.now.at }
        ensures more { result ≡ false → self.now.at < length self.now.words.now }
    {
        self.at >= self.words.len()
    }

    /// The next word, as a name.
    pub(crate) fn name(&self) -> Name<'t>
        ensures { (sort : Sort) → sort_at self.now.words.now self.now.at ≡ sort → is_end sort ≡ false
            → IsWord self.now.words.now self.now.at sort result }
    {
        match self.words.get(self.at) {
            Some(word) => word.name,
            None => Name {
                text: "",
                at: self.text.len(),
            },
        }
    }

    /// Goes over the next word, if there is one.
    pub(crate) fn bump(&mut self)
        ensures { is_end (sort_at self.old.words.now self.old.at) ≡ false → Bumps self.old self.new }
    {
        if self.at < self.words.len() {
            self.at += 1;
        }
    }

    /// Goes over the next word, which is to be of this sort.
    pub(crate) fn expect(&mut self, sort: Sort, what: &'static str) -> Result<Name<'t>, WordError>
        ensures takes { is_end sort ≡ false → IfOk result (λ name. Takes sort name self.old self.new) }
        ensures misses { OnErr result (sort_at self.old.words.now self.old.at ≢ sort) }
    {
        if !self.is_at(sort) {
            return Err(self.expected(what));
        }
        let name = self.name();
        self.bump();
        Ok(name)
    }

    /// How many parts there are.
    pub(crate) fn len(&self) -> usize
        ensures { result ≡ length self.now.parts.items }
    {
        self.parts.len()
    }

    /// How many parts there are from `start` on.
    pub(crate) fn size_from(&self, start: usize) -> usize
        ensures { result ≡ length self.now.parts.items - start }
    {
        self.parts.len().saturating_sub(start)
    }

    /// Adds a part.
    pub(crate) fn push(&mut self, part: Part<'t>) -> Result<(), WordError>
        ensures adds { OnOk result (Adds part.entry self.old self.new) }
        ensures only { IfErr result IsMemory }
    {
        self.parts.push(part)?;
        Ok(())
    }

    /// Puts a part in front of those from `start` on.
    pub(crate) fn wrap(&mut self, start: usize, part: Part<'t>) -> Result<(), WordError>
        requires { start ≤ length self.old.parts.items }
        ensures wraps { OnOk result (Wraps start part.entry self.old self.new) }
        ensures only { IfErr result IsMemory }
    {
        self.parts.insert(start, part)?;
        Ok(())
    }

    /// Whether the kind of a node is named in the parts from `start` on.
    pub(crate) fn names_a_kind(&self, start: usize) -> bool
        ensures { result ≡ names_kind (drop start self.now.parts.items) }
    {
        self.parts
            .iter()
            .skip(start)
            .any(|part| matches!(part, Part::Becomes { .. }))
    }

    /// The parts.
    pub(crate) fn into_parts(self) -> Vec<Part<'t>>
        ensures { result.items ≡ self.entry.parts.items }
    {
        self.parts
    }

    /// The error that another word is expected.
    pub(crate) fn expected(&self, what: &'static str) -> WordError {
        WordError::Expected {
            what,
            at: self.place(),
        }
    }

    /// The place of the next word.
    pub(crate) fn place(&self) -> Place {
        Place::of(self.text, self.name().at)
    }
}
