//! A vocabulary of two lists of words.
ghost use Rattle.std.specs.Prelude.{◌≡◌, ◌↔◌, IfOk, IsTrue, MatchOption};
ghost use Rattle.squawk_kinds.specs.Kinds.{IsKeyword};
ghost use Rattle.squawk_keywords.specs.KeywordAnswers.{AnswersBy, HasClasses, IsMadeOf};
ghost use Rattle.squawk_keywords.specs.KeywordPairs.{AreKeywords, IsFirstOther, kind_of_word, kind_of_word_ignoring_case, pairs_of};
ghost use Rattle.squawk_keywords.specs.LetterCase.{kind_by};
ghost use Rattle.squawk_keywords.specs.ReadyWords.{AreReady};

use crate::classes::Classes;
use crate::keywords_error::KeywordsError;
use crate::ready_words::ReadyWords;
use crate::word_list::WordList;
use squawk_kinds::{SyntaxKind, TokenSet, Vocabulary};
use std::alloc::{AllocError, Global};

/// A vocabulary of two lists of words: the keywords, and the contextual keywords.
///
/// A contextual keyword is a keyword only where the grammar requires it. Each word has a kind; if a list
/// has a word twice, its first kind counts. The words are borrowed: if they are constants, `'k` is
/// `'static`. For n words, whatever they are, making the vocabulary takes O(n log n) comparisons and a
/// look-up O(log n). Most texts of up to 16 bytes need one read of a hash table of 8 kilobytes.
#[derive(Drop)]
pub struct Keywords<'k> {
    keywords: WordList<'k>,
    contextual: WordList<'k>,
    classes: Classes,
}

impl<'k> Keywords<'k> {
    /// Makes the vocabulary of these keywords and contextual keywords, with empty classes.
    ///
    /// A text is a word if it has the same bytes.
    pub fn new(
        alloc: Global,
        keywords: &[(&'k str, SyntaxKind)],
        contextual: &[(&'k str, SyntaxKind)],
    ) -> Result<Keywords<'k>, KeywordsError>
        ensures { IsMadeOf kind_of_word (pairs_of keywords.now) (pairs_of contextual.now) result }
    {
        Keywords::of_lists(alloc, false, keywords, contextual)
    }

    /// Makes the vocabulary of these words without regard to ASCII case, with empty classes.
    ///
    /// A text is a word if both have the same bytes in ASCII lower case.
    pub fn ignoring_case(
        alloc: Global,
        keywords: &[(&'k str, SyntaxKind)],
        contextual: &[(&'k str, SyntaxKind)],
    ) -> Result<Keywords<'k>, KeywordsError>
        ensures { IsMadeOf kind_of_word_ignoring_case (pairs_of keywords.now) (pairs_of contextual.now) result }
    {
        Keywords::of_lists(alloc, true, keywords, contextual)
    }

    /// Makes the vocabulary of keywords and contextual keywords whose tables stand ready, with empty classes.
    ///
    /// A text is a word if both have the same bytes in ASCII lower case. The tables are copied: nothing is sorted or
    /// hashed.
    pub fn ready(
        alloc: Global,
        keywords: &ReadyWords<'k>,
        contextual: &ReadyWords<'k>,
    ) -> Result<Keywords<'k>, AllocError>
        requires keywords { AreReady keywords.now }
        requires contextual { AreReady contextual.now }
        ensures { IfOk result (AnswersBy kind_of_word_ignoring_case (pairs_of keywords.now.words.now) (pairs_of contextual.now.words.now)) }
    {
        Ok(Keywords {
            keywords: WordList::ready(alloc, keywords)?,
            contextual: WordList::ready(alloc, contextual)?,
            classes: Classes::EMPTY,
        })
    }

    /// The vocabulary of these lists, with or without regard to case.
    fn of_lists(
        alloc: Global,
        ignores_case: bool,
        keywords: &[(&'k str, SyntaxKind)],
        contextual: &[(&'k str, SyntaxKind)],
    ) -> Result<Keywords<'k>, KeywordsError>
        ensures { IsMadeOf (kind_by ignores_case) (pairs_of keywords.now) (pairs_of contextual.now) result }
    {
        match first_other(keywords) {
            Some(index) => return Err(KeywordsError::Keyword(index)),
            None => {}
        }
        match first_other(contextual) {
            Some(index) => return Err(KeywordsError::Contextual(index)),
            None => {}
        }
        Ok(Keywords {
            keywords: WordList::new(alloc, ignores_case, keywords)?,
            contextual: WordList::new(alloc, ignores_case, contextual)?,
            classes: Classes::EMPTY,
        })
    }

    /// The same vocabulary with these classes.
    pub fn with_classes(self, classes: Classes) -> Keywords<'k>
        ensures { HasClasses self.entry classes result }
    {
        Keywords {
            keywords: self.keywords,
            contextual: self.contextual,
            classes,
        }
    }
}

/// The index of the first word whose kind can't be a keyword's.
fn first_other(pairs: &[(&str, SyntaxKind)]) -> Option<usize>
    ensures { MatchOption result (AreKeywords (pairs_of pairs.now)) (IsFirstOther (pairs_of pairs.now)) }
{
    for (index, (_, kind)) in pairs.iter().enumerate() {
        if !is_keyword(*kind) {
            return Some(index);
        }
    }
    None
}

/// Whether a kind can be a keyword's: a token kind other than the end, an open marker, a comment or white
/// space.
fn is_keyword(kind: SyntaxKind) -> bool
    ensures { IsTrue result ↔ IsKeyword kind }
{
    SyntaxKind::TOMBSTONE < kind && kind < SyntaxKind::WHITESPACE && kind != SyntaxKind::COMMENT
}

impl Vocabulary for Keywords<'_> {
    ghost use Rattle.squawk_keywords.specs.KeywordAnswers.{all_keywords_of, contextual_keyword_of, contextual_keywords_of, keyword_of};

    ghost keyword = { keyword_of };

    ghost contextual_keyword = { contextual_keyword_of };

    ghost all_keywords = { all_keywords_of };

    ghost contextual_keywords = { contextual_keywords_of };

    ghost operators = { λ v. v.classes.operators };

    ghost punctuation = { λ v. v.classes.punctuation };

    ghost reserved_keywords = { λ v. v.classes.reserved_keywords };

    ghost col_name_keyword_first = { λ v. v.classes.col_name_keyword_first };

    ghost type_func_name_keywords = { λ v. v.classes.type_func_name_keywords };

    ghost keywords_are_tokens = { λ v text. v.keywords.keywords text };

    ghost contextual_keywords_are_tokens = { λ v text. v.contextual.keywords text };

    fn from_keyword(&self, text: &str) -> Option<SyntaxKind> {
        self.keywords.kind_of(text)
    }

    fn from_contextual_keyword(&self, text: &str) -> Option<SyntaxKind> {
        self.contextual.kind_of(text)
    }

    fn all_keywords(&self) -> TokenSet {
        self.keywords.kinds()
    }

    fn contextual_keywords(&self) -> TokenSet {
        self.contextual.kinds()
    }

    fn operators(&self) -> TokenSet {
        self.classes.operators
    }

    fn punctuation(&self) -> TokenSet {
        self.classes.punctuation
    }

    fn reserved_keywords(&self) -> TokenSet {
        self.classes.reserved_keywords
    }

    fn col_name_keyword_first(&self) -> TokenSet {
        self.classes.col_name_keyword_first
    }

    fn type_func_name_keywords(&self) -> TokenSet {
        self.classes.type_func_name_keywords
    }
}
