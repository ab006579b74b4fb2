//! A vocabulary that is written out where it is used.
ghost use Rattle.std.specs.Prelude.{◌≡◌, ◌&&◌, find, option_map, nat_eq};
ghost use Rattle.std.specs.Cmp.Lexicographic.{pointwise};
ghost use Rattle.row_fixtures.specs.Keywords.{is_keyword};

use squawk_parser::{SyntaxKind, TokenSet, Vocabulary};

/// Keywords and contextual keywords, each with the number of its kind.
///
/// A number that isn't one from 5 to 638 counts as no keyword.
#[derive(Clone, Copy)]
pub struct Keywords<'a> {
    pub keywords: &'a [(&'a str, u16)],
    pub contextual_keywords: &'a [(&'a str, u16)],
}

/// No keywords.
pub const NO_KEYWORDS: Keywords<'static> = Keywords {
    keywords: &[],
    contextual_keywords: &[],
};

/// The keywords of composite kinds, with the numbers of their kinds.
pub const KEYWORDS: Keywords<'static> = Keywords {
    keywords: &[
        ("similar", 64),
        ("to", 65),
        ("at", 66),
        ("time", 67),
        ("zone", 68),
        ("local", 69),
        ("is", 70),
        ("not", 71),
        ("nfc", 72),
        ("nfd", 73),
        ("nfkc", 74),
        ("nfkd", 75),
        ("normalized", 76),
        ("json", 77),
        ("object", 78),
        ("array", 79),
        ("value", 80),
        ("scalar", 81),
        ("distinct", 82),
        ("from", 83),
        ("operator", 84),
        ("like", 85),
        ("ilike", 86),
        ("in", 87),
    ],
    contextual_keywords: &[],
};

impl<'a> Vocabulary for Keywords<'a> {
    ghost use Rattle.std.specs.Prelude.{◌&&◌, find, option_map, nat_eq};
    ghost use Rattle.std.specs.Cmp.Lexicographic.{pointwise};
    ghost use Rattle.row_fixtures.specs.Keywords.{is_keyword, IsKeyword-find};
    ghost use Rattle.squawk_kinds.specs.TokenSets.{no_kinds};

    ghost keyword = { λ v text. option_map (λ w. w.1) (find (λ w. pointwise nat_eq w.0.now text && is_keyword w.1) v.keywords.now) };

    ghost contextual_keyword = { λ v text. option_map (λ w. w.1) (find (λ w. pointwise nat_eq w.0.now text && is_keyword w.1) v.contextual_keywords.now) };

    ghost all_keywords = { λ _. no_kinds };

    ghost contextual_keywords = { λ _. no_kinds };

    ghost operators = { λ _. no_kinds };

    ghost punctuation = { λ _. no_kinds };

    ghost reserved_keywords = { λ _. no_kinds };

    ghost col_name_keyword_first = { λ _. no_kinds };

    ghost type_func_name_keywords = { λ _. no_kinds };

    fn from_keyword(&self, text: &str) -> Option<SyntaxKind> {
        kind_in(self.keywords, text)
    }

    fn from_contextual_keyword(&self, text: &str) -> Option<SyntaxKind> {
        kind_in(self.contextual_keywords, text)
    }

    fn all_keywords(&self) -> TokenSet {
        TokenSet::EMPTY
    }

    fn contextual_keywords(&self) -> TokenSet {
        TokenSet::EMPTY
    }

    fn operators(&self) -> TokenSet {
        TokenSet::EMPTY
    }

    fn punctuation(&self) -> TokenSet {
        TokenSet::EMPTY
    }

    fn reserved_keywords(&self) -> TokenSet {
        TokenSet::EMPTY
    }

    fn col_name_keyword_first(&self) -> TokenSet {
        TokenSet::EMPTY
    }

    fn type_func_name_keywords(&self) -> TokenSet {
        TokenSet::EMPTY
    }

    ghost keywords_are_tokens = { λ v text. IsKeyword-find (λ w. w.1) (λ w. pointwise nat_eq w.0.now text) v.keywords.now };

    ghost contextual_keywords_are_tokens = { λ v text. IsKeyword-find (λ w. w.1) (λ w. pointwise nat_eq w.0.now text) v.contextual_keywords.now };
}

/// The kind of the first word that is the text and has the number of a keyword.
fn kind_in(words: &[(&str, u16)], text: &str) -> Option<SyntaxKind>
    ensures { result ≡ option_map (λ w. w.1) (find (λ w. pointwise nat_eq w.0.now text.now && is_keyword w.1) words.now) }
{
    words
        .iter()
        .find(|(word, number)| *word == text && is_keyword(*number))
        .map(|(_, number)| SyntaxKind::from(*number))
}

/// Whether a keyword may have the number.
fn is_keyword(number: u16) -> bool
    ensures { result ≡ is_keyword number }
{
    4 < number && number < 639
}
