//! Sets of token kinds.
ghost use Rattle.std.specs.Prelude.{◌≡◌, ℕ, ◌/◌, ◌%◌, ◌≤◌, ◌||◌, ◌==◌, ◌↔◌, All, IsTrue, slice_index};
ghost use Rattle.std.specs.Int.{bit_at};
ghost use Rattle.std.specs.List.{list_any};
ghost use Rattle.squawk_kinds.specs.Kinds.{IsTokenKind, WHITESPACE};
ghost use Rattle.squawk_kinds.specs.TokenSets.{has};

use crate::syntax_kind::SyntaxKind;
use std::marker::Model;

/// A set of token kinds: of the kinds up to [`SyntaxKind::WHITESPACE`].
///
/// It takes 80 bytes, one bit for each token kind, and is `Copy`. It has the kind `k` if and only if bit
/// `k % 64`, counted from the lowest, of word `k / 64` is 1. `contains` reads one word.
///
/// [`token_set!`](crate::token_set!) makes a constant of kinds; [`TokenSet::new`] makes a set of a list.
#[derive(Clone, Copy, PartialEq, Eq, Debug)]
pub struct TokenSet(pub [u64; 10]);

/// The set of these token kinds, as the value of a constant.
///
/// `const FIRST: TokenSet = token_set![SyntaxKind::IDENT, SyntaxKind::L_PAREN];`
///
/// Kinds past [`SyntaxKind::WHITESPACE`] are in no set. The lemma `has-words_of` says which kinds the
/// constant has.
#[macro_export]
macro_rules! token_set {
    (@word $word:expr; $($kind:expr),*) => {
        0u64 $(| ((($kind.0 / 64 == $word) as u64) << ($kind.0 % 64)))*
    };
    ($($kind:expr),* $(,)?) => {
        $crate::TokenSet([
            $crate::token_set!(@word 0; $($kind),*),
            $crate::token_set!(@word 1; $($kind),*),
            $crate::token_set!(@word 2; $($kind),*),
            $crate::token_set!(@word 3; $($kind),*),
            $crate::token_set!(@word 4; $($kind),*),
            $crate::token_set!(@word 5; $($kind),*),
            $crate::token_set!(@word 6; $($kind),*),
            $crate::token_set!(@word 7; $($kind),*),
            $crate::token_set!(@word 8; $($kind),*),
            $crate::token_set!(@word 9; $($kind),*),
        ])
    };
}

impl Model for TokenSet {
    ghost use Rattle.std.specs.Prelude.{List, ℕ};

    ghost Value = { List ℕ };

    ghost view = { λ set. set.0 };

    ghost inverse = { λ words. record { 0 = words } };
}

impl TokenSet {
    /// The empty set.
    pub const EMPTY: TokenSet = TokenSet([0; 10]);

    /// The set of these token kinds, in one pass over them.
    pub fn new(kinds: &[SyntaxKind]) -> TokenSet
        requires { All IsTokenKind kinds.now }
        ensures { (kind : ℕ) → has result kind ≡ list_any (λ one. one == kind) kinds.now }
    {
        let mut set = TokenSet::EMPTY;
        for kind in kinds {
            let number = usize::from(u16::from(*kind));
            set.0[number / 64] |= 1 << (number % 64);
        }
        set
    }

    /// The set with these ten words.
    pub fn from_words(words: [u64; 10]) -> TokenSet
        ensures words { result ≡ words }
        ensures kinds { (kind : ℕ) → IsTrue (has result kind)
            ↔ (kind ≤ WHITESPACE) × (bit_at (slice_index words (kind / 64)) (kind % 64) ≡ 1) }
    {
        TokenSet(words)
    }

    /// The set of the kinds that are in either set.
    pub fn union(self, other: TokenSet) -> TokenSet
        ensures { (kind : ℕ) → has result kind ≡ (has self kind || has other kind) }
    {
        let a = self.0;
        let b = other.0;
        TokenSet([
            a[0] | b[0],
            a[1] | b[1],
            a[2] | b[2],
            a[3] | b[3],
            a[4] | b[4],
            a[5] | b[5],
            a[6] | b[6],
            a[7] | b[7],
            a[8] | b[8],
            a[9] | b[9],
        ])
    }

    /// Whether the set has the kind. It has none past [`SyntaxKind::WHITESPACE`].
    pub fn contains(&self, kind: SyntaxKind) -> bool
        ensures { result ≡ has self.now kind }
    {
        let number = usize::from(u16::from(kind));
        number < 640 && (self.0[number / 64] >> (number % 64)) & 1 == 1
    }
}
