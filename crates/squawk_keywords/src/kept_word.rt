//! A short word with its kind. What is inlined runs at each look-up.
ghost use Rattle.std.specs.Prelude.{◌≡◌, ℕ, ◌<◌, ◌≤◌, List, length};
ghost use Rattle.std.specs.Str.{bytes_eq};
ghost use Rattle.squawk_keywords.specs.LetterCase.{compared};
ghost use Rattle.squawk_keywords.specs.TextKeys.{AreBytes, IsOfText, key_of, text_of};

use crate::ready_words::KeptRow;
use crate::text_key::key;
use squawk_kinds::SyntaxKind;
use std::marker::Model;

/// A word of at most 16 bytes, as it is compared, and the kind of its keyword. It takes 24 bytes.
#[derive(Drop)]
pub struct KeptWord {
    low: u64,
    high: u64,
    len: u16,
    kind: SyntaxKind,
}

impl Model for KeptWord {
    ghost use Rattle.std.specs.Prelude.{List, ℕ};
    ghost use Rattle.squawk_keywords.specs.TextKeys.{IsOfText, text_of};

    ghost Value = { List ℕ × ℕ };

    ghost view = { λ word. (text_of word.len (word.low, word.high), word.kind) };

    ghost invariant = { λ word. IsOfText word.len (word.low, word.high) };
}

impl KeptWord {
    /// The greatest length of a word, in bytes.
    pub const LONGEST: usize = 16;

    /// Keeps this word with this kind.
    pub fn new(ignores_case: bool, word: &str, kind: SyntaxKind) -> KeptWord
        requires { length word.now ≤ 16 }
        ensures { result ≡ (compared ignores_case word.now, kind) }
    {
        let (low, high) = key(ignores_case, word);
        KeptWord {
            low,
            high,
            len: word.len() as u16,
            kind,
        }
    }

    /// The word of a row.
    #[inline(always)]
    pub fn of_row(row: &KeptRow) -> KeptWord
        requires { IsOfText row.now.len (row.now.low, row.now.high) }
        ensures { result ≡ (text_of row.now.len (row.now.low, row.now.high), row.now.kind) }
    {
        KeptWord {
            low: row.low,
            high: row.high,
            len: row.len,
            kind: SyntaxKind(row.kind),
        }
    }

    /// Whether a text with this key and length is the word. It has no branch.
    #[inline(always)]
    pub fn is(&self, key: (u64, u64), len: usize) -> bool
        ensures { (text : List ℕ) → AreBytes text → key ≡ key_of text → len ≡ length text → result ≡ bytes_eq self.now.0 text }
    {
        (self.low == key.0) & (self.high == key.1) & (usize::from(self.len) == len)
    }

    /// The word's kind.
    #[inline(always)]
    pub fn kind(&self) -> SyntaxKind
        ensures { result ≡ self.now.1 }
    {
        self.kind
    }
}
