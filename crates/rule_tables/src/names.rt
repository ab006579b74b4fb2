//! What names in rules stand for.
ghost use Rattle.std.specs.Prelude.{◌≡◌};
ghost use Rattle.rule_tables.specs.Vocabulary.{kind_in};

use squawk_kinds::{SyntaxKind, TokenSet};

/// The kinds that a caller has names for.
pub trait Names {
    ghost use Rattle.std.specs.Prelude.{ℕ, false};
    ghost use Rattle.squawk_kinds.specs.Kinds.{EOF};
    ghost use Rattle.squawk_kinds.specs.TokenSets.{has};
    ghost use Rattle.rule_tables.specs.Vocabulary.{Vocabulary};

    /// What each name stands for.
    ghost vocabulary: { Self → Vocabulary };

    /// The kind of the token with this name or spelling, as `SELECT` or `(`.
    fn token(&self, name: &str) -> Option<SyntaxKind>
        ensures { result ≡ (vocabulary self.now).token name.now };

    /// The kind of the node with this name.
    fn node(&self, name: &str) -> Option<SyntaxKind>
        ensures { result ≡ (vocabulary self.now).node name.now };

    /// The contextual kind of the identifier with this text.
    fn word(&self, text: &str) -> Option<SyntaxKind>
        ensures { result ≡ (vocabulary self.now).word text.now };

    /// The class of tokens with this name, whose letters are small.
    fn class(&self, name: &str) -> Option<TokenSet>
        ensures { result ≡ (vocabulary self.now).class name.now };

    /// The kinds that operators are made of.
    fn operators(&self) -> TokenSet
        ensures kinds { (kind : ℕ) → has result kind ≡ (vocabulary self.now).operators kind }
        ensures no_end { has result EOF ≡ false };
}

/// The kind of a token in a class: of an identifier with the text, if it is one of words.
pub(crate) fn kind_in<N: Names>(names: &N, is_word: bool, name: &str) -> Option<SyntaxKind>
    ensures { result ≡ kind_in (N.vocabulary names.now) is_word name.now }
{
    if is_word {
        names.word(name)
    } else {
        names.token(name)
    }
}
