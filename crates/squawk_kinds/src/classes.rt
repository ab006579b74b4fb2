//! Classes of token kinds, as the caller's vocabulary defines them.
ghost use Rattle.std.specs.Prelude.{◌≡◌, ◌||◌};
ghost use Rattle.squawk_kinds.specs.TokenSets.{has};

use crate::syntax_kind::SyntaxKind;
use crate::vocabulary::Vocabulary;

impl SyntaxKind {
    /// Whether the kind is one of the vocabulary's keywords or contextual keywords.
    pub fn is_keyword<V: Vocabulary>(self, vocabulary: &V) -> bool
        ensures { result ≡ (has (V.all_keywords vocabulary.now) self || has (V.contextual_keywords vocabulary.now) self) }
    {
        vocabulary.all_keywords().contains(self) || vocabulary.contextual_keywords().contains(self)
    }

    /// Whether the kind is one of the vocabulary's operators.
    pub fn is_operator<V: Vocabulary>(self, vocabulary: &V) -> bool
        ensures { result ≡ has (V.operators vocabulary.now) self }
    {
        vocabulary.operators().contains(self)
    }

    /// Whether the kind is one of the vocabulary's punctuation.
    pub fn is_punctuation<V: Vocabulary>(self, vocabulary: &V) -> bool
        ensures { result ≡ has (V.punctuation vocabulary.now) self }
    {
        vocabulary.punctuation().contains(self)
    }
}

/// Whether a kind is one of the vocabulary's reserved keywords.
pub fn is_reserved_keyword<V: Vocabulary>(kind: SyntaxKind, vocabulary: &V) -> bool
    ensures { result ≡ has (V.reserved_keywords vocabulary.now) kind }
{
    vocabulary.reserved_keywords().contains(kind)
}

/// Whether a kind is that of a keyword that the name of a column may begin with.
pub fn is_col_name_keyword<V: Vocabulary>(kind: SyntaxKind, vocabulary: &V) -> bool
    ensures { result ≡ has (V.col_name_keyword_first vocabulary.now) kind }
{
    vocabulary.col_name_keyword_first().contains(kind)
}

/// Whether a kind is that of a keyword that the name of a type or of a function may be.
pub fn is_type_func_name_keyword<V: Vocabulary>(kind: SyntaxKind, vocabulary: &V) -> bool
    ensures { result ≡ has (V.type_func_name_keywords vocabulary.now) kind }
{
    vocabulary.type_func_name_keywords().contains(kind)
}
