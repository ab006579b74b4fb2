//! A vocabulary for grammars without keywords.

use crate::syntax_kind::SyntaxKind;
use crate::token_set::TokenSet;
use crate::vocabulary::Vocabulary;

/// A vocabulary without a keyword: no text is one, and each of its sets is empty.
#[derive(Clone, Copy, Debug)]
pub struct NoKeywords;

impl Vocabulary for NoKeywords {
    ghost use Rattle.std.specs.Prelude.{None};
    ghost use Rattle.squawk_kinds.specs.TokenSets.{no_kinds};

    ghost keyword = { λ _ _. None };

    ghost contextual_keyword = { λ _ _. None };

    ghost all_keywords = { λ _. no_kinds };

    ghost contextual_keywords = { λ _. no_kinds };

    ghost operators = { λ _. no_kinds };

    ghost punctuation = { λ _. no_kinds };

    ghost reserved_keywords = { λ _. no_kinds };

    ghost col_name_keyword_first = { λ _. no_kinds };

    ghost type_func_name_keywords = { λ _. no_kinds };

    fn from_keyword(&self, _text: &str) -> Option<SyntaxKind> {
        None
    }

    fn from_contextual_keyword(&self, _text: &str) -> Option<SyntaxKind> {
        None
    }

    fn all_keywords(&self) -> TokenSet {
        TokenSet::EMPTY
    }

    fn contextual_keywords(&self) -> TokenSet {
        TokenSet::EMPTY
    }

    fn operators(&self) -> TokenSet {
        TokenSet::EMPTY
    }

    fn punctuation(&self) -> TokenSet {
        TokenSet::EMPTY
    }

    fn reserved_keywords(&self) -> TokenSet {
        TokenSet::EMPTY
    }

    fn col_name_keyword_first(&self) -> TokenSet {
        TokenSet::EMPTY
    }

    fn type_func_name_keywords(&self) -> TokenSet {
        TokenSet::EMPTY
    }

    ghost keywords_are_tokens = { λ _ _. tt };

    ghost contextual_keywords_are_tokens = { λ _ _. tt };
}
