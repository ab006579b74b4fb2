//! The caller's keywords.
ghost use Rattle.std.specs.Prelude.{◌≡◌};

use crate::syntax_kind::SyntaxKind;
use crate::token_set::TokenSet;

/// The keywords with their kinds, and the token kinds of each class.
///
/// Each result is a function of the value and of the bytes of the text. An implementation makes its sets
/// once and keeps them: a call copies one.
pub trait Vocabulary {
    ghost use Rattle.std.specs.Prelude.{List, ℕ, IfSome};
    ghost use Rattle.squawk_kinds.specs.Kinds.{IsKeyword};
    ghost use Rattle.squawk_kinds.specs.Keywords.{Keywords};
    ghost use Rattle.squawk_kinds.specs.declared.token_set.TokenSet.{TokenSet};

    /// The kind of each text that is a keyword.
    ghost keyword: { Self → Keywords };

    /// The kind of each text that is a contextual keyword.
    ghost contextual_keyword: { Self → Keywords };

    /// The kinds of all keywords.
    ghost all_keywords: { Self → TokenSet };

    /// The kinds of contextual keywords.
    ghost contextual_keywords: { Self → TokenSet };

    /// The kinds of operators.
    ghost operators: { Self → TokenSet };

    /// The kinds of punctuation.
    ghost punctuation: { Self → TokenSet };

    /// The kinds of reserved keywords.
    ghost reserved_keywords: { Self → TokenSet };

    /// The kinds of keywords that the name of a column may begin with.
    ghost col_name_keyword_first: { Self → TokenSet };

    /// The kinds of keywords that the name of a type or of a function may be.
    ghost type_func_name_keywords: { Self → TokenSet };

    /// The kind of the keyword with this text, in the caller's spelling.
    fn from_keyword(&self, text: &str) -> Option<SyntaxKind>
        ensures { result ≡ keyword self.now text.now };

    /// The kind that an identifier with this text has where the grammar tries a contextual keyword.
    fn from_contextual_keyword(&self, text: &str) -> Option<SyntaxKind>
        ensures { result ≡ contextual_keyword self.now text.now };

    /// The kinds of all keywords.
    fn all_keywords(&self) -> TokenSet
        ensures { result ≡ all_keywords self.now };

    /// The kinds of contextual keywords.
    fn contextual_keywords(&self) -> TokenSet
        ensures { result ≡ contextual_keywords self.now };

    /// The kinds of operators.
    fn operators(&self) -> TokenSet
        ensures { result ≡ operators self.now };

    /// The kinds of punctuation.
    fn punctuation(&self) -> TokenSet
        ensures { result ≡ punctuation self.now };

    /// The kinds of reserved keywords.
    fn reserved_keywords(&self) -> TokenSet
        ensures { result ≡ reserved_keywords self.now };

    /// The kinds of keywords that the name of a column may begin with.
    fn col_name_keyword_first(&self) -> TokenSet
        ensures { result ≡ col_name_keyword_first self.now };

    /// The kinds of keywords that the name of a type or of a function may be.
    fn type_func_name_keywords(&self) -> TokenSet
        ensures { result ≡ type_func_name_keywords self.now };

    /// A keyword is a token that a parser sees: neither trivia nor the end.
    ghost keywords_are_tokens: { (v : Self) (text : List ℕ) → IfSome (keyword v text) IsKeyword };

    /// A contextual keyword is such a token, too.
    ghost contextual_keywords_are_tokens: { (v : Self) (text : List ℕ) → IfSome (contextual_keyword v text) IsKeyword };
}
