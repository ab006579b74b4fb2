//! Classes of token kinds.

use squawk_kinds::TokenSet;

/// The kinds of tokens that make up each class of a vocabulary.
#[derive(Clone, Copy, PartialEq, Eq, Debug)]
pub struct Classes {
    pub operators: TokenSet,
    pub punctuation: TokenSet,
    pub reserved_keywords: TokenSet,
    /// Keywords that the name of a column may begin with.
    pub col_name_keyword_first: TokenSet,
    /// Keywords that the name of a type or of a function may be.
    pub type_func_name_keywords: TokenSet,
}

impl Classes {
    /// The classes without a kind.
    pub const EMPTY: Classes = Classes {
        operators: TokenSet::EMPTY,
        punctuation: TokenSet::EMPTY,
        reserved_keywords: TokenSet::EMPTY,
        col_name_keyword_first: TokenSet::EMPTY,
        type_func_name_keywords: TokenSet::EMPTY,
    };
}
