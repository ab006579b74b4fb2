//! What names in the rules stand for.

use crate::named_kind::pairs;
use crate::token_kinds::TOKENS;
use squawk_kinds::SyntaxKind;
use std::alloc::{AllocError, Global};

/// The nodes: their names with their kinds. Tokens have other names.
pub fn nodes(alloc: Global) -> Result<Vec<(&'static str, SyntaxKind)>, AllocError> {
    let names = sql_words::names(alloc)?;
    names
        .iter()
        .map(|(kind, name)| (*name, *kind))
        .collect(alloc)
}

/// The tokens that are no keywords: their names or spellings with their kinds.
pub fn tokens(alloc: Global) -> Result<Vec<(&'static str, SyntaxKind)>, AllocError> {
    pairs(alloc, &TOKENS)
}
