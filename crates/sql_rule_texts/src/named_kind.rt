//! Kinds with names.

use squawk_kinds::SyntaxKind;
use std::alloc::{AllocError, Global};

/// The number of a kind, and its name in the rules.
pub(crate) struct NamedKind {
    pub(crate) kind: u16,
    pub(crate) name: &'static str,
}

/// The names with their kinds.
pub(crate) fn pairs(
    alloc: Global,
    rows: &'static [NamedKind],
) -> Result<Vec<(&'static str, SyntaxKind)>, AllocError> {
    rows.iter()
        .map(|row| (row.name, SyntaxKind(row.kind)))
        .collect(alloc)
}
