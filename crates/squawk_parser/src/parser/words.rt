//! The operators of a grammar, and the names of its kinds.

use squawk_kinds::{SyntaxKind, TokenSet};

/// The kinds of tokens that a grammar's operators consist of, and the names of its kinds.
#[derive(Clone, Copy)]
pub struct Words<'t> {
    /// The kinds that a token of an operator may have. [`SyntaxKind::EOF`] isn't one of them.
    pub operator_first: TokenSet,
    /// Kinds with their names. The name of a kind is that of its first pair; a kind without one is called by
    /// its number in decimal. An `expect` that fails looks it up by a [`squawk_kinds::KindNames`].
    pub names: &'t [(SyntaxKind, &'t str)],
}
