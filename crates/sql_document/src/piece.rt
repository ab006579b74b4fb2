//! A piece of a document.

use sql_lexer::ScriptPlace;

/// A part of a document: its text, and what is held of it.
#[derive(Drop)]
pub struct Piece<T: Drop> {
    pub text: String,
    /// Where the script stands before it.
    pub(crate) place: ScriptPlace,
    /// How many bytes after its end it depends on; `None` of the last piece, which depends on all that may follow.
    pub(crate) seen: Option<usize>,
    pub kept: T,
}
