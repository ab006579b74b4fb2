//! A script of SQL that is edited: an edit parses the statements that it touches, and as many as it takes until one ends
//! where one ended before.
#![tactic(auto)]

mod cut;
mod document;
mod edit_error;
mod keep;
mod piece;
mod recut;
mod sql;
#[cfg(test)]
mod tests;

pub use crate::document::Document;
pub use crate::edit_error::EditError;
pub use crate::keep::Keep;
pub use crate::piece::Piece;
