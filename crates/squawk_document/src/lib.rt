//! Documents: a text with its raw tokens, words, a vocabulary and calls, as JSON.
//!
//! This reads documents and no other JSON. Whatever isn't one is a [`DocumentError`]:
//!
//! ```text
//! let value = value::parse(alloc, bytes)?;
//! let document = Document::from_value(alloc, &value)?;
//! ```
#![tactic(auto)]

mod calls;
mod document;
mod document_error;
mod grammar;
mod kind_set;
mod members;
pub mod token;
pub mod value;
mod vocabulary;
mod words;

pub use document::Document;
pub use document_error::DocumentError;
pub use grammar::DocumentGrammar;
