//! Kinds of tokens and nodes, sets of token kinds, and the caller's keywords.
//!
//! `squawk_parser` re-exports all that a user needs; a kind's number is `kind.0`.
#![tactic(auto)]

pub mod classes;
mod constants;
pub mod engine_names;
pub mod kind_names;
pub mod no_keywords;
pub mod syntax_kind;
pub mod token_set;
pub mod vocabulary;

pub use classes::{is_col_name_keyword, is_reserved_keyword, is_type_func_name_keyword};
pub use engine_names::with_engine_names;
pub use kind_names::KindNames;
pub use no_keywords::NoKeywords;
pub use syntax_kind::SyntaxKind;
pub use token_set::TokenSet;
pub use vocabulary::Vocabulary;
