//! PostgreSQL's keywords, and the names of all kinds in a tree of SQL.
#![tactic(auto)]

mod category;
mod contextual;
mod keywords;
mod kind_names;
mod kinds;
mod named_kind;
mod sql_vocabulary;
mod tables;

pub use kind_names::names;
pub use kinds::SqlKind;
pub use sql_vocabulary::vocabulary;
