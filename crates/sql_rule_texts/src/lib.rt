//! PostgreSQL's SQL as rules, in the notation of `rule_text`: statements with their clauses, expressions and types.
//!
//! ```text
//! text --Rules::read, with the names of tokens and nodes, and PostgreSQL's keywords--> Rules
//! ```
//!
//! `sql_rules` has them as a table that stands ready. The rules are those of PostgreSQL 15; clauses of later versions
//! are marked by `-- PostgreSQL 17` and the like. A NAME is what a statement defines, a NAME_REF what it uses, and a PATH
//! has such names with dots between them. A keyword that stands as a name is an identifier in the tree. `::`, and
//! operators without a kind of their own, are nodes that the engine makes, COLON_COLON and CUSTOM_OP.
//!
//! Where PostgreSQL is stricter, a pass over the tree has to look: doubled options and clauses, options that contradict
//! one another, VARIADIC before the last argument, and calls named by a type that has arguments only before a string. Where
//! the rules are stricter: ESCAPE and words that begin an operator, as AND and AT, are no aliases without AS, BETWEEN no
//! column.
#![tactic(auto)]

mod named_kind;
mod names;
mod read;
#[cfg(test)]
mod tests;
mod texts;
mod token_kinds;

pub use names::{nodes, tokens};
pub use read::rules;
pub use texts::text;
