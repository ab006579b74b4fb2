//! Grammars as data: rules are tables of numbers, and one interpreter runs any of them.
//!
//! ```text
//! Table         the rules: rows of parts, sets of kinds, looks at further tokens, messages
//! Hidden        tokens that no rule takes
//! bit_of        how sets tell of composite kinds
//! RuleGrammar   a table with the rule that a file begins with, as a grammar
//! ```
#![tactic(auto)]

mod guard;
mod looks;
mod open;
mod part;
mod recovery;
mod root;
mod rules;
mod run;
mod skip;
mod symbol;
mod table;
mod tokens;
mod told;
mod ways;

pub use part::Part;
pub use rules::{DEPTH, RuleGrammar};
pub use symbol::bit_of;
pub use table::{Hidden, Table};
