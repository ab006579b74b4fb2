//! Tables of rules: what a table of `rule_grammar` is made of.
//!
//! ```text
//! parts --names--> rows --places--> sets and looks: Rules
//! ```
#![tactic(auto)]

mod called;
mod categories;
mod classes;
mod definitions;
mod eats;
mod error;
mod faults;
mod follow;
mod grammar;
mod groups;
mod keyword_names;
mod looks;
mod map;
mod messages;
mod moves;
mod named;
mod names;
mod numbers;
mod outer;
mod place;
mod read;
mod refuse;
mod rows;
mod rules;
mod set_words;
mod sets;
mod settled;
mod shown;
mod strands;
mod symbols;
mod trail;
mod walk;
mod ways;

pub use categories::keyword_classes;
pub use error::RulesError;
pub use keyword_names::KeywordNames;
pub use names::Names;
pub use read::TextError;
pub use rules::Rules;
