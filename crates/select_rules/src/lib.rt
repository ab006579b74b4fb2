//! SELECT statements by rules: as text, and as a table that stands ready.
//!
//! `ready.rt` is what the program `rule_prepare` prints; the test says that it is what the text makes.
#![tactic(auto)]

pub mod ready;
#[cfg(test)]
mod tests;
mod text;

pub use text::{RULES, rules, rules_of};
