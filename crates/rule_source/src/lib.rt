//! Tables of rules as constants: the source of a module with a table, and whether two tables are the same.
//!
//! ```text
//! source    a table as a module
//! is_same   whether two tables are the same
//! ```
#![tactic(auto)]

mod items;
mod layout;
mod printed;
mod same;
#[cfg(test)]
mod tests;

pub use printed::source;
pub use same::is_same;
