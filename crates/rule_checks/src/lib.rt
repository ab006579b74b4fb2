//! Faults in rules: each call answers the first row with one.
//!
//! ```text
//! rows      a row, and the row after it
//! empty     rows that may eat nothing
//! leads     rows that are entered first from a row
//! steps     what comes after a row, in any number of steps
//! rules     which rules use which
//! ```
#![tactic(auto)]

mod checks;
mod empty;
mod leads;
mod rows;
mod rules;
mod steps;

pub use checks::{empty_repeat, left_recursive, unreached};
