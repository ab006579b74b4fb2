//! Texts as JSON strings.
//!
//! ```text
//! push_json(alloc, &mut lines, "say \"a\"")   lines end with "say \"a\"", quotes and backslashes written
//! ```
#![tactic(auto)]

mod json_strings;

pub use json_strings::{json_text, needs_no_escape, push_json};
