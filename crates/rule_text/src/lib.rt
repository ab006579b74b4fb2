//! Rules as text: reads grammars as a person writes them.
//!
//! ```text
//! text --tokenize--> raw tokens --words--> words --read--> parts, each in front of what is in it
//! ```
//!
//! docs/RULES.md has the notation.
#![tactic(auto)]

mod body;
mod error;
mod expression;
mod leaf;
mod look;
mod reader;
mod rule;
mod word;

pub use body::NESTED;
pub use error::{Place, ReadError};
pub use rule::read;
