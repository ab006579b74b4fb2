//! A script of SQL from a reader, a text at a time: a script of any size takes the memory of its longest statement.
//!
//! ```text
//! loop {
//!     script.read()?;
//!     let text = script.text();
//!     let mut parts = ScriptParts::new(alloc, text.text, text.place, text.next == Next::End)?;
//!     while let Some(part) = parts.next_part(least, &vocabulary, &rules)? { .. }
//!     match text.next {
//!         Next::More => {}
//!         Next::End => return Ok(()),
//!         Next::Fault(error) => return Err(error),
//!     }
//!     let (end, place) = (parts.position(), parts.place().unwrap_or(text.place));
//!     script.go_on(end, place);
//! }
//! ```
#![tactic(auto)]

mod read_error;
mod script_reader;
mod script_text;
#[cfg(test)]
mod tests;
mod window;

pub use crate::read_error::{ReadError, io_words};
pub use crate::script_reader::ScriptReader;
pub use crate::script_text::{Next, ScriptText};
