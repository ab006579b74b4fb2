//! What a program tells of a script: its statements, also as JSON, its errors with their lines, and its raw tokens.
//!
//! The first two take the script part by part, each with its table and the output of a parse over it:
//!
//! ```text
//! Walk::new(alloc, names, ..)                its tree as text or as JSON, {"kind":"QUERY","start":0, ..
//! ErrorLines::new(alloc, name)              its errors by their places, each with its line and a mark under it:
//!                                           a.sql:1:8: expected )
//! statements(alloc, &table, &output)        its statements alone: the nodes directly in the root, with their bytes
//! StatementLines::new(alloc, names)         0..9 1:1 QUERY
//! error_lines(alloc, name, text, ..)        the lines of other errors of a whole text, in the same form
//! ```
//!
//! Lines and columns are those of the script, of which only a window need be at hand:
//!
//! ```text
//! LineColumn::start()                       the first byte's; pass(bytes) goes on over bytes that aren't kept
//! Place::new(window, before)                a byte of a window that begins at a line and column
//! ```
#![tactic(auto)]

mod drawing;
mod errors;
mod finding_list;
mod json_writer;
mod line_column;
mod one_walk;
mod place;
mod statement_list;
mod token_names;
mod tokens;

pub use errors::{ErrorLines, error_lines};
pub use finding_list::Finding;
pub use line_column::LineColumn;
pub use one_walk::{Asked, Walk};
pub use place::Place;
pub use statement_list::{Statement, StatementLines, statements};
pub use tokens::token_lines;
