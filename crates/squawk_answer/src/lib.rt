//! The answer to a document: the lines of its lexical errors and of its steps, or why there are none.
//!
//! [`run`] goes from a reader to a writer, and [`program`] also to an exit status. [`Answer`] has the lines
//! without reader and writer:
//!
//! ```text
//! let answer = Answer::new(alloc, document)?;
//! answer.errors    a line for each lexical error: lex 2..5 "incomplete unicode escape" ..
//! answer.steps     a line for each step: enter 700, token 3 "x", .., and then all or rest
//! ```
//!
//! If there is no whole answer, a [`Fault`] says why.
#![tactic(auto)]

mod answer;
mod exit;
mod fault;
mod lines;
mod parse;
mod print;
mod read;
mod running;
mod watch;

pub use answer::Answer;
pub use exit::program;
pub use fault::Fault;
pub use lines::push_step_line;
pub use read::MOST_READS;
pub use running::{run, run_watched};
pub use watch::{ReadOutcome, Watch};
