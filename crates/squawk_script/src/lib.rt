//! Scripts: a list of a parser's calls as a grammar, which makes the same calls over every input.
#![tactic(auto)]

mod call;
mod check;
mod run;
mod script;
mod script_error;
mod slot;
mod status;

pub use call::Call;
pub use script::Script;
pub use script_error::ScriptError;
