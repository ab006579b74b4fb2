//! What stands around a parser: the table of raw tokens, the input, and the sending of an output over its
//! text.
//!
//! `squawk_parser` re-exports all that is public here.
#![tactic(auto)]

pub mod input;
pub mod lexed_str;
pub mod shortcuts;

pub use input::Input;
pub use lexed_str::{
    Base, LexError, LexErrors, LexedStr, LiteralKind, TableBuilder, TableError, Token, TokenKind,
    check_tokens,
};
pub use shortcuts::{OwnedStep, StepList, StepSink, StrStep, StrSteps};
