//! What the tests of the engine share: vocabularies and grammars, raw tokens, and notations of calls
//! and steps.
//!
//! Calls are written as lists (`call_list`) and steps as lines (`lines`); cases of both are in `corpus`,
//! in `notation.txt`. Nothing here ends a test: what is wanted is asserted where the tests are.
#![tactic(auto)]

pub mod call_list;
pub mod keywords;
pub mod kinds;
pub mod lexer;
pub mod lines;
pub mod looks;
pub mod notes;
pub mod output;
pub mod parts;
pub mod scripts;
pub mod sent;
pub mod tokens;
pub mod words;
