//! A tokenizer of SQL, by PostgreSQL's documentation, section 4.1 "Lexical Structure": raw tokens of
//! `squawk_tokens` for every text.
#![tactic(auto)]

mod bytes;
mod comments;
mod dollar_quotes;
mod first_token;
mod identifiers;
mod numbers;
mod psql;
pub mod script;
mod signs;
pub mod statements;
mod strings;
pub mod tokenizer;

pub use script::lexer::ScriptLexer;
pub use script::script_place::ScriptPlace;
pub use script::tokenize_script;
pub use tokenizer::{TokenizeError, tokenize};
