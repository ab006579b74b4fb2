//! Vocabularies of keywords: a [`Vocabulary`](squawk_kinds::Vocabulary) made of lists of words with their kinds.
//!
//! ```text
//! let keywords = Keywords::ignoring_case(alloc, &[("select", SELECT_KW), ("from", FROM_KW)], &[])?;
//! ```
#![tactic(auto)]

mod classes;
mod kept_word;
mod keywords;
mod keywords_error;
mod letter_case;
mod ready_words;
mod sorted_words;
mod text_key;
mod word_list;
mod word_slots;

pub use classes::Classes;
pub use keywords::Keywords;
pub use keywords_error::KeywordsError;
pub use ready_words::{KeptRow, ReadyWords};
