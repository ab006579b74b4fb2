//! The rules, ready to be run.

use crate::names::{nodes, tokens};
use crate::texts::text;
use rule_tables::{KeywordNames, Rules, TextError, keyword_classes};
use rule_text::ReadError;
use squawk_kinds::{SyntaxKind, Vocabulary};
use std::alloc::{AllocError, Global};

/// The text of the rules, and what names in it stand for.
#[derive(Drop)]
struct Written {
    text: String,
    tokens: Vec<(&'static str, SyntaxKind)>,
    nodes: Vec<(&'static str, SyntaxKind)>,
}

/// The rules for the keywords of a vocabulary, which has PostgreSQL's.
pub fn rules<V: Vocabulary>(alloc: Global, words: &V) -> Result<Rules, TextError> {
    match all_written(alloc) {
        Ok(written) => of_written(alloc, words, &written),
        Err(reason) => Err(TextError::Read(ReadError::Memory(reason))),
    }
}

fn all_written(alloc: Global) -> Result<Written, AllocError> {
    let text = text(alloc)?;
    let tokens = tokens(alloc)?;
    let nodes = nodes(alloc)?;
    Ok(Written {
        text,
        tokens,
        nodes,
    })
}

fn of_written<V: Vocabulary>(
    alloc: Global,
    words: &V,
    written: &Written,
) -> Result<Rules, TextError> {
    let names = KeywordNames {
        words,
        tokens: &written.tokens,
        nodes: &written.nodes,
        classes: &keyword_classes(words),
        operators: words.operators(),
    };
    Rules::read(alloc, written.text.as_str(), &names)
}
