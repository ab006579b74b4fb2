//! Sentences of rules at random, judged by the rules that run and by a plain reader.
//!
//! The reader keeps sets of positions and predicts nothing. A sentence is one that it reads exactly if it has no error
//! where the rules are run.
mod grammars;
mod parts;
mod reader;
mod sentences;

use crate::by_rules::grammars::{GRAMMARS, NODES, TOKENS, spelled};
use crate::by_rules::parts::Parts;
use crate::by_rules::reader::Reader;
use crate::by_rules::sentences::{Sentences, change};
use crate::generator::Random;
use rule_parts::Part;
use rule_tables::{KeywordNames, Rules};
use rule_text::read;
use sql_lexer::tokenize;
use squawk_kinds::{NoKeywords, TokenSet};
use squawk_parser::{EntryPoint, LexedStr};
use std::alloc::{AllocError, Global};
use std::fmt::Write;

/// How many sentences there were, and how many of them the reader read.
#[derive(Debug, Default, Drop)]
pub struct Judged {
    pub sentences: u64,
    read: u64,
}

/// Judges so many sentences. Returns the first that is judged otherwise by the rules that run.
pub fn compare(
    alloc: Global,
    random: &mut Random,
    sentences: u64,
    judged: &mut Judged,
) -> Result<Option<String>, AllocError> {
    for text in &GRAMMARS {
        let Ok(parts) = read(alloc, text) else {
            return refused(alloc, text);
        };
        let names = KeywordNames {
            words: &NoKeywords,
            tokens: &TOKENS,
            nodes: &NODES,
            classes: &[],
            operators: TokenSet::EMPTY,
        };
        let Ok(rules) = Rules::new(alloc, &parts, &names) else {
            return refused(alloc, text);
        };
        for _ in 0..sentences / GRAMMARS.len() as u64 + 1 {
            let difference = judge(alloc, random, &parts, &rules, judged)?;
            if difference.is_some() {
                return Ok(difference);
            }
        }
    }
    Ok(None)
}

fn refused(alloc: Global, text: &str) -> Result<Option<String>, AllocError> {
    Ok(Some(format!(in alloc; "refused:\n{text}")?))
}

/// Judges a sentence.
fn judge(
    alloc: Global,
    random: &mut Random,
    parts: &[Part<'_>],
    rules: &Rules,
    judged: &mut Judged,
) -> Result<Option<String>, AllocError> {
    let parts = Parts { list: parts };
    let mut sentence = Sentences { alloc, parts }.next(random)?;
    if random.below(2) == 0 {
        change(&mut sentence, &TOKENS, random)?;
    }
    let text = text_of(alloc, &sentence)?;
    let is_read = Reader {
        parts,
        tokens: &sentence,
    }
    .reads_all();
    judged.sentences = judged.sentences.saturating_add(1);
    judged.read = judged.read.saturating_add(u64::from(is_read));
    if has_no_error(alloc, rules, text.as_str())? == is_read {
        return Ok(None);
    }
    let text = text.as_str();
    Ok(Some(format!(in alloc; "read: {is_read}, {text}\n")?))
}

/// The text of a sentence.
fn text_of(alloc: Global, sentence: &[&str]) -> Result<String, AllocError> {
    let mut text = String::new(alloc);
    for token in sentence {
        write!(text, "{} ", spelled(token))?;
    }
    Ok(text)
}

/// Whether a text has no error by the rules. A refusal counts as want of memory.
fn has_no_error(alloc: Global, rules: &Rules, text: &str) -> Result<bool, AllocError> {
    let Ok(tokens) = tokenize(alloc, text) else {
        return Err(AllocError);
    };
    let Ok(table) = LexedStr::new(alloc, text, &tokens, &NoKeywords) else {
        return Err(AllocError);
    };
    let input = table.to_input(alloc, &NoKeywords)?;
    match EntryPoint::SourceFile.parse(alloc, &input, rules) {
        Ok(output) => Ok(output.error_count() == 0),
        Err(_refusal) => Err(AllocError),
    }
}
