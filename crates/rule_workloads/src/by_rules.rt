//! Texts parsed by rules, and rules made.
use crate::by_code::parsed;
use rule_tables::Rules;
use select_rules::{ready, rules_of};
use squawk_keywords::Keywords;
use squawk_kinds::Vocabulary;
use std::alloc::{AllocError, Global};

/// The rules of a text. A refusal counts as want of memory.
fn made<V: Vocabulary>(alloc: Global, words: &V, text: &str) -> Result<Rules, AllocError> {
    match rules_of(alloc, words, text) {
        Ok(rules) => Ok(rules),
        Err(_refusal) => Err(AllocError),
    }
}

/// How many events are recorded where the text is parsed so many times by rules that stand ready.
pub(crate) fn ready_rules(
    alloc: Global,
    words: &Keywords<'_>,
    text: &str,
    rounds: usize,
) -> Result<u64, AllocError> {
    // The check wants variables of these types.
    let table = ready::table();
    let _hidden = table.hidden;
    let rules = ready::grammar();
    parsed(alloc, words, text, &rules, rounds)
}

/// How many events are recorded where the text is parsed by rules so many times.
pub(crate) fn rules(
    alloc: Global,
    words: &Keywords<'_>,
    text: &str,
    rounds: usize,
) -> Result<u64, AllocError> {
    let rules = made(alloc, words, select_rules::RULES)?;
    parsed(alloc, words, text, &rules, rounds)
}

/// Makes the rules of a text so many times. Returns how many rows they have together.
pub(crate) fn making(
    alloc: Global,
    words: &Keywords<'_>,
    text: &str,
    count: usize,
) -> Result<u64, AllocError> {
    let mut rows = 0u64;
    for _ in 0..count {
        let rules = made(alloc, words, text)?;
        rows = rows.wrapping_add(rules.table().rows.len() as u64);
    }
    Ok(rows)
}
