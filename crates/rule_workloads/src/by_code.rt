//! Texts parsed by a grammar in code, or by any other.
use select_grammar::Selects;
use select_grammar::kinds::NAMES;
use sql_lexer::tokenize;
use squawk_keywords::Keywords;
use squawk_parser::{EntryPoint, Grammar, LexedStr};
use std::alloc::{AllocError, Global};

/// How many events are recorded where the text is parsed by code so many times.
pub(crate) fn events(
    alloc: Global,
    words: &Keywords<'_>,
    text: &str,
    rounds: usize,
) -> Result<u64, AllocError> {
    let selects = Selects { names: &NAMES };
    parsed(alloc, words, text, &selects, rounds)
}

/// How many events are recorded where the text is parsed so many times.
pub(crate) fn parsed<G: Grammar>(
    alloc: Global,
    words: &Keywords<'_>,
    text: &str,
    grammar: &G,
    rounds: usize,
) -> Result<u64, AllocError> {
    let Ok(tokens) = tokenize(alloc, text) else {
        return Err(AllocError);
    };
    let Ok(table) = LexedStr::new(alloc, text, &tokens, words) else {
        return Err(AllocError);
    };
    let input = table.to_input(alloc, words)?;
    let mut events = 0u64;
    for _ in 0..rounds {
        match EntryPoint::SourceFile.parse(alloc, &input, grammar) {
            Ok(output) => events = events.wrapping_add(u64::from(output.recorded())),
            Err(_refusal) => return Err(AllocError),
        }
    }
    Ok(events)
}
