//! Texts and rules that are large, or broken as they can be.
use std::alloc::{AllocError, Global};

/// The words of alternatives that start alike.
const WORDS: [&str; 12] = [
    "SELECT", "FROM", "WHERE", "AND", "OR", "NOT", "AS", "IN", "IS", "LIKE", "NULL", "DISTINCT",
];

/// A text that starts so, and has a word so many times.
pub(crate) fn repeated(
    alloc: Global,
    start: &str,
    word: &str,
    count: usize,
) -> Result<String, AllocError> {
    let mut text = String::new(alloc);
    text.push_str(start)?;
    for _ in 0..count {
        text.push_str(word)?;
    }
    Ok(text)
}

/// A rule of so many alternatives, at most 1,728, of three tokens each, of which the last decides between twelve.
pub(crate) fn wide(alloc: Global, count: usize) -> Result<String, AllocError> {
    let mut text = String::new(alloc);
    text.push_str("file = choice* => SOURCE_FILE\nchoice = ';'")?;
    for index in 0..count.min(1728) {
        text.push_str("\n    |")?;
        push_word(&mut text, index / 144)?;
        push_word(&mut text, index / 12)?;
        push_word(&mut text, index)?;
        text.push_str(" => ITEM")?;
    }
    text.push_str("\n")?;
    Ok(text)
}

fn push_word(text: &mut String, index: usize) -> Result<(), AllocError> {
    text.push_str(" ")?;
    match WORDS.get(index % 12) {
        Some(word) => text.push_str(word),
        None => Ok(()),
    }
}

/// So many rules, each called by the one before it.
pub(crate) fn many(alloc: Global, count: usize) -> Result<String, AllocError> {
    let mut text = String::new(alloc);
    text.push_str("file = ")?;
    push_name(&mut text, 0)?;
    text.push_str("* => SOURCE_FILE\n")?;
    for index in 1..count {
        push_rule(&mut text, index)?;
    }
    push_name(&mut text, count.saturating_sub(1))?;
    text.push_str(" = IDENT => NAME_REF\n")?;
    Ok(text)
}

/// The rule before this one, which calls this one.
fn push_rule(text: &mut String, index: usize) -> Result<(), AllocError> {
    push_name(text, index.saturating_sub(1))?;
    text.push_str(" \"a rule\" = SELECT DISTINCT? {")?;
    push_name(text, index)?;
    text.push_str(
        "} (FROM IDENT => FROM_CLAUSE | WHERE INT (AND | OR) STRING => WHERE_CLAUSE)? ';' => SELECT\n",
    )?;
    text.push_str(
        "    | '(' {IDENT (AS IDENT)?} ')' => LIST | NOT+ IDENT => NOT_EXPR | IDENT => ITEM\n",
    )
}

/// The name of a rule: letters.
fn push_name(text: &mut String, index: usize) -> Result<(), AllocError> {
    text.push_str("rule_")?;
    push_letter(text, index / 676)?;
    push_letter(text, index / 26)?;
    push_letter(text, index)
}

fn push_letter(text: &mut String, index: usize) -> Result<(), AllocError> {
    let start = index % 26;
    match "abcdefghijklmnopqrstuvwxyz".get(start..start + 1) {
        Some(letter) => text.push_str(letter),
        None => Ok(()),
    }
}
