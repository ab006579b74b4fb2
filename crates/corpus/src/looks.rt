//! Looks at the first token of a text.
//!
//! | line | the look |
//! |---|---|
//! | `look current IDENT`, `look nth 1 EOF`, `look contextual 1 RAISE_KW` | the kind of a token, or its contextual kind |
//! | `look at LTEQ no`, `look nth_at 1 LTEQ no` | whether the kind stands there, which may be a composite one |
//! | `look in 1 IDENT yes`, `look contextual_in 1 IDENT yes` | whether the kind or the contextual kind is in the set of this kind |
//! | `look keyword 1 RAISE_KW no` | whether the contextual kind is this one |
//! | `look op_len 3`, `look next_not_joined_op yes` | the operator there |
//! | `look under 2 op_len 1` | any of these, of a part that sees so many tokens |
//! | `look behind 16 under 2 op_len 1` | the same, where so many tokens have been eaten |
//! | `look op_len 3, behind 1 op_len 2` | several of these |
//!
//! `stands LTEQ 2` says that the kind stands there and is two tokens long: it is seen under each limit
//! from 2 on, and it doesn't stand at the second token.

use crate::came::Seen;
use crate::sections::Entry;
use crate::trouble::{Trouble, malformed};
use row_fixtures::kinds::{NO, YES, kind_named};
use row_fixtures::lines::push_kind;
use row_fixtures::looks::{Answering, Look, Question, ask};
use squawk_parser::{EntryPoint, Output, Step, SyntaxKind};
use std::alloc::AllocError;
use std::fmt::Write;

/// A place or a limit, of which `max` is the greatest.
fn place(word: &str) -> Option<usize> {
    match word {
        "max" => Some(usize::MAX),
        _ => word.parse::<usize>().ok(),
    }
}

/// A kind by its name or its number.
pub fn kind(word: &str) -> Option<SyntaxKind> {
    kind_named(word).or_else(|| Some(SyntaxKind::from(word.parse::<u16>().ok()?)))
}

fn look_of(words: &str) -> Option<Look> {
    let (word, rest) = words.split_once(' ').unwrap_or((words, ""));
    match word {
        "current" => Some(Look::Current),
        "nth" => Some(Look::Kind(place(rest)?)),
        "contextual" => Some(Look::ContextualKind(place(rest)?)),
        "op_len" => Some(Look::OpLen),
        "next_not_joined_op" => Some(Look::NextNotJoinedOp),
        "at" => Some(Look::At(0, u16::from(kind(rest)?))),
        _ => {
            let (n, name) = rest.split_once(' ')?;
            look_at(word, place(n)?, kind(name)?)
        }
    }
}

/// A look at a place that asks for a kind.
fn look_at(word: &str, n: usize, kind: SyntaxKind) -> Option<Look> {
    match word {
        "nth_at" => Some(Look::At(n, u16::from(kind))),
        "in" => Some(Look::AtSet(n, u16::from(kind))),
        "keyword" => Some(Look::AtContextualKeyword(n, u16::from(kind))),
        "contextual_in" => Some(Look::AtContextualSet(n, u16::from(kind))),
        _ => None,
    }
}

fn question_of(words: &str) -> Option<Question> {
    let (behind, words) = led_by("behind ", words)?;
    let (limit, words) = led_by("under ", words)?;
    let look = look_of(words)?;
    let behind = behind.unwrap_or(0);
    Some(Question {
        behind,
        limit,
        look,
    })
}

/// The place or the limit behind a word that may stand at the front, and the rest.
fn led_by<'w>(word: &str, words: &'w str) -> Option<(Option<usize>, &'w str)> {
    match words.strip_prefix(word) {
        Some(rest) => {
            let (number, rest) = rest.split_once(' ')?;
            Some((Some(place(number)?), rest))
        }
        None => Some((None, words)),
    }
}

/// What the grammar of looks answers: the number of a kind. None is told where it makes no node.
fn answer_of(seen: &Seen<'_>, question: Question) -> Result<Option<u16>, Trouble> {
    let words = seen.given.words();
    let grammar = Answering {
        operator_first: words.operator_first,
        questions: &[question],
    };
    match EntryPoint::SourceFile.parse(seen.given.alloc, seen.input, &grammar) {
        Ok(output) => Ok(entered(&output)),
        Err(_) => Err(Trouble::OutOfMemory),
    }
}

/// The kind of the first node.
fn entered(output: &Output) -> Option<u16> {
    for step in output.iter() {
        if let Step::Enter { kind } = step {
            return Some(u16::from(kind));
        }
    }
    None
}

/// The line of the entry's looks, each with the answer that came.
pub fn look_line(seen: &Seen<'_>, entry: &Entry<'_>) -> Result<String, Trouble> {
    let mut line = String::from_str(seen.given.alloc, "look")?;
    for (i, look) in entry.value.split(", ").enumerate() {
        let (words, _) = look.rsplit_once(' ').unwrap_or(("", ""));
        let Some(question) = question_of(words) else {
            return Err(malformed(entry.line, "a look and its answer are wanted"));
        };
        let answer = answer_of(seen, question)?.unwrap_or(0);
        let comma = if i == 0 { "" } else { "," };
        write!(line, "{comma} {words} ")?;
        push_answer(&mut line, words, answer)?;
    }
    Ok(line)
}

/// Adds the answer that a kind tells.
fn push_answer(line: &mut String, words: &str, answer: u16) -> Result<(), AllocError> {
    match answer {
        _ if words.ends_with("op_len") => {
            let len = answer.saturating_sub(720);
            write!(line, "{len}")
        }
        YES => line.push_str("yes"),
        NO => line.push_str("no"),
        _ => push_kind(line, SyntaxKind::from(answer)),
    }
}

/// More than the longest of these kinds has tokens.
const LIMITS: usize = 6;

/// The line of the entry's kind with its length as it came: the least limit under which it is seen.
pub fn stands_line(seen: &Seen<'_>, entry: &Entry<'_>) -> Result<String, Trouble> {
    let alloc = seen.given.alloc;
    let (word, _) = entry.value.split_once(' ').unwrap_or(("", ""));
    let Some(kind) = kind(word) else {
        return Err(malformed(entry.line, "a kind and its length are wanted"));
    };
    let look = Look::At(0, u16::from(kind));
    let mut len = 0usize;
    for limit in 0..LIMITS {
        let question = Question {
            behind: 0,
            limit: Some(limit),
            look,
        };
        let answer = answer_of(seen, question)?;
        if answer == Some(NO) && len == limit {
            len = limit.saturating_add(1);
        } else if answer != Some(YES) {
            return Ok(format!(in alloc; "stands {word}, but not under {limit}")?);
        }
    }
    let first = answer_of(seen, ask(look))?;
    let second = answer_of(seen, ask(Look::At(1, u16::from(kind))))?;
    Ok(match (first, second) {
        (Some(YES), Some(NO)) => format!(in alloc; "stands {word} {len}")?,
        (Some(YES), _) => format!(in alloc; "stands {word} {len}, and at the second token")?,
        _ => format!(in alloc; "no {word} stands here")?,
    })
}
