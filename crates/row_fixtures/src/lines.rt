//! Steps as lines of text.
//!
//! `ROOT(NAME(a !'e'@1) _ SELECT_KW'select') ...` is a root with a node in it, of which an
//! identifier and an error at byte 1 are the parts, a space, and a keyword. Tokens are left behind
//! it. Steps stand with a space between two, none behind an opening parenthesis or before a closing
//! one:
//!
//! - a node is the name of its kind, with what it has in parentheses,
//! - a token of a plain text is that text, `_` if it is a space,
//! - any other token is the name of its kind, with its text in quotes,
//! - an error is `!` and its text in quotes, behind it `@` and its position.
//!
//! A token of an output, which has no text, is the name of its kind, and `*2` if it has two tokens of
//! the input. A kind without a name is its number.

use crate::kinds::name_of;
use squawk_parser::{OwnedStep, Step, SyntaxKind};
use std::alloc::{AllocError, Global};
use std::fmt::Write;

/// The kind that a plain text has: a word, a digit, a sign or a space.
fn plain_kind(text: &str) -> Option<SyntaxKind> {
    match text {
        " " => Some(SyntaxKind::WHITESPACE),
        "," => Some(SyntaxKind::COMMA),
        ";" => Some(SyntaxKind::SEMICOLON),
        "." => Some(SyntaxKind::DOT),
        ":" => Some(SyntaxKind::COLON),
        "=" => Some(SyntaxKind::EQ),
        "<" => Some(SyntaxKind::L_ANGLE),
        "@" => Some(SyntaxKind::AT),
        "-" => Some(SyntaxKind::MINUS),
        "+" => Some(SyntaxKind::PLUS),
        "1" => Some(SyntaxKind::INT_NUMBER),
        _ if is_word(text) => Some(SyntaxKind::IDENT),
        _ => None,
    }
}

fn is_word(text: &str) -> bool {
    !text.is_empty() && text.bytes().all(|b| b.is_ascii_alphabetic())
}

/// The line of steps that were sent.
pub fn line_of(alloc: Global, steps: &[OwnedStep]) -> Result<String, AllocError> {
    let mut line = String::new(alloc);
    for step in steps {
        push_sent(&mut line, step)?;
    }
    Ok(line)
}

/// The line of steps that were sent, and of whether they are all.
pub fn whole_line_of(
    alloc: Global,
    steps: &[OwnedStep],
    is_whole: bool,
) -> Result<String, AllocError> {
    let mut line = line_of(alloc, steps)?;
    if !is_whole {
        line.push_str(" ...")?;
    }
    Ok(line)
}

fn push_sent(line: &mut String, step: &OwnedStep) -> Result<(), AllocError> {
    match step {
        OwnedStep::Enter { kind } => push_enter(line, *kind),
        OwnedStep::Token { kind, text } => push_token(line, *kind, text.as_str()),
        OwnedStep::Error { msg, pos } => {
            push_error(line, msg.as_str())?;
            write!(line, "@{pos}")
        }
        OwnedStep::Exit => line.push(')'),
    }
}

/// Adds a step of an output to a line.
pub fn push_step(line: &mut String, step: Step<'_>) -> Result<(), AllocError> {
    match step {
        Step::Enter { kind } => push_enter(line, kind),
        Step::Token {
            kind,
            n_input_tokens,
        } => {
            push_space(line)?;
            push_kind(line, kind)?;
            if n_input_tokens == 1 {
                return Ok(());
            }
            write!(line, "*{n_input_tokens}")
        }
        Step::Error { msg } => push_error(line, msg),
        Step::Exit => line.push(')'),
    }
}

fn push_enter(line: &mut String, kind: SyntaxKind) -> Result<(), AllocError> {
    push_space(line)?;
    push_kind(line, kind)?;
    line.push('(')
}

fn push_token(line: &mut String, kind: SyntaxKind, text: &str) -> Result<(), AllocError> {
    push_space(line)?;
    if plain_kind(text) == Some(kind) {
        line.push_str(if text == " " { "_" } else { text })
    } else {
        push_kind(line, kind)?;
        write!(line, "'{}'", text.escape_debug())
    }
}

fn push_error(line: &mut String, msg: &str) -> Result<(), AllocError> {
    push_space(line)?;
    write!(line, "!'{}'", msg.escape_debug())
}

/// Adds the space between two steps.
fn push_space(line: &mut String) -> Result<(), AllocError> {
    if line.is_empty() || line.ends_with('(') {
        Ok(())
    } else {
        line.push(' ')
    }
}

/// Adds the name of a kind, or its number if it has none.
pub fn push_kind(line: &mut String, kind: SyntaxKind) -> Result<(), AllocError> {
    match name_of(kind) {
        Some(name) => line.push_str(name),
        None => {
            let number = u16::from(kind);
            write!(line, "{number}")
        }
    }
}

/// Whether a line has the first steps of another, and not all.
pub fn is_beginning(line: &str, whole: &str) -> bool {
    match whole.strip_prefix(line) {
        Some(rest) => {
            rest.starts_with(' ')
                || rest.starts_with(')')
                || (line.is_empty() || line.ends_with('(')) && !rest.is_empty()
        }
        None => false,
    }
}
