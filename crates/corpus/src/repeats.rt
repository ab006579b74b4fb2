//! Pieces of a line that stand there many times.
//!
//! `{3|a }` is `a a a `, and `{3|, precede #0, complete #1 ROOT}` counts: `#0` is 0, 1 and 2, and `#1` is
//! one more each time.

use std::alloc::AllocError;
use std::fmt::Write;

/// Adds a line with its repetitions written out.
pub fn push_repeated(text: &mut String, line: &str) -> Result<(), AllocError> {
    let mut pieces = line.split('{');
    text.push_str(pieces.next().unwrap_or(""))?;
    for piece in pieces {
        match repetition(piece) {
            Some((count, body, rest)) => {
                push_counted(text, count, body)?;
                text.push_str(rest)?;
            }
            None => {
                text.push('{')?;
                text.push_str(piece)?;
            }
        }
    }
    Ok(())
}

/// How often what stands behind a brace is repeated, what it is, and what follows.
fn repetition(piece: &str) -> Option<(u32, &str, &str)> {
    let (inside, rest) = piece.split_once('}')?;
    let (count, body) = inside.split_once('|')?;
    Some((count.parse::<u32>().ok()?, body, rest))
}

fn push_counted(text: &mut String, count: u32, body: &str) -> Result<(), AllocError> {
    for turn in 0..count {
        push_turn(text, turn, body)?;
    }
    Ok(())
}

/// Adds the piece with its numbers, each so much greater as there were turns before.
fn push_turn(text: &mut String, turn: u32, body: &str) -> Result<(), AllocError> {
    let mut pieces = body.split('#');
    text.push_str(pieces.next().unwrap_or(""))?;
    for piece in pieces {
        let digits = piece.bytes().take_while(|b| b.is_ascii_digit()).count();
        let number = piece.get(..digits).unwrap_or("");
        let rest = piece.get(digits..).unwrap_or("");
        match number.parse::<u32>() {
            Ok(number) => {
                let number = number.saturating_add(turn);
                write!(text, "{number}{rest}")?;
            }
            Err(_) => {
                text.push('#')?;
                text.push_str(piece)?;
            }
        }
    }
    Ok(())
}
