//! Calls as texts, as `start, bump_any, complete 0 ROOT, error e`.
//!
//! A marker is a number, a kind its name, and a message one word.

use crate::kinds::kind_named;
use squawk_parser::{SyntaxKind, Text, TokenSet};
use squawk_script::Call;
use std::alloc::{AllocError, Global};
use std::fmt;

/// Why a text has no calls.
#[derive(Clone, Copy, Debug, PartialEq, Eq)]
pub enum CallListError {
    OutOfMemory,
    /// What stands at this place, counted from 0, is no call.
    NoCall { index: usize },
}

impl From<AllocError> for CallListError {
    fn from(_e: AllocError) -> CallListError {
        CallListError::OutOfMemory
    }
}

impl fmt::Display for CallListError {
    fn fmt<W: fmt::Write>(&self, f: &mut fmt::Formatter<W>) -> fmt::Result {
        match *self {
            CallListError::OutOfMemory => write!(f, "memory"),
            CallListError::NoCall { index } => write!(f, "no call {index}"),
        }
    }
}

/// The calls of a text.
pub fn calls_of(alloc: Global, text: &str) -> Result<Vec<Call>, CallListError> {
    let mut calls = Vec::new(alloc);
    if text.is_empty() {
        return Ok(calls);
    }
    for (index, piece) in text.split(", ").enumerate() {
        match call_of(alloc, piece)? {
            Some(call) => calls.push(call).map_err(AllocError::from)?,
            None => return Err(CallListError::NoCall { index }),
        }
    }
    Ok(calls)
}

/// The call of a piece, if it is one.
fn call_of(alloc: Global, piece: &str) -> Result<Option<Call>, AllocError> {
    let mut words = piece.split(' ');
    let name = words.next().unwrap_or("");
    let first = words.next().unwrap_or("");
    let second = words.next().unwrap_or("");
    if words.next().is_some() {
        return Ok(None);
    }
    match name {
        "error" | "err_recover" | "err_and_bump" => error_of(alloc, name, first, second),
        "eat" | "bump_any" | "bump_remap" | "expect" => Ok(act_of(name, first, second)),
        _ => Ok(marker_call_of(name, first, second)),
    }
}

/// A call that makes, takes or moves a marker, of its words.
fn marker_call_of(name: &str, first: &str, second: &str) -> Option<Call> {
    match (name, first, second) {
        ("start", "", "") => Some(Call::Start),
        ("complete", marker, kind) => Some(Call::Complete {
            marker: number(marker)?,
            kind: kind_named(kind)?,
        }),
        ("abandon", marker, "") => Some(Call::Abandon {
            marker: number(marker)?,
        }),
        ("precede", node, "") => Some(Call::Precede {
            node: number(node)?,
        }),
        ("extend_to", node, marker) => Some(Call::ExtendTo {
            node: number(node)?,
            marker: number(marker)?,
        }),
        _ => None,
    }
}

/// A call that takes no marker and no message, of its words.
fn act_of(name: &str, first: &str, second: &str) -> Option<Call> {
    match (name, first, second) {
        ("bump_any", "", "") => Some(Call::BumpAny),
        ("eat", kind, "") => Some(Call::Eat {
            kind: kind_named(kind)?,
        }),
        ("bump_remap", kind, "") => Some(Call::BumpRemap {
            kind: kind_named(kind)?,
        }),
        ("expect", kind, "") => Some(Call::Expect {
            kind: kind_named(kind)?,
        }),
        _ => None,
    }
}

/// A call with a message, of its words.
fn error_of(
    alloc: Global,
    name: &str,
    message: &str,
    recovery: &str,
) -> Result<Option<Call>, AllocError> {
    let message = Text::new(String::from_str(alloc, message)?);
    match (name, recovery) {
        ("error", "") => Ok(Some(Call::Error { message })),
        ("err_and_bump", "") => Ok(Some(Call::ErrAndBump { message })),
        ("err_recover", kind) => Ok(kind_named(kind).map(|kind| Call::ErrRecover {
            message,
            recovery: set_of(kind),
        })),
        _ => Ok(None),
    }
}

fn number(word: &str) -> Option<u32> {
    word.parse::<u32>().ok()
}

/// The set of one kind. A kind that no set has makes it empty.
pub fn set_of(kind: SyntaxKind) -> TokenSet {
    if u16::from(kind) < 640 {
        TokenSet::new(&[kind])
    } else {
        TokenSet::EMPTY
    }
}
