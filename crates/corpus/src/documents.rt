//! The documents that go into a case.
//!
//! | line | what it gives |
//! |---|---|
//! | `json {"text":"x"}` | a document, as it stands |
//! | `more  "entry":"sql"}` | its next line |
//! | `document` | a document of the members below it |
//! | `document plain` | or of those and of the others of another case of this file, which has this name |
//! | `text "x"` | a member, or `tokens`, `words`, `vocabulary`, `entry`, `calls` |
//! | `? 1.5` | what stands where a member or a document has this sign |
//!
//! A line may have several values, with ` | ` between them, and a word several lines. All documents that
//! they make, each value of a member with each of the others, must come to the same.

use crate::sections::{Case, Entry};
use crate::trouble::{Trouble, malformed};
use std::alloc::{AllocError, Global};

/// A document without its members.
const FRAME: &str =
    r#"{"text":<text>,"tokens":<tokens>,"words":<words>,"vocabulary":<vocabulary>,"entry":<entry>,"calls":<calls>}"#;

/// The words of values, and where these stand.
const PLACES: [(&str, &str); 7] = [
    ("text", "<text>"),
    ("tokens", "<tokens>"),
    ("words", "<words>"),
    ("vocabulary", "<vocabulary>"),
    ("entry", "<entry>"),
    ("calls", "<calls>"),
    ("?", "?"),
];

/// Whether a case is one of documents.
pub fn has_documents(case: &Case<'_>) -> bool {
    case.given
        .first()
        .is_some_and(|entry| matches!(entry.word, "document" | "json"))
}

/// The documents of a case, which stands in a file with these.
pub fn documents_of(
    alloc: Global,
    cases: &[Case<'_>],
    case: &Case<'_>,
) -> Result<Vec<String>, Trouble> {
    let base = base_of(cases, case)?;
    let mut documents = frames_of(alloc, case)?;
    for (word, place) in PLACES {
        let mut values = values_of(alloc, case, word)?;
        if values.is_empty() {
            values = values_of(alloc, base, word)?;
        }
        if !values.is_empty() {
            documents = filled(alloc, case, &documents, place, &values)?;
        } else if word != "?" && documents.iter().any(|frame| frame.as_str().contains(place)) {
            return Err(malformed(case.line, "a document has six members"));
        }
    }
    Ok(documents)
}

/// The case whose members a case has besides its own.
fn base_of<'c, 'f>(cases: &'c [Case<'f>], case: &'c Case<'f>) -> Result<&'c Case<'f>, Trouble> {
    match case.given.first() {
        Some(entry) if entry.word == "document" && !entry.value.is_empty() => cases
            .iter()
            .find(|other| other.name == entry.value.as_str())
            .ok_or(malformed(entry.line, "no case of this file has this name")),
        _ => Ok(case),
    }
}

/// The documents of a case, before the values are at their places.
fn frames_of(alloc: Global, case: &Case<'_>) -> Result<Vec<String>, Trouble> {
    let mut frames = Vec::new(alloc);
    for entry in &case.given {
        match entry.word {
            "document" if frames.is_empty() => push_values(alloc, &mut frames, FRAME)?,
            "json" => push_values(alloc, &mut frames, entry.value.as_str())?,
            "more" => go_on(&mut frames, entry)?,
            word if PLACES.iter().any(|(placed, _)| *placed == word) => {}
            _ => return Err(malformed(entry.line, "no document has this line")),
        }
    }
    Ok(frames)
}

/// Puts a line behind the last of the documents.
fn go_on(documents: &mut Vec<String>, entry: &Entry<'_>) -> Result<(), Trouble> {
    let Some(document) = documents.last_mut() else {
        return Err(malformed(entry.line, "no document to go on"));
    };
    document.push('\n')?;
    document.push_str(entry.value.as_str())?;
    Ok(())
}

/// The values that the lines of a word have.
fn values_of(alloc: Global, case: &Case<'_>, word: &str) -> Result<Vec<String>, AllocError> {
    let mut values = Vec::new(alloc);
    for entry in &case.given {
        if entry.word == word {
            push_values(alloc, &mut values, entry.value.as_str())?;
        }
    }
    Ok(values)
}

fn push_values(alloc: Global, values: &mut Vec<String>, line: &str) -> Result<(), AllocError> {
    for value in line.split(" | ") {
        values.push(String::from_str(alloc, value)?)?;
    }
    Ok(())
}

/// Each of the frames with each of the values at its place.
fn filled(
    alloc: Global,
    case: &Case<'_>,
    frames: &[String],
    place: &str,
    values: &[String],
) -> Result<Vec<String>, Trouble> {
    if !frames.iter().all(|frame| frame.as_str().contains(place)) {
        return Err(malformed(case.line, "a document has no place for a value"));
    }
    let mut all = Vec::new(alloc);
    for frame in frames {
        push_filled(alloc, &mut all, frame.as_str(), place, values)?;
    }
    Ok(all)
}

fn push_filled(
    alloc: Global,
    all: &mut Vec<String>,
    frame: &str,
    place: &str,
    values: &[String],
) -> Result<(), AllocError> {
    for value in values {
        all.push(frame.replace(alloc, place, value.as_str())?)?;
    }
    Ok(())
}
