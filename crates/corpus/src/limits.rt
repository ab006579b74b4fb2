//! Parses within limits.

use crate::parses::CaseGrammar;
use crate::sections::Entry;
use crate::trouble::{Trouble, malformed};
use squawk_parser::{Input, Limits, Output, ParseError, Step};
use std::alloc::Global;

/// How many errors an output has.
fn errors_of(output: &Output) -> u32 {
    let mut errors = 0u32;
    for step in output.iter() {
        if let Step::Error { msg: _ } = step {
            errors = errors.saturating_add(1);
        }
    }
    errors
}

/// How many events the parse records within the limits, or why it is refused.
fn recorded_within(
    alloc: Global,
    grammar: &CaseGrammar<'_>,
    input: &Input,
    limits: Limits,
) -> Result<Result<u32, ParseError>, Trouble> {
    match grammar.parse(alloc, input, Some(limits))? {
        Ok(output) => Ok(Ok(output.recorded())),
        Err(error) => Ok(Err(error)),
    }
}

/// The limits of a parse that is given none.
const MOST: Limits = Limits {
    events: 4294967295,
    errors: 2147483648,
};

/// Of a parse that records more events than this only the greatest limit below is tried.
const FEW: u32 = 20;

/// Whether the parse is refused for too many events under the limits below what it records, for too many
/// errors under the greatest limit below how many it has, and records the same within its own numbers.
pub fn is_refused_below(
    alloc: Global,
    grammar: &CaseGrammar<'_>,
    input: &Input,
    output: &Output,
) -> Result<bool, Trouble> {
    let recorded = output.recorded();
    let least = if recorded > FEW {
        recorded.saturating_sub(1)
    } else {
        0
    };
    for events in least..recorded {
        let limits = Limits { events, ..MOST };
        let told = recorded_within(alloc, grammar, input, limits)?;
        if told != Err(ParseError::TooManyEvents) {
            return Ok(false);
        }
    }
    let errors = errors_of(output);
    let own = Limits {
        events: recorded,
        errors,
    };
    if recorded_within(alloc, grammar, input, own)? != Ok(recorded) {
        return Ok(false);
    }
    let Some(errors) = errors.checked_sub(1) else {
        return Ok(true);
    };
    let less = recorded_within(alloc, grammar, input, Limits { errors, ..MOST })?;
    Ok(less == Err(ParseError::TooManyErrors))
}

/// A limit, of which `-` is that of a parse that is given none.
fn limit(word: &str, most: u32) -> Option<u32> {
    if word == "-" {
        Some(most)
    } else {
        word.parse::<u32>().ok()
    }
}

/// What comes within the limits of the line: `within 2 0 too many events`, or `within 3 - recorded 3`.
pub fn within(
    alloc: Global,
    grammar: &CaseGrammar<'_>,
    input: &Input,
    entry: &Entry<'_>,
) -> Result<String, Trouble> {
    let (first, rest) = entry.value.split_once(' ').unwrap_or(("", ""));
    let (second, _) = rest.split_once(' ').unwrap_or(("", ""));
    let (Some(events), Some(errors)) = (limit(first, MOST.events), limit(second, MOST.errors))
    else {
        return Err(malformed(entry.line, "limits are two numbers"));
    };
    Ok(
        match recorded_within(alloc, grammar, input, Limits { events, errors })? {
            Ok(recorded) => format!(in alloc; "within {first} {second} recorded {recorded}")?,
            Err(error) => format!(in alloc; "within {first} {second} {error}")?,
        },
    )
}
