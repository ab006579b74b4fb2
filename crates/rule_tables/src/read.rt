//! Rules that are written as text.
ghost use Rattle.std.specs.Prelude.{◌≡◌, IfErr, IfOk, drop};
ghost use Rattle.rule_tables.specs.Texts.{IsTextRefusal, IsTextOf, byte_in, first_byte};

use crate::error::RulesError;
use crate::names::Names;
use crate::rules::Rules;
use crate::shown::shown;
use rule_parts::Part;
use rule_text::{Place, ReadError, read};
use std::alloc::Global;
use std::error::Error;
use std::fmt;

/// Why a text isn't rules that can be run.
#[derive(Debug, Drop, PartialEq, Eq)]
pub enum TextError {
    /// It isn't rules.
    Read(ReadError),
    /// Its rules can't be run. The fault is at this place: that of the first name in or after the part. Where four
    /// tokens don't decide, `tokens` has their names in the text; else, or if memory ran out, it is empty.
    Rules {
        reason: RulesError,
        at: Place,
        tokens: String,
    },
}

impl fmt::Display for TextError {
    ghost use Rattle.std.specs.Prelude.{Some};
    ghost use Rattle.rule_tables.specs.ErrorLines.{text_error_line};

    ghost output = { λ error. Some (text_error_line error) };

    fn fmt<W: fmt::Write>(&self, f: &mut fmt::Formatter<W>) -> fmt::Result {
        match self {
            TextError::Read(reason) => write!(f, "{reason}"),
            TextError::Rules { reason, at, tokens } if tokens.is_empty() => {
                write!(f, "{}:{}: {}", at.line, at.column, reason.message())
            }
            TextError::Rules { reason, at, tokens } => {
                write!(
                    f,
                    "{}:{}: {}: {tokens}",
                    at.line,
                    at.column,
                    reason.message()
                )
            }
        }
    }
}

impl Error for TextError {}

impl From<ReadError> for TextError {
    ghost use Rattle.std.specs.Prelude.{◌≡◌};
    ghost use Rattle.rule_tables.specs.declared.read.TextError.TheVariants.{Read};

    ghost from_gives = { λ reason error. error ≡ Read reason };

    fn from(reason: ReadError) -> TextError {
        TextError::Read(reason)
    }
}

impl Rules {
    /// The rules of a text (`docs/RULES.md`).
    pub fn read<N: Names>(alloc: Global, text: &str, names: &N) -> Result<Rules, TextError>
        ensures ok { IfOk result (IsTextOf (N.vocabulary names.now) text.now) }
        ensures err { IfErr result (IsTextRefusal (N.vocabulary names.now) text.now) }
    {
        let parts = read(alloc, text)?;
        match Rules::new(alloc, &parts, names) {
            Ok(rules) => Ok(rules),
            Err(reason) => Err(TextError::Rules {
                reason,
                at: Place::of(text, byte_of(&parts, reason.part())),
                tokens: tokens_of(alloc, &parts, names, &reason),
            }),
        }
    }
}

/// The names of the tokens that don't decide, if some don't and memory suffices.
fn tokens_of<N: Names>(
    alloc: Global,
    parts: &[Part<'_>],
    names: &N,
    reason: &RulesError,
) -> String {
    let tokens = match reason {
        RulesError::Undecided { kinds, .. } => shown(alloc, parts, names, kinds),
        _ => return String::new(alloc),
    };
    match tokens {
        Ok(tokens) => tokens,
        Err(_reason) => String::new(alloc),
    }
}

/// The byte of the first name in or after a part, or 0.
fn byte_of(parts: &[Part<'_>], part: usize) -> usize
    ensures { result ≡ first_byte (drop part parts.now) }
{
    for one in &parts[part.min(parts.len())..] {
        if let Some(at) = byte_in(one) {
            return at;
        }
    }
    0
}

/// The byte of the name in a part.
fn byte_in(part: &Part<'_>) -> Option<usize>
    ensures { result ≡ byte_in part.now }
{
    match part {
        Part::Set { name, .. } | Part::Words { name, .. } | Part::Guard { name, .. } => Some(
            name.at,
        ),
        Part::Rule { name, .. } | Part::Token { name } | Part::Class { name } => Some(name.at),
        Part::Call { name } | Part::Becomes { name } | Part::Guarded { name } => Some(name.at),
        Part::Kind { name } => Some(name.at),
        _ => None,
    }
}
