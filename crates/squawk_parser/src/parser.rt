//! The parser that a grammar's functions take.
ghost use Rattle.std.specs.Prelude.{◌≡◌, ◌<◌, ◌≤◌, ◌*◌, ◌^◌, IsOk, IfOk, IfErr, length};
ghost use Rattle.squawk_output.specs.Draft.{plain};
ghost use Rattle.squawk_parser.specs.Parse.{IsRefusalOf};
ghost use Rattle.squawk_parser.specs.State.{HasNotFailed, IsSound, fresh};
ghost use Rattle.squawk_parser.specs.Words.{HasNoEnd, words_of};

mod acts;
mod composite;
mod eat;
pub mod grammar;
pub mod limits;
mod look_ahead;
pub mod marker;
mod operator_names;
pub mod parse_error;
pub mod part;
mod recording;
mod skip;
pub mod tails;
mod tokens;
mod view;
pub mod whole_grammar;
pub mod words;

pub use grammar::{EntryPoint, Grammar};
pub use limits::Limits;
pub use marker::{CompletedMarker, Marker};
pub use parse_error::ParseError;
pub use part::Part;
use squawk_kinds::{KindNames, TokenSet};
use squawk_output::{EventLog, Output};
use std::alloc::{AllocError, Global};
use std::marker::Model;
pub use tails::has_tail;
use tokens::Tokens;
pub use whole_grammar::WholeGrammar;
pub use words::Words;

/// Initial room for events, for each token of the input: about as many as a grammar records.
const EVENTS_A_TOKEN: usize = 4;

/// A parse in progress: an input, a position in it, and the log of what was recorded, which contracts see
/// as a draft.
///
/// A call that records fails if an allocation fails, or if the limit of events or of errors is reached. It
/// doesn't return that. From then on the parser has failed: it keeps the first reason and records nothing
/// more. Its position and look-ahead go on as if it had not failed.
#[derive(Drop)]
pub struct Parser<'t> {
    tokens: Tokens<'t>,
    operator_first: TokenSet,
    names: KindNames<'t, 't>,
    alloc: Global,
    position: usize,
    limit: usize,
    log: EventLog,
    log_limits: Limits,
    first_reason: Option<ParseError>,
    // The bounds of two numbers' types.
    ghost fits: { (log_limits.events < 2 ^ 32) × (length tokens.input.now < 2 ^ 64) },
}

impl<'t> Model for Parser<'t> {
    ghost use Rattle.squawk_parser.specs.State.{State, IsSound};

    ghost Value = { State };

    ghost view = { λ p. record { input = p.tokens.input.now; words = record { operator_first = p.operator_first; names = p.names }; position = p.position; limit = p.limit; draft = p.log; max_events = p.log_limits.events; max_errors = p.log_limits.errors; first_reason = p.first_reason } };

    ghost invariant = { λ p. IsSound (record { input = p.tokens.input.now; words = record { operator_first = p.operator_first; names = p.names }; position = p.position; limit = p.limit; draft = p.log; max_events = p.log_limits.events; max_errors = p.log_limits.errors; first_reason = p.first_reason }) };
}

impl<'t> Parser<'t> {
    /// Makes a parser at the beginning of an input.
    fn new(alloc: Global, tokens: Tokens<'t>, words: Words<'t>, limits: Limits) -> Parser<'t>
        requires { HasNoEnd (words_of words) }
        ensures begins { result ≡ fresh tokens.entry.input.now (words_of words.entry) limits.events limits.errors }
        ensures sound { IsSound result }
    {
        let Words {
            operator_first,
            names,
        } = words;
        let limit = tokens.len();
        let room = limit.saturating_mul(EVENTS_A_TOKEN);
        Parser {
            tokens,
            operator_first,
            names: KindNames::new(alloc, names),
            alloc,
            position: 0,
            limit,
            log: EventLog::with_room(alloc, room.min(limits.events as usize)),
            log_limits: limits,
            first_reason: None,
        }
    }

    /// The number of input tokens eaten so far.
    pub fn position(&self) -> usize
        ensures position { result ≡ self.now.position }
        // The length of an input is a `usize`.
        ensures few { length self.now.input < 2 ^ 64 }
        // The invariant of a parser.
        ensures sound { IsSound self.now }
    {
        self.position
    }

    /// Does nothing. Its contract states the invariant of a parser, which reading a field brings up.
    // Inlined to nothing.
    #[inline(always)]
    fn witness_sound(&self)
        ensures { IsSound self.now }
    {
        let _ = &self.limit;
    }

    /// The first reason why the parser failed, if it did.
    pub fn failed(&self) -> Option<ParseError>
        ensures { result ≡ self.now.first_reason }
    {
        self.first_reason
    }

    /// Makes the output of a parse whose grammar returned `run`.
    ///
    /// The error is the parser's first reason; if it has none, `OutOfMemory`, if the grammar returned an error
    /// or an allocation of the output fails.
    fn finish(self, run: Result<(), AllocError>) -> Result<Output, ParseError>
        requires { self.max_errors ≤ 2147483648 }
        ensures sound { IsSound self.entry }
        ensures went { IsOk result → HasNotFailed self.entry × IsOk run }
        ensures output { IfOk result (λ o. o ≡ record { steps = plain self.entry.draft.items; recorded = self.entry.draft.recorded; turns = self.entry.draft.turns_due }) }
        ensures few { IfOk result (λ o. length o.steps ≤ o.recorded) }
        ensures bound { IfOk result (λ o. o.turns ≤ 4 * o.recorded) }
        ensures refused { IfErr result (IsRefusalOf self.entry) }
    {
        let Parser {
            tokens: _,
            operator_first: _,
            names: _,
            alloc,
            position: _,
            limit: _,
            log,
            log_limits: _,
            first_reason,
        } = self;
        if let Some(reason) = first_reason {
            return Err(reason);
        }
        run?;
        Ok(log.finish(alloc)?)
    }
}
