//! Grammars, and how one parses an input.
ghost use Rattle.std.specs.Prelude.{◌≤◌, IfOk, IfErr};
ghost use Rattle.squawk_output.specs.Steps.{errors_in};
ghost use Rattle.squawk_parser.specs.State.{fresh};
ghost use Rattle.squawk_parser.specs.Parse.{IsParse, IsRefused};

use crate::parser::Parser;
use crate::parser::limits::Limits;
use crate::parser::parse_error::ParseError;
use crate::parser::tokens::Tokens;
use crate::parser::words::Words;
use squawk_output::Output;
use squawk_table::Input;
use std::alloc::{AllocError, Global};

/// The function of a grammar that a parse calls.
#[derive(Clone, Copy, Debug, PartialEq, Eq)]
pub enum EntryPoint {
    SourceFile,
    Plpgsql,
}

/// A grammar: the functions that parse an input, and theorems about them.
///
/// An entry point is called with a parser at the beginning of an input that has the grammar's words. It
/// leaves no marker open. It returns an error only if an allocation of its own fails: the parser keeps its
/// own failures. `leaves` is your theorem about the result, `runs` about every run, also one that fails;
/// leave it trivial if you need none.
pub trait Grammar {
    ghost use Rattle.std.specs.Prelude.{List, ◌≡◌, OnOk};
    ghost use Rattle.squawk_table.specs.ParserInput.{Entry};
    ghost use Rattle.squawk_output.specs.Draft.{Draft, HasNoOpenMarker};
    ghost use Rattle.squawk_parser.specs.State.{State, HasNotFailed, IsFresh, IsSound, Keeps};
    ghost use Rattle.squawk_parser.specs.Words as spec;
    ghost use Rattle.squawk_parser.specs.declared.parser.grammar.EntryPoint.{EntryPoint};

    /// The drafts that a run from an entry point may leave over an input.
    ghost leaves: { Self → EntryPoint → List Entry → Draft → Type 0 };

    /// What holds of the parser before a run from an entry point and after it, failed or not.
    ghost runs: { Self → EntryPoint → State → State → Type 0 };

    /// `words` in the proof language.
    ghost meaning: { Self → spec.Words };

    /// The kinds of the grammar's operators, of which `EOF` is none, and the names of its kinds.
    fn words(&self) -> Words<'_>
        ensures words { spec.words_of result ≡ meaning self.now }
        ensures operators { spec.HasNoEnd (meaning self.now) };

    /// Parses the input as a source file.
    fn entry_point(&self, p: &mut Parser<'_>) -> Result<(), AllocError>
        requires fresh { IsFresh p.old }
        // The invariant of a parser.
        requires sound { IsSound p.old }
        requires words { p.old.words ≡ meaning self.now }
        ensures keeps { Keeps p.old p.new }
        ensures closed { OnOk result (HasNotFailed p.new → HasNoOpenMarker p.new.draft.items) }
        ensures leaves { OnOk result (HasNotFailed p.new → leaves self.now EntryPoint.SourceFile p.old.input p.new.draft) }
        ensures runs { runs self.now EntryPoint.SourceFile p.old p.new };

    /// Parses the input as the body of a PL/pgSQL function.
    fn plpgsql_entry_point(&self, p: &mut Parser<'_>) -> Result<(), AllocError>
        requires fresh { IsFresh p.old }
        // The invariant of a parser.
        requires sound { IsSound p.old }
        requires words { p.old.words ≡ meaning self.now }
        ensures keeps { Keeps p.old p.new }
        ensures closed { OnOk result (HasNotFailed p.new → HasNoOpenMarker p.new.draft.items) }
        ensures leaves { OnOk result (HasNotFailed p.new → leaves self.now EntryPoint.Plpgsql p.old.input p.new.draft) }
        ensures runs { runs self.now EntryPoint.Plpgsql p.old p.new };
}

/// Default limits.
const LIMITS: Limits = Limits {
    events: u32::MAX,
    errors: 1 << 31,
};

impl EntryPoint {
    /// Parses an input by a grammar, from this entry point.
    ///
    /// The error is the first reason why the parser failed; if it didn't, `OutOfMemory`, if the grammar
    /// returned an error or an allocation of the output fails. The parse may record `u32::MAX` events, 2^31 of
    /// them errors.
    pub fn parse<G: Grammar>(
        &self,
        alloc: Global,
        input: &Input,
        grammar: &G,
    ) -> Result<Output, ParseError>
        ensures output { IfOk result (λ o. IsParse (G.leaves grammar.now self.now input.now) input.now o) }
        ensures within { IfOk result (λ o. (o.recorded ≤ 4294967295) × (errors_in o.steps ≤ 2147483648)) }
        ensures refused { IfErr result (IsRefused (G.runs grammar.now self.now) (fresh input.now (G.meaning grammar.now) 4294967295 2147483648)) }
    {
        self.parse_within(alloc, input, grammar, LIMITS)
    }

    /// Parses an input by a grammar, from this entry point, with limits of its events and its errors.
    ///
    /// The parser fails at an event past the limit of events, and at an error past the limit of errors.
    pub fn parse_within<G: Grammar>(
        &self,
        alloc: Global,
        input: &Input,
        grammar: &G,
        limits: Limits,
    ) -> Result<Output, ParseError>
        requires { limits.errors ≤ 2147483648 }
        ensures output { IfOk result (λ o. IsParse (G.leaves grammar.now self.now input.now) input.now o) }
        ensures within { IfOk result (λ o. (o.recorded ≤ limits.events) × (errors_in o.steps ≤ limits.errors)) }
        ensures refused { IfErr result (IsRefused (G.runs grammar.now self.now) (fresh input.now (G.meaning grammar.now) limits.events limits.errors)) }
    {
        let words = grammar.words();
        let tokens = Tokens::new(alloc, input, &words.operator_first);
        let mut p = Parser::new(alloc, tokens, words, limits);
        let run = match self {
            EntryPoint::SourceFile => grammar.entry_point(&mut p),
            EntryPoint::Plpgsql => grammar.plpgsql_entry_point(&mut p),
        };
        p.finish(run)
    }
}
