//! The parses of a case.

use crate::given::Given;
use crate::trouble::Trouble;
use row_fixtures::call_list::{CallListError, calls_of};
use row_fixtures::parts::EatingWith;
use squawk_parser::{EntryPoint, Grammar, Input, Limits, Output, ParseError, SyntaxKind, Words};
use squawk_script::{Script, ScriptError};
use std::alloc::Global;
use tiny_grammar::Tiny;

/// The grammar of a case, with the entry point from which it is run.
#[derive(Drop)]
pub struct CaseGrammar<'t> {
    entry_point: EntryPoint,
    calls: Calls<'t>,
}

#[derive(Drop)]
enum Calls<'t> {
    Script(Script<'t>),
    EatWith(EatingWith<'t>),
    Tiny(Tiny),
}

/// A root in which the kind is eaten, with its tail.
pub fn eating<'t>(given: &'t Given<'_>, kind: SyntaxKind) -> CaseGrammar<'t> {
    let Words {
        operator_first,
        names,
    } = given.words();
    let grammar = EatingWith {
        operator_first,
        names,
        kind,
    };
    CaseGrammar {
        entry_point: given.entry_point,
        calls: Calls::EatWith(grammar),
    }
}

/// The small grammar.
pub fn tiny<'t>(given: &'t Given<'_>) -> CaseGrammar<'t> {
    CaseGrammar {
        entry_point: given.entry_point,
        calls: Calls::Tiny(Tiny::new()),
    }
}

/// The script of the calls, or the line of why there is none.
pub fn calling<'t>(
    given: &'t Given<'_>,
    calls: &str,
) -> Result<Result<CaseGrammar<'t>, String>, Trouble> {
    let alloc = given.alloc;
    let calls = match calls_of(alloc, calls) {
        Ok(calls) => calls,
        Err(CallListError::OutOfMemory) => return Err(Trouble::OutOfMemory),
        Err(error) => return Ok(Err(format!(in alloc; "{error}")?)),
    };
    match Script::new(alloc, calls, given.words()) {
        Ok(script) => Ok(Ok(CaseGrammar {
            entry_point: given.entry_point,
            calls: Calls::Script(script),
        })),
        Err(ScriptError::OutOfMemory) => Err(Trouble::OutOfMemory),
        Err(error) => Ok(Err(format!(in alloc; "{error}")?)),
    }
}

impl<'t> CaseGrammar<'t> {
    /// The output over the input, or why there is none: by `EntryPoint::parse` where no limits are named.
    pub fn parse(
        &self,
        alloc: Global,
        input: &Input,
        limits: Option<Limits>,
    ) -> Result<Result<Output, ParseError>, Trouble> {
        let answer = match &self.calls {
            Calls::Script(script) => parse(alloc, self.entry_point, input, script, limits),
            Calls::EatWith(grammar) => parse(alloc, self.entry_point, input, grammar, limits),
            Calls::Tiny(grammar) => parse(alloc, self.entry_point, input, grammar, limits),
        };
        match answer {
            Err(ParseError::OutOfMemory) => Err(Trouble::OutOfMemory),
            answer => Ok(answer),
        }
    }
}

fn parse<G: Grammar>(
    alloc: Global,
    entry_point: EntryPoint,
    input: &Input,
    grammar: &G,
    limits: Option<Limits>,
) -> Result<Output, ParseError> {
    match limits {
        None => entry_point.parse(alloc, input, grammar),
        Some(Limits { events, errors }) => {
            let errors = errors.min(2147483648);
            let limits = Limits { events, errors };
            entry_point.parse_within(alloc, input, grammar, limits)
        }
    }
}
