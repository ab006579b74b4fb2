//! Scripts: grammars that are lists of calls.
ghost use Rattle.std.specs.Prelude.{◌≡◌, IfOk, IfErr};
ghost use Rattle.squawk_parser.specs.Words.{HasNoEnd, words_of};
ghost use Rattle.squawk_script.specs.Accepted.{IsAccepted, Refuses};
ghost use Rattle.squawk_script.specs.LeavesOne.{LeavesOne};

mod grammar;

use crate::call::Call;
use crate::check::check;
use crate::script_error::ScriptError;
use squawk_parser::{SyntaxKind, TokenSet, Words};
use std::alloc::Global;
use std::marker::Model;

/// A list of calls that can be made one after another over every input, and that leave no marker open.
#[derive(Drop)]
pub struct Script<'t> {
    calls: Vec<Call>,
    markers: usize,
    operator_first: TokenSet,
    names: &'t [(SyntaxKind, &'t str)],
    alloc: Global,
}

impl<'t> Model for Script<'t> {
    ghost use Rattle.std.specs.Prelude.{◌≡◌};
    ghost use Rattle.squawk_parser.specs.Words.{HasNoEnd, words_of};
    ghost use Rattle.squawk_script.specs.Accepted.{IsAccepted, markers_of};
    ghost use Rattle.squawk_script.specs.Meaning.{Meaning};

    ghost Value = { Meaning };

    ghost view = { λ s. record { calls = s.calls.items; words = words_of (record { operator_first = s.operator_first; names = s.names }) } };

    ghost invariant = { λ s. IsAccepted s.calls.items × (s.markers ≡ markers_of s.calls.items) × HasNoEnd (words_of (record { operator_first = s.operator_first; names = s.names })) };
}

impl<'t> Script<'t> {
    /// Makes a script of these calls, with these words.
    ///
    /// Room for the markers is allocated before the calls are checked. An error drops the calls. `EOF` is no
    /// kind of an operator.
    pub fn new(alloc: Global, calls: Vec<Call>, words: Words<'t>) -> Result<Script<'t>, ScriptError>
        requires { HasNoEnd (words_of words) }
        ensures script { IfOk result (λ s. s ≡ record { calls = calls.items; words = words_of words.entry }) }
        ensures accepted { IfOk result (λ s. IsAccepted calls.items) }
        ensures refused { IfErr result (Refuses calls.items) }
        ensures leaves { IfOk result LeavesOne }
    {
        let Words {
            operator_first,
            names,
        } = words;
        let markers = check(alloc, &calls)?;
        Ok(Script {
            calls,
            markers,
            operator_first,
            names,
            alloc,
        })
    }
}
