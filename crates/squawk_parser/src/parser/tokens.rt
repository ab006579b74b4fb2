//! The tokens that a parser reads. What is inlined runs at each look-ahead.
ghost use Rattle.std.specs.Prelude.{◌≡◌, ◌≤◌, ◌<◌, length, IfSome, Some};
ghost use Rattle.std.proofs.Props.{props};
ghost use Rattle.squawk_kinds.specs.TokenSets.{has};
ghost use Rattle.squawk_parser.specs.LookAhead.{seen_from};
ghost use Rattle.squawk_parser.specs.Operators.{operator_length};
ghost use Rattle.squawk_parser.specs.OperatorRuns.{AreRunsOf};
ghost use Rattle.squawk_parser.specs.declared.parser.tokens.operator_runs.OperatorRuns.{OperatorRuns};
ghost use Rattle.squawk_table.specs.ParserInput.{HasNoEndToken, kind_in, contextual_kind_in, is_joint_in};

mod operator_runs;

use crate::parser::tokens::operator_runs::{OperatorRuns, has_long_run};
use squawk_kinds::{SyntaxKind, TokenSet};
use squawk_table::Input;
use std::alloc::Global;

/// The greatest number of tokens whose indices fit in 32 bits.
const MOST: usize = u32::MAX as usize;

/// The tokens of an input, and the lengths of their operators if one may be long.
#[derive(Drop)]
pub(super) struct Tokens<'t> {
    input: &'t Input,
    runs: Option<OperatorRuns>,
    ghost right: { (numbers : OperatorRuns) → runs ≡ Some numbers → AreRunsOf numbers input.now } by { Prim.hlevel props },
}

impl<'t> Tokens<'t> {
    /// Makes the tokens of an input.
    ///
    /// If an operator of these kinds may be long, but the allocation of the lengths fails, each look-ahead
    /// reads the operator.
    pub(super) fn new(alloc: Global, input: &'t Input, operator_first: &TokenSet) -> Tokens<'t>
        ensures { result.input.now ≡ input.now }
    {
        let runs = if input.len() <= MOST && has_long_run(input, operator_first) {
            OperatorRuns::new(alloc, input, operator_first).ok()
        } else {
            None
        };
        Tokens { input, runs }
    }

    /// The number of tokens.
    pub(super) fn len(&self) -> usize
        ensures len { result ≡ length self.now.input.now }
        ensures no_end { HasNoEndToken self.now.input.now }
    {
        self.input.len()
    }

    /// The kind of token `i`, and [`SyntaxKind::EOF`] past the end.
    #[inline(always)]
    pub(super) fn kind(&self, i: usize) -> SyntaxKind
        ensures { result ≡ kind_in self.now.input.now i }
    {
        self.input.kind(i)
    }

    /// The contextual kind of token `i`, and [`SyntaxKind::EOF`] past the end.
    #[inline(always)]
    pub(super) fn contextual_kind(&self, i: usize) -> SyntaxKind
        ensures { result ≡ contextual_kind_in self.now.input.now i }
    {
        self.input.contextual_kind(i)
    }

    /// Whether token `i` is joint with the next.
    #[inline(always)]
    pub(super) fn is_joint(&self, i: usize) -> bool
        requires { i < length self.now.input.now }
        ensures { result ≡ is_joint_in self.now.input.now i }
    {
        self.input.is_joint(i)
    }

    /// The number of tokens before token `limit` that the operator at token `start` has, if the lengths are known.
    pub(super) fn operator_len(
        &self,
        start: usize,
        limit: usize,
        operator_first: &TokenSet,
    ) -> Option<usize>
        requires { limit ≤ length self.now.input.now }
        ensures { IfSome result (λ len. len ≡ operator_length (has operator_first.now) (seen_from self.now.input.now limit start)) }
    {
        let runs = self.runs.as_ref()?;
        if runs.are_of(operator_first) {
            Some(runs.operator_len(self.input, start, limit))
        } else {
            None
        }
    }
}
