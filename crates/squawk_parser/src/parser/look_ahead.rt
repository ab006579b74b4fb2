//! Look-ahead in the input.
//!
//! A call reads the token that is `n` after the current one. From the limit on, and past the input, both
//! kinds are [`SyntaxKind::EOF`]. What is inlined runs at each token.
ghost use Rattle.std.specs.Prelude.{◌≡◌, ◌+◌, ◌<◌, ◌==◌, SomeIff, true};
ghost use Rattle.squawk_parser.specs.Composites.{stands_at};
ghost use Rattle.squawk_parser.specs.Operators.{operator_length, is_next_apart};
ghost use Rattle.squawk_parser.specs.State.{ahead, kind_at, contextual_kind_at};
ghost use Rattle.squawk_kinds.specs.TokenSets.{has};

use crate::parser::Parser;
use crate::parser::view::View;
use squawk_kinds::{SyntaxKind, TokenSet};

impl Parser<'_> {
    /// The kind of the current token.
    pub fn current(&self) -> SyntaxKind
        ensures { result ≡ kind_at self.now 0 }
    {
        self.nth(0)
    }

    /// The kind of the token `n` after the current one.
    #[inline(always)]
    pub fn nth(&self, n: usize) -> SyntaxKind
        ensures { result ≡ kind_at self.now n }
    {
        match self.seen(n) {
            Some(index) => self.tokens.kind(index),
            None => SyntaxKind::EOF,
        }
    }

    /// The contextual kind of the token `n` after the current one.
    pub fn nth_contextual_kind(&self, n: usize) -> SyntaxKind
        ensures { result ≡ contextual_kind_at self.now n }
    {
        match self.seen(n) {
            Some(index) => self.tokens.contextual_kind(index),
            None => SyntaxKind::EOF,
        }
    }

    /// Whether the kind, composite or not, is at the position.
    #[inline(always)]
    pub fn at(&self, kind: SyntaxKind) -> bool
        ensures { result ≡ stands_at (has self.now.words.operator_first) kind (ahead self.now 0) }
    {
        self.nth_at(0, kind)
    }

    /// Whether the kind, composite or not, is `n` tokens after the position.
    #[inline(always)]
    pub fn nth_at(&self, n: usize, kind: SyntaxKind) -> bool
        ensures { result ≡ stands_at (has self.now.words.operator_first) kind (ahead self.now n) }
    {
        self.view(n).is_at(kind, &self.operator_first)
    }

    /// Whether the set has the kind of the current token.
    #[inline(always)]
    pub fn at_ts(&self, set: TokenSet) -> bool
        ensures { result ≡ has set (kind_at self.now 0) }
    {
        self.nth_at_ts(0, set)
    }

    /// Whether the set has the kind of the token `n` after the current one.
    #[inline(always)]
    pub fn nth_at_ts(&self, n: usize, set: TokenSet) -> bool
        ensures { result ≡ has set (kind_at self.now n) }
    {
        set.contains(self.nth(n))
    }

    /// Whether the set has the contextual kind of the token `n` after the current one.
    pub fn nth_at_contextual_ts(&self, n: usize, set: TokenSet) -> bool
        ensures { result ≡ has set (contextual_kind_at self.now n) }
    {
        set.contains(self.nth_contextual_kind(n))
    }

    /// Whether the current token is this contextual keyword.
    pub fn at_contextual_kw(&self, keyword: SyntaxKind) -> bool
        ensures { result ≡ (contextual_kind_at self.now 0 == keyword) }
    {
        self.nth_at_contextual_kw(0, keyword)
    }

    /// Whether the token `n` after the current one is this contextual keyword.
    pub fn nth_at_contextual_kw(&self, n: usize, keyword: SyntaxKind) -> bool
        ensures { result ≡ (contextual_kind_at self.now n == keyword) }
    {
        self.nth_contextual_kind(n) == keyword
    }

    /// The number of tokens of the operator at the position; 0 if there is none.
    pub fn op_len(&self) -> usize
        ensures length { result ≡ operator_length (has self.now.words.operator_first) (ahead self.now 0) }
        ensures some { has self.now.words.operator_first (kind_at self.now 0) ≡ true → 0 < result }
    {
        self.nth_op_len(0)
    }

    /// The number of tokens of the operator that begins `n` tokens after the position; 0 if none does.
    pub fn nth_op_len(&self, n: usize) -> usize
        ensures length { result ≡ operator_length (has self.now.words.operator_first) (ahead self.now n) }
        ensures some { has self.now.words.operator_first (kind_at self.now n) ≡ true → 0 < result }
    {
        self.view(n).operator_len(&self.operator_first)
    }

    /// Whether the current token and the next aren't joined by an operator.
    pub fn next_not_joined_op(&self) -> bool
        ensures { result ≡ is_next_apart (has self.now.words.operator_first) (ahead self.now 0) }
    {
        self.view(0).is_next_apart(&self.operator_first)
    }

    /// The tokens from the one `n` after the current one on.
    #[inline(always)]
    pub(super) fn view(&self, n: usize) -> View<'_>
        ensures { result ≡ ahead self.now n }
    {
        View::new(&self.tokens, self.position.saturating_add(n), self.limit)
    }

    /// The input index of the token `n` after the current one, if it is before the limit.
    #[inline(always)]
    fn seen(&self, n: usize) -> Option<usize>
        ensures { SomeIff result (self.now.position + n < self.now.limit) (self.now.position + n) }
    {
        let index = self.position.saturating_add(n);
        if index < self.limit {
            Some(index)
        } else {
            None
        }
    }
}
