//! The tokens that a parser sees from an index on. What is inlined runs at each look-ahead.
ghost use Rattle.std.specs.Prelude.{◌≡◌, ◌≤◌, length, drop};
ghost use Rattle.squawk_parser.specs.LookAhead.{seen_from, is_joint_next};
ghost use Rattle.squawk_table.specs.ParserInput.{kind_in};

pub(super) mod composites;
mod operators;

use crate::parser::tokens::Tokens;
use squawk_kinds::SyntaxKind;
use std::marker::Model;

/// The tokens of an input from index `start` to index `limit`.
///
/// Indices in a view count from its first token. From its end on the kind is [`SyntaxKind::EOF`].
#[derive(Drop)]
pub(super) struct View<'t> {
    tokens: &'t Tokens<'t>,
    start: usize,
    limit: usize,
}

impl<'t> Model for View<'t> {
    ghost use Rattle.std.specs.Prelude.{List, length, ◌≤◌};
    ghost use Rattle.squawk_table.specs.ParserInput.{Entry};
    ghost use Rattle.squawk_parser.specs.LookAhead.{seen_from};

    ghost Value = { List Entry };

    ghost view = { λ v. seen_from v.tokens.now.input.now v.limit v.start };

    ghost invariant = { λ v. v.limit ≤ length v.tokens.now.input.now };
}

impl<'t> View<'t> {
    /// The view from token `start` of the input to token `limit`.
    #[inline(always)]
    pub(super) fn new(tokens: &'t Tokens<'t>, start: usize, limit: usize) -> View<'t>
        requires { limit ≤ length tokens.now.input.now }
        ensures { result ≡ seen_from tokens.now.input.now limit start }
    {
        View {
            tokens,
            start,
            limit,
        }
    }

    /// The kind of token `i`.
    #[inline(always)]
    pub(super) fn kind(&self, i: usize) -> SyntaxKind
        ensures { result ≡ kind_in self.now i }
    {
        let index = self.start.saturating_add(i);
        if index < self.limit {
            self.tokens.kind(index)
        } else {
            SyntaxKind::EOF
        }
    }

    /// Whether token `i` is joint with the next one of the view: nothing is between them.
    pub(super) fn is_joint_next(&self, i: usize) -> bool
        ensures { result ≡ is_joint_next (drop i self.now) }
    {
        let next = self.start.saturating_add(i).saturating_add(1);
        next < self.limit && self.tokens.is_joint(next - 1)
    }
}
