//! Tokens that don't decide.
ghost use Rattle.std.specs.Prelude.{◌≡◌, ◌+◌, ◌<◌, length, map, slice_set};
ghost use Rattle.squawk_kinds.specs.Kinds.{IsTokenKind};
ghost use Rattle.rule_grammar.specs.Parts.{bit_of};

use crate::looks::{ANY, Look};
use squawk_kinds::SyntaxKind;

/// Tokens that came and don't decide.
#[derive(Clone, Copy)]
pub(crate) struct Trail {
    /// How many there are.
    pub(crate) depth: usize,
    /// The sets that they are in.
    pub(crate) look: Look,
    /// The numbers of their kinds, as they are told.
    pub(crate) kinds: [u16; 4],
    ghost four: { length kinds ≡ 4 },
}

impl Trail {
    pub(crate) fn none() -> Trail
        ensures { result.depth ≡ 0 }
    {
        Trail {
            depth: 0,
            look: [ANY; 5],
            kinds: [SyntaxKind::EOF.0; 4],
        }
    }

    /// The look at these tokens and one in the set of this number.
    pub(crate) fn look_at(&self, set: u16) -> Look
        requires { self.now.depth < 4 }
    {
        let mut look = self.look;
        look[self.depth] = set;
        look
    }

    /// The numbers of the kinds of these tokens and one of this kind.
    pub(crate) fn told(&self, symbol: SyntaxKind) -> [u16; 4]
        requires depth { self.now.depth < 4 }
        requires token { IsTokenKind symbol }
        ensures len { length result ≡ 4 }
        ensures kinds { map bit_of result ≡ slice_set (map bit_of self.now.kinds) self.now.depth symbol }
    {
        let mut kinds = self.kinds;
        kinds[self.depth] = kind_of(symbol).0;
        kinds
    }

    /// These tokens and one of this kind, in the set of this number.
    pub(crate) fn then(&self, set: u16, symbol: SyntaxKind) -> Trail
        requires depth { self.now.depth < 4 }
        requires token { IsTokenKind symbol }
        ensures depth { result.depth ≡ self.now.depth + 1 }
        ensures kinds { map bit_of result.kinds ≡ slice_set (map bit_of self.now.kinds) self.now.depth symbol }
    {
        Trail {
            depth: self.depth + 1,
            look: self.look_at(set),
            kinds: self.told(symbol),
        }
    }
}

/// The kind that a kind in sets stands for.
fn kind_of(symbol: SyntaxKind) -> SyntaxKind
    requires { IsTokenKind symbol }
    ensures { bit_of result ≡ symbol }
{
    match symbol {
        SyntaxKind::TOMBSTONE => SyntaxKind::CUSTOM_OP,
        SyntaxKind::ERROR => SyntaxKind::COLON_COLON,
        kind => kind,
    }
}
