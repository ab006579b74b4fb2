//! Symbols: what sets of first kinds and looks are asked for.
ghost use Rattle.std.specs.Prelude.{◌≡◌};
ghost use Rattle.rule_grammar.specs.Parts.{bit_of};
ghost use Rattle.rule_grammar.specs.Derivations.{operators_of};

use crate::table::Table;
use squawk_parser::{Parser, SyntaxKind, TokenSet};

/// The kind that stands for a kind in sets, which have no kinds above 639: one that no token has.
#[inline(always)]
pub fn bit_of(kind: SyntaxKind) -> SyntaxKind
    ensures { result ≡ bit_of kind }
{
    match kind {
        SyntaxKind::CUSTOM_OP => SyntaxKind::TOMBSTONE,
        SyntaxKind::COLON_COLON => SyntaxKind::ERROR,
        kind => kind,
    }
}

/// A symbol, and how many tokens it has.
#[derive(Clone, Copy)]
pub(crate) struct Symbol {
    pub(crate) kind: SyntaxKind,
    pub(crate) len: usize,
}

impl Table<'_> {
    /// The symbol at the position: the kind of its token, or the composite kind that it begins.
    #[inline(always)]
    pub(crate) fn symbol(&self, p: &Parser<'_>) -> SyntaxKind {
        self.symbol_after(0, p).kind
    }

    /// The symbol that begins `n` tokens after the position.
    #[inline(always)]
    pub(crate) fn symbol_after(&self, n: usize, p: &Parser<'_>) -> Symbol {
        let kind = self.nth(n, p);
        if self.composed.contains(kind) {
            self.composite(kind, n, p)
        } else {
            Symbol { kind, len: 1 }
        }
    }

    /// The kind of the token `n` tokens after the position. One that no rule has stands for a hidden token.
    #[inline(always)]
    fn nth(&self, n: usize, p: &Parser<'_>) -> SyntaxKind {
        if self.hides(p.position().saturating_add(n)) {
            SyntaxKind::WHITESPACE
        } else {
            p.nth(n)
        }
    }

    #[inline(never)]
    fn composite(&self, kind: SyntaxKind, n: usize, p: &Parser<'_>) -> Symbol {
        let single = Symbol { kind, len: 1 };
        if !self.operators.contains(kind) {
            return self.glued_or(single, 2, n, p);
        }
        match p.nth_op_len(n) {
            1 if self.plain.contains(kind) => single,
            len => {
                let kind = bit_of(SyntaxKind::CUSTOM_OP);
                self.glued_or(Symbol { kind, len }, len, n, p)
            }
        }
    }

    /// The first composite kind of so many tokens that stands `n` tokens after the position, or the other symbol.
    fn glued_or(&self, other: Symbol, len: usize, n: usize, p: &Parser<'_>) -> Symbol {
        for number in self.glued {
            let glued = SyntaxKind(*number);
            if len_of(glued) == len && p.nth_at(n, glued) {
                let kind = bit_of(glued);
                return Symbol { kind, len };
            }
        }
        other
    }

    /// The kinds that operators are made of, without the end.
    pub(crate) fn operator_kinds(&self) -> TokenSet
        ensures { result ≡ operators_of self.now.operators }
    {
        if self.operators.contains(SyntaxKind::EOF) {
            TokenSet::EMPTY
        } else {
            self.operators
        }
    }
}

/// How many tokens a composite kind of signs has.
fn len_of(kind: SyntaxKind) -> usize {
    match kind {
        SyntaxKind::LONG_ARROW => 3,
        _ => 2,
    }
}
