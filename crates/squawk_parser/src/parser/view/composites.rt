//! Whether a composite kind is at the front of a view. What is inlined picks the form of a constant kind.
ghost use Rattle.std.specs.Prelude.{◌≡◌, ◌≤◌, ◌==◌, map};
ghost use Rattle.std.specs.List.{list_any};
ghost use Rattle.squawk_parser.specs.CompositeForms.{element_of};
ghost use Rattle.squawk_parser.specs.Composites.{stands_at, are_joint, are_apart, sequence_length, normal_forms};
ghost use Rattle.squawk_kinds.specs.TokenSets.{has};

use crate::parser::composite::{Form, Parts, composite};
use crate::parser::view::View;
use squawk_kinds::{SyntaxKind, TokenSet};

impl View<'_> {
    /// Whether the kind, composite or not, is at the front.
    #[inline(always)]
    pub(in crate::parser) fn is_at(&self, kind: SyntaxKind, operator_first: &TokenSet) -> bool
        ensures { result ≡ stands_at (has operator_first.now) kind self.now }
    {
        match composite(kind) {
            None => self.kind(0) == kind,
            Some(Form::Glued(parts) | Form::Joint(parts)) => {
                let n = parts.as_slice().len();
                self.are_joint(&parts) && self.again().are_apart(n, operator_first)
            }
            Some(Form::Sequence { parts, tail: _ }) => self.sequence_len(&parts).is_some(),
            Some(Form::Operator) => operator_first.contains(self.kind(0)),
        }
    }

    /// A copy of the view, so that a test that ends before this call needs none in memory.
    #[inline(always)]
    fn again(&self) -> View<'_>
        ensures { result ≡ self.now }
    {
        View::new(self.tokens, self.start, self.limit)
    }

    /// Whether the parts are at the front and each is joint with the next.
    #[inline(always)]
    fn are_joint(&self, parts: &Parts) -> bool
        ensures { result ≡ are_joint parts.now self.now }
    {
        let parts = parts.as_slice();
        for (i, part) in parts.iter().enumerate() {
            if self.kind(i) != *part || i + 1 < parts.len() && !self.is_joint_next(i) {
                return false;
            }
        }
        true
    }

    /// Whether the first `n` tokens, which are joint, are no part of a longer operator.
    // Few kinds get here.
    #[cold]
    fn are_apart(&self, n: usize, operator_first: &TokenSet) -> bool
        requires { 1 ≤ n }
        ensures { result ≡ are_apart (has operator_first.now) n self.now }
    {
        !(operator_first.contains(self.kind(0))
            && operator_first.contains(self.kind(n))
            && self.is_joint_next(n - 1))
            || self.operator_len_up_to(n, operator_first) == n
    }

    /// The number of tokens that the parts of a sequence have at the front, if they are there.
    #[inline(always)]
    fn sequence_len(&self, parts: &Parts) -> Option<usize>
        ensures { result ≡ sequence_length (map element_of parts.now) self.now }
    {
        let mut len = 0;
        for part in parts.as_slice() {
            if *part == SyntaxKind::UNICODE_NORMAL_FORM {
                if is_normal_form(self.kind(len)) {
                    len += 1;
                }
            } else if self.kind(len) == *part {
                len += 1;
            } else {
                return None;
            }
        }
        Some(len)
    }
}

/// Whether the kind is the keyword of a normal form of Unicode.
pub(in crate::parser) fn is_normal_form(kind: SyntaxKind) -> bool
    ensures { result ≡ list_any (λ form. kind == form) normal_forms }
{
    matches!(
        kind,
        SyntaxKind::NFC_KW | SyntaxKind::NFD_KW | SyntaxKind::NFKC_KW | SyntaxKind::NFKD_KW
    )
}
