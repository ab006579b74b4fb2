//! The length of the operator at the front of a view.
ghost use Rattle.std.specs.Prelude.{◌≡◌};
ghost use Rattle.squawk_parser.specs.Operators.{operator_length, is_next_apart};
ghost use Rattle.squawk_parser.specs.OperatorLengths.{IsLengthUpTo};
ghost use Rattle.squawk_kinds.specs.TokenSets.{has};

use crate::parser::operator_names::{is_sign, is_special};
use crate::parser::view::View;
use squawk_kinds::TokenSet;

impl View<'_> {
    /// The number of tokens of the operator at the front; 0 if there is none.
    pub(in crate::parser) fn operator_len(&self, operator_first: &TokenSet) -> usize
        ensures { result ≡ operator_length (has operator_first.now) self.now }
    {
        self.operator_len_up_to(usize::MAX, operator_first)
    }

    /// The number of tokens of the operator at the front, or a number above `most` if there are more.
    ///
    /// If the lengths aren't known, this is one pass over the joint tokens. The longest name is the last
    /// prefix read that is one. The pass ends once it has more than `most` tokens.
    pub(in crate::parser) fn operator_len_up_to(
        &self,
        most: usize,
        operator_first: &TokenSet,
    ) -> usize
        ensures { IsLengthUpTo most (operator_length (has operator_first.now) self.now) result }
    {
        if let Some(len) = self
            .tokens
            .operator_len(self.start, self.limit, operator_first)
        {
            return len;
        }
        let mut longest = 0;
        let mut has_special = false;
        for index in self.start..self.limit {
            if longest > most {
                break;
            }
            let kind = self.tokens.kind(index);
            if !operator_first.contains(kind) {
                break;
            }
            has_special = has_special || is_special(kind);
            let len = index - self.start + 1;
            if len == 1 || has_special || !is_sign(kind) {
                longest = len;
            }
            if !self.tokens.is_joint(index) {
                break;
            }
        }
        longest
    }

    /// Whether the first two tokens aren't joined by an operator.
    pub(in crate::parser) fn is_next_apart(&self, operator_first: &TokenSet) -> bool
        ensures { result ≡ is_next_apart (has operator_first.now) self.now }
    {
        !(operator_first.contains(self.kind(0))
            && operator_first.contains(self.kind(1))
            && self.is_joint_next(0)
            && self.operator_len_up_to(1, operator_first) != 1)
    }
}
