//! Rules as numbers.
ghost use Rattle.std.specs.Prelude.{◌≡◌, ◌<◌, option_map, slice_get};
ghost use Rattle.rule_grammar.specs.Derivations.{is_hidden, kind_of, next_of, text_of};
ghost use Rattle.rule_grammar.specs.Parts.{part_at, set_has};

use crate::part::{Part, beyond, part_of};
use squawk_parser::{Parser, SyntaxKind, TokenSet};

/// Rules as numbers. Any numbers can be run.
///
/// Each part of a rule is a row, and what is in it stands in the rows after it:
///
/// | number of a row | meaning |
/// |---|---|
/// | 0 | which part it is, as below, 256 more if its rule may end after it, 512 more if it is an arm with a look or guard, 1024 |
/// |   | more if it is a node and the last part in it is one of number 5 |
/// | 1 | the row after the last one in it |
/// | 2 | its kind, set or level, or the row of the rule that it calls |
/// | 3 | the set of kinds that it can begin with |
/// | 4 | the set of kinds that may come after it in its rule |
/// | 5 | the set of further kinds at which its rule goes on after an error |
/// | 6 | its look, or 0; of operators the set of kinds that one begins with; of a call or an operand 1 more than the set |
/// |   | of kinds that items of the lists around it in its rule begin with, or 0 |
/// | 7 | its message: what is expected |
///
/// | part | what it is |
/// |---|---|
/// | 1 | a token of a kind, or the tokens of a composite one |
/// | 2 | an identifier whose contextual kind is in a set |
/// | 3, 4 | a token whose kind is in a set; the same, which gets the kind of number 1 |
/// | 5 | the kind that the node around it gets |
/// | 6 | a call of the rule from the row of number 2 up to that of number 1 |
/// | 7 | an operand of an operator: the row of the operators in number 1, their least level in number 2 |
/// | 8 | a guard, with the sets of the numbers 1 and 2 |
/// | 9 | a node of a kind |
/// | 10, 11 | a choice of the arms in it; an arm |
/// | 12, 13, 14 | what is in it, or nothing; any number of times; once or more |
/// | 15 | what is in it, once or more, with a separator |
/// | 16 | an operand, one of its arms, each a node, and the operators after it, which stand in it, too |
/// | 17, 18, 19 | an operator of a level: one that associates, one that doesn't, one without a right operand |
/// | 20 | the node before has one of the kinds that the rows in it name, each as the part 5 does |
/// | 21 | a look: the tokens in it stand there, one after another |
///
/// Any other part is nothing.
///
/// A guard or a look is the first part of its arm, which is parsed only where it holds. A guard holds where a run of
/// opening parentheses stands, then a token of the set of number 1, and after each that closes one of them, but the first
/// of the run, a token of the set of number 2. A parenthesis that isn't closed before a semicolon or the end needs none.
///
/// The sets of the numbers 3 to 5, those of operators and of looks have *symbols*: a symbol is the kind of the token that
/// stands there, or the composite kind that it begins ([`Table::glued`]), as [`bit_of`](crate::bit_of) tells it. The other
/// sets have kinds of tokens.
#[derive(Clone, Copy)]
pub struct Table<'r> {
    pub rows: &'r [[u16; 8]],
    /// Sets of token kinds: a set has kind `k` if bit `k % 16` of its number `k / 16` is 1.
    pub sets: &'r [[u16; 40]],
    /// Looks, counted from 1: the sets that the next symbols are in, one to four, then 65535, and the look that is tried
    /// next, or 0, in the last number.
    pub looks: &'r [[u16; 5]],
    /// The messages, one after another.
    pub messages: &'r str,
    /// Where each message ends, in bytes.
    pub message_ends: &'r [usize],
    /// The kinds that operators are made of. With EOF in it, it counts as empty.
    pub operators: TokenSet,
    /// The kinds of operators of one token that are symbols by themselves.
    pub plain: TokenSet,
    /// The numbers of the composite kinds that are symbols. Any other operator's symbol is CUSTOM_OP, and any other
    /// token's its kind.
    pub glued: &'r [u16],
    /// The kinds that `operators` has and that those in `glued` begin with.
    pub composed: TokenSet,
    pub hidden: Hidden<'r>,
}

/// The tokens of an input that no rule takes, so that each is an error.
#[derive(Clone, Copy)]
pub struct Hidden<'r> {
    /// Whether each token, by its index, is hidden. Those after the list aren't.
    pub tokens: &'r [bool],
    /// What is told of one.
    pub message: &'r str,
}

impl Hidden<'static> {
    /// No token is hidden.
    pub const NONE: Hidden<'static> = Hidden {
        tokens: &[],
        message: "",
    };
}

/// Rows, from one up to another.
#[derive(Clone, Copy)]
pub(crate) struct Block {
    pub(crate) start: u16,
    pub(crate) end: u16,
}

impl<'r> Table<'r> {
    /// The part in a row.
    #[inline(always)]
    pub(crate) fn part(&self, row: u16) -> Part
        ensures { result ≡ part_at self.now.rows.now row }
    {
        match self.rows.get(usize::from(row)) {
            Some(numbers) => part_of(numbers),
            None => Part::Nothing,
        }
    }

    /// The row after a part with all that is in it.
    #[inline(always)]
    pub(crate) fn beyond(&self, row: u16) -> u16
        requires { row < 65535 }
        ensures later { row < result }
        ensures is { result ≡ next_of row (part_at self.now.rows.now row) }
    {
        match self.row(row) {
            Some(numbers) => beyond(numbers, row),
            None => row + 1,
        }
    }

    /// Whether the rule of a row may end after it.
    pub(crate) fn may_end_after(&self, row: u16) -> bool {
        match self.row(row) {
            Some(numbers) => numbers[0] % 512 >= 256,
            None => false,
        }
    }

    /// Whether a symbol may come after a row in its rule.
    pub(crate) fn may_follow(&self, row: u16, symbol: SyntaxKind) -> bool {
        match self.row(row) {
            Some(numbers) => self.has(numbers[4], symbol),
            None => false,
        }
    }

    /// Whether the rule of a row goes on at a symbol, after an error.
    pub(crate) fn goes_on_at(&self, row: u16, symbol: SyntaxKind) -> bool {
        match self.row(row) {
            Some(numbers) => self.has(numbers[4], symbol) || self.has(numbers[5], symbol),
            None => false,
        }
    }

    /// Whether an item of a list around a call, in its rule, can begin with a symbol.
    pub(crate) fn begins_item(&self, call: u16, symbol: SyntaxKind) -> bool {
        match self.row(call) {
            Some(numbers) => numbers[6] > 0 && self.has(numbers[6] - 1, symbol),
            None => false,
        }
    }

    /// Whether a row can begin with a symbol.
    #[inline(always)]
    pub(crate) fn begins_with(&self, row: u16, symbol: SyntaxKind) -> bool {
        match self.row(row) {
            Some(numbers) => self.has(numbers[3], symbol),
            None => false,
        }
    }

    #[inline(always)]
    pub(crate) fn row(&self, row: u16) -> Option<&'r [u16; 8]>
        ensures { option_map (λ numbers. numbers.now) result ≡ slice_get self.now.rows.now row }
    {
        self.rows.get(usize::from(row))
    }

    /// What is expected where a row stands.
    pub(crate) fn message(&self, row: u16) -> &'r str {
        let number = match self.row(row) {
            Some(numbers) => usize::from(numbers[7]),
            None => usize::MAX,
        };
        let start = match number.checked_sub(1) {
            Some(before) => self.message_end(before),
            None => 0,
        };
        match self.messages.get(start..self.message_end(number)) {
            Some(message) => message,
            None => "unexpected token",
        }
    }

    /// What is told where a row is missing.
    pub(crate) fn missing(&self, row: u16, p: &Parser<'_>) -> &'r str {
        match self.hides(p.position()) {
            true => self.hidden.message,
            false => self.message(row),
        }
    }

    /// What is told of a token that stands after all that rules take.
    pub(crate) fn unexpected(&self, p: &Parser<'_>) -> &'r str {
        match self.hides(p.position()) {
            true => self.hidden.message,
            false => "unexpected token",
        }
    }

    fn message_end(&self, number: usize) -> usize {
        match self.message_ends.get(number) {
            Some(end) => *end,
            None => 0,
        }
    }

    /// Whether the token at an index is hidden.
    #[inline(always)]
    pub(crate) fn hides(&self, index: usize) -> bool
        ensures { result ≡ is_hidden self.now.hidden.tokens.now index }
    {
        match self.hidden.tokens.get(index) {
            Some(is_hidden) => *is_hidden,
            None => false,
        }
    }

    /// The kind of the token at the position, as rules see it: the end where it is hidden.
    #[inline(always)]
    pub(crate) fn current(&self, p: &Parser<'_>) -> SyntaxKind
        ensures { result ≡ kind_of (text_of self.now p.now) p.now.position }
    {
        if self.hides(p.position()) {
            SyntaxKind::EOF
        } else {
            p.current()
        }
    }

    /// Whether a set has a kind.
    #[inline(always)]
    pub(crate) fn has(&self, set: u16, kind: SyntaxKind) -> bool
        ensures { result ≡ set_has self.now.sets.now set kind }
    {
        match self.sets.get(usize::from(set)) {
            Some(words) => match words.get(usize::from(kind.0 / 16)) {
                Some(word) => (word >> (kind.0 % 16)) % 2 == 1,
                None => false,
            },
            None => false,
        }
    }
}
