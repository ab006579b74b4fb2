//! Ways to go on: the arms of a choice, and operators.
ghost use Rattle.std.specs.Prelude.{◌≡◌, ◌<◌, ◌≤◌, ◌+◌, IfSome, true};
ghost use Rattle.rule_grammar.specs.Derivations.{IsArm, IsEnd, IsOnly, IsTail, next_of};
ghost use Rattle.rule_grammar.specs.Parts.{part_at};

use crate::guard::Guard;
use crate::part::Part;
use crate::table::{Block, Table};
use crate::told::Told;
use squawk_parser::{Parser, SyntaxKind};

/// An operator: what stands in it, its level, and the greatest level of an operator after it.
#[derive(Clone, Copy)]
pub(crate) struct Operator {
    pub(crate) block: Block,
    pub(crate) level: u16,
    pub(crate) ceiling: u16,
}

/// What is in a node: the row that it is parsed up to, and the kind of the node, unless a part before names another.
#[derive(Clone, Copy)]
pub(crate) struct Inside {
    pub(crate) end: u16,
    pub(crate) kind: SyntaxKind,
}

impl Table<'_> {
    /// The first arm that stands at the position, of those in these rows.
    pub(crate) fn arm(&self, rows: Block, told: &mut Told, p: &Parser<'_>) -> Option<Block>
        ensures later { IfSome result (λ block. rows.start < block.start) }
        ensures is { IfSome result (λ block. IsArm self.now.rows.now rows.start rows.end block.start block.end) }
        ensures told { told.new.place ≡ told.old.place }
    {
        let symbol = told.symbol(self, p);
        let mut at = rows.start;
        while at < rows.end {
            let beyond = self.beyond(at);
            if let Part::Arm { end } = self.part(at) {
                if self.takes(at, symbol, told, p) {
                    return Some(Block { start: at + 1, end });
                }
            }
            at = beyond;
        }
        None
    }

    /// Whether an arm stands at the position, where this symbol is, and its guard or look holds, if it has one.
    #[inline(always)]
    fn takes(&self, arm: u16, symbol: SyntaxKind, told: &mut Told, p: &Parser<'_>) -> bool
        requires { arm < 65535 }
        ensures { told.new.place ≡ told.old.place }
    {
        self.stands(arm, symbol, p) && (!self.has_guard(arm) || self.guard_holds(arm + 1, told, p))
    }

    #[inline(always)]
    fn has_guard(&self, arm: u16) -> bool {
        match self.row(arm) {
            Some(numbers) => numbers[0] % 1024 >= 512,
            None => false,
        }
    }

    #[inline(never)]
    fn guard_holds(&self, row: u16, told: &mut Told, p: &Parser<'_>) -> bool
        ensures { told.new.place ≡ told.old.place }
    {
        match self.part(row) {
            Part::Guard { first, next } => told.holds(self, Guard { first, next }, p),
            Part::Look { end } => {
                let start = row.saturating_add(1);
                self.sees_tokens(Block { start, end }, p)
            }
            _ => true,
        }
    }

    /// Whether one of some rows names a kind for a node.
    pub(crate) fn names(&self, rows: Block, kind: SyntaxKind) -> bool {
        for row in rows.start..rows.end {
            if self.part(row) == (Part::Becomes { kind }) {
                return true;
            }
        }
        false
    }

    /// What is in a node. Where the last part in it names its kind, that part needs no turn.
    #[inline(always)]
    pub(crate) fn inside(&self, row: u16, end: u16, kind: SyntaxKind) -> Inside
        ensures { IsEnd self.now.rows.now result.end end }
    {
        if end > 0 && self.is_named(row) {
            let last = end - 1;
            if let Part::Becomes { kind } = self.part(last) {
                return Inside { end: last, kind };
            }
        }
        Inside { end, kind }
    }

    /// Whether the last part in a node names its kind.
    #[inline(always)]
    fn is_named(&self, node: u16) -> bool {
        match self.row(node) {
            Some(numbers) => numbers[0] >= 1024,
            None => false,
        }
    }

    /// The row of the part that is alone in some rows, or after a guard or look.
    #[inline(always)]
    pub(crate) fn only(&self, rows: Block) -> Option<u16>
        ensures later { IfSome result (λ row. rows.start ≤ row) }
        ensures room { IfSome result (λ row. row < 65535) }
        ensures is { IfSome result (λ row. IsOnly self.now.rows.now rows.start rows.end row) }
    {
        if self.is_one(rows) {
            Some(rows.start)
        } else {
            self.only_after_guard(rows)
        }
    }

    #[inline(never)]
    fn only_after_guard(&self, rows: Block) -> Option<u16>
        ensures later { IfSome result (λ row. rows.start ≤ row) }
        ensures room { IfSome result (λ row. row < 65535) }
        ensures is { IfSome result (λ row. IsOnly self.now.rows.now rows.start rows.end row) }
    {
        match self.part(rows.start) {
            Part::Guard { .. } | Part::Look { .. } if rows.start < u16::MAX => {
                let inner = Block {
                    start: self.beyond(rows.start),
                    end: rows.end,
                };
                if self.is_one(inner) {
                    Some(inner.start)
                } else {
                    None
                }
            }
            _ => None,
        }
    }

    /// Whether there is one part in some rows.
    #[inline(always)]
    pub(crate) fn is_one(&self, rows: Block) -> bool
        ensures room { result ≡ true → rows.start < 65535 }
        ensures only { result ≡ true → rows.end ≤ next_of rows.start (part_at self.now.rows.now rows.start) }
    {
        rows.start < rows.end && rows.end <= self.beyond(rows.start)
    }

    /// The operator that stands at the position and whose level is `floor` at least, of those in a row of operators
    /// that ends there.
    #[inline(always)]
    pub(crate) fn operator(
        &self,
        row: u16,
        end: u16,
        floor: u16,
        told: &mut Told,
        p: &Parser<'_>,
    ) -> Option<Operator>
        requires { row < 65535 }
        ensures later { IfSome result (λ operator. row + 1 < operator.block.start) }
        ensures is { IfSome result (λ operator. IsTail self.now.rows.now (row + 1) end operator.block.start operator.block.end operator.level operator.ceiling) }
        ensures floor { IfSome result (λ operator. floor ≤ operator.level) }
        ensures told { told.new.place ≡ told.old.place }
    {
        let symbol = told.symbol(self, p);
        if self.has_operator(row, symbol) {
            let rows = Block {
                start: row + 1,
                end,
            };
            self.operator_in(rows, floor, symbol, p)
        } else {
            None
        }
    }

    #[inline(always)]
    fn has_operator(&self, row: u16, symbol: SyntaxKind) -> bool {
        match self.row(row) {
            Some(numbers) => self.has(numbers[6], symbol),
            None => false,
        }
    }

    fn operator_in(
        &self,
        rows: Block,
        floor: u16,
        symbol: SyntaxKind,
        p: &Parser<'_>,
    ) -> Option<Operator>
        ensures later { IfSome result (λ operator. rows.start < operator.block.start) }
        ensures is { IfSome result (λ operator. IsTail self.now.rows.now rows.start rows.end operator.block.start operator.block.end operator.level operator.ceiling) }
        ensures floor { IfSome result (λ operator. floor ≤ operator.level) }
    {
        let mut at = rows.start;
        while at < rows.end {
            let beyond = self.beyond(at);
            if let Part::Tail {
                end,
                level,
                ceiling,
            } = self.part(at)
            {
                if floor <= level && self.stands(at, symbol, p) {
                    let block = Block { start: at + 1, end };
                    return Some(Operator {
                        block,
                        level,
                        ceiling,
                    });
                }
            }
            at = beyond;
        }
        None
    }
}
