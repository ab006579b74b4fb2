//! What stands at the position, as far as sets and looks tell.
use crate::part::Part;
use crate::table::{Block, Table};
use squawk_parser::{Parser, SyntaxKind};

/// Stands after the last set of a look.
const NO_SET: u16 = u16::MAX;

impl Table<'_> {
    /// Whether what is in a row stands at the position, where this symbol is, as far as its set and its look tell.
    #[inline(always)]
    pub(crate) fn stands(&self, row: u16, symbol: SyntaxKind, p: &Parser<'_>) -> bool {
        match self.row(row) {
            Some(numbers) => self.has(numbers[3], symbol) && self.sees(numbers[6], symbol, p),
            None => false,
        }
    }

    /// Whether the tokens at the position are those of a row's look, or of the looks after it.
    #[inline(always)]
    pub(crate) fn sees_look(&self, row: u16, p: &Parser<'_>) -> bool {
        match self.row(row) {
            Some(numbers) => numbers[6] == 0 || self.sees_some(numbers[6], self.symbol(p), p),
            None => true,
        }
    }

    /// Whether the tokens in some rows stand at the position, one after another.
    pub(crate) fn sees_tokens(&self, rows: Block, p: &Parser<'_>) -> bool {
        let mut n = 0usize;
        for row in rows.start..rows.end {
            let symbol = self.symbol_after(n, p);
            if !self.is_token(row, symbol.kind, p.nth_contextual_kind(n)) {
                return false;
            }
            n = n.saturating_add(symbol.len);
        }
        true
    }

    /// Whether the token in a row has this symbol, or this contextual kind if it is a word.
    fn is_token(&self, row: u16, symbol: SyntaxKind, contextual: SyntaxKind) -> bool {
        match self.part(row) {
            Part::Word { set } => self.has(set, contextual),
            _ => self.begins_with(row, symbol),
        }
    }

    #[inline(always)]
    fn sees(&self, look: u16, symbol: SyntaxKind, p: &Parser<'_>) -> bool {
        look == 0 || self.sees_some(look, symbol, p)
    }

    #[inline(never)]
    fn sees_some(&self, look: u16, symbol: SyntaxKind, p: &Parser<'_>) -> bool {
        let mut at = look;
        while let Some(row) = self.look(at) {
            if self.sees_row(row, symbol, p) {
                return true;
            }
            if row[4] <= at {
                return false;
            }
            at = row[4];
        }
        false
    }

    fn look(&self, look: u16) -> Option<&[u16; 5]> {
        self.looks.get(usize::from(look.saturating_sub(1)))
    }

    fn sees_row(&self, row: &[u16; 5], symbol: SyntaxKind, p: &Parser<'_>) -> bool {
        self.has(row[0], symbol) && self.sees_after(row, p)
    }

    /// Whether the symbols after the first one are in the other sets of a look.
    fn sees_after(&self, row: &[u16; 5], p: &Parser<'_>) -> bool {
        let mut n = self.symbol_after(0, p).len;
        for set in [row[1], row[2], row[3]] {
            if set == NO_SET {
                return true;
            }
            let symbol = self.symbol_after(n, p);
            if !self.has(set, symbol.kind) {
                return false;
            }
            n = n.saturating_add(symbol.len);
        }
        true
    }
}
