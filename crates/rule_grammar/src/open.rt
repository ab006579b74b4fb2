//! Rules that are open.
ghost use Rattle.std.specs.Prelude.{◌≡◌, ◌<◌, false};

use crate::table::Table;
use squawk_kinds::SyntaxKind;

/// A call of a rule that is open: its row, and the call that its own rule was called by.
#[derive(Clone, Copy)]
struct Chain<'c> {
    row: u16,
    outer: Option<&'c Chain<'c>>,
}

/// A rule that is parsed: the rules, the calls that are open, and how many more may be.
#[derive(Clone, Copy)]
pub(crate) struct Open<'c> {
    pub(crate) table: &'c Table<'c>,
    chain: Chain<'c>,
    depth: u32,
}

impl<'c> Open<'c> {
    /// The rule of a file.
    pub(crate) fn file(table: &'c Table<'c>, depth: u32) -> Open<'c>
        ensures { result.table.now ≡ table.now }
    {
        Open {
            table,
            chain: Chain::START,
            depth,
        }
    }

    /// Whether no rule may be called any more.
    #[inline(always)]
    pub(crate) fn is_deepest(&self) -> bool
        ensures { result ≡ false → 0 < self.now.depth }
    {
        self.depth == 0
    }

    /// The rule that a row calls.
    #[inline(always)]
    pub(crate) fn called(&self, row: u16) -> Open<'_>
        requires { 0 < self.now.depth }
        ensures table { result.table.now ≡ self.now.table.now }
        ensures deeper { result.depth < self.now.depth }
    {
        Open {
            table: self.table,
            chain: self.chain.with(row),
            depth: self.depth - 1,
        }
    }

    /// Whether it is the rule of a file.
    pub(crate) fn is_file(&self) -> bool {
        self.chain.outer.is_none()
    }

    /// Whether a symbol may come after a row.
    pub(crate) fn may_follow(&self, row: u16, symbol: SyntaxKind) -> bool {
        self.chain.may_follow(self.table, row, symbol)
    }

    /// Whether an item of a list that is open can begin with a symbol.
    pub(crate) fn begins_item(&self, symbol: SyntaxKind) -> bool {
        self.chain.begins_item(self.table, symbol)
    }

    /// Whether the rule that was called last goes on at a symbol, after an error in a row.
    pub(crate) fn resumes_at(&self, row: u16, symbol: SyntaxKind) -> bool {
        self.table.begins_with(row, symbol) || self.table.goes_on_at(row, symbol)
    }

    /// Whether a rule that is open goes on at a symbol, after an error in a row.
    pub(crate) fn goes_on_at(&self, row: u16, symbol: SyntaxKind) -> bool {
        self.resumes_at(row, symbol) || self.chain.goes_on_at(self.table, symbol)
    }
}

impl Chain<'_> {
    /// The call of the rule of a file: there is no row after it.
    const START: Chain<'static> = Chain {
        row: u16::MAX,
        outer: None,
    };

    /// The same, and a row of the rule that was called last calls another.
    #[inline(always)]
    fn with(&self, row: u16) -> Chain<'_> {
        Chain {
            row,
            outer: Some(self),
        }
    }

    /// Whether a symbol may come after a row of the rule that was called last: in its rule, or after a rule
    /// that may end there.
    fn may_follow(&self, table: &Table<'_>, row: u16, symbol: SyntaxKind) -> bool {
        if table.may_follow(row, symbol) {
            return true;
        }
        table.may_end_after(row) && self.may_follow_call(table, symbol)
    }

    /// The same after the call.
    fn may_follow_call(&self, table: &Table<'_>, symbol: SyntaxKind) -> bool {
        let mut open = Some(self);
        while let Some(call) = open {
            if table.may_follow(call.row, symbol) {
                return true;
            }
            if !table.may_end_after(call.row) {
                return call.outer.is_none() && symbol == SyntaxKind::EOF;
            }
            open = call.outer;
        }
        symbol == SyntaxKind::EOF
    }

    /// Whether an item of a list around one of the calls can begin with a symbol.
    fn begins_item(&self, table: &Table<'_>, symbol: SyntaxKind) -> bool {
        let mut open = Some(self);
        while let Some(call) = open {
            if table.begins_item(call.row, symbol) {
                return true;
            }
            open = call.outer;
        }
        false
    }

    /// Whether a rule goes on at a symbol after one of the calls.
    fn goes_on_at(&self, table: &Table<'_>, symbol: SyntaxKind) -> bool {
        let mut open = Some(self);
        while let Some(call) = open {
            if table.goes_on_at(call.row, symbol) {
                return true;
            }
            open = call.outer;
        }
        false
    }
}
