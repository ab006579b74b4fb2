//! What the last line counts.

use crate::report::Report;

/// The status where a text has errors.
const ERRORS: u8 = 1;

/// The status where arguments are wrong.
pub const WRONG_ARGUMENTS: u8 = 2;

/// The status where a text can't be read, or output fails.
pub const UNREAD: u8 = 3;

/// How many files were read to their ends, and what was told of all.
#[derive(Clone, Copy, Debug, PartialEq, Eq)]
pub struct Totals {
    pub files: usize,
    pub statements: usize,
    pub errors: usize,
    /// Whether a file couldn't be read to its end.
    pub unread: bool,
}

impl Totals {
    ghost use Rattle.std.specs.Prelude.{◌≡◌};
    ghost use Rattle.sql_tree.specs.Printed.{counted, no_totals, status_of};

    /// Nothing was read yet.
    pub fn new() -> Totals
        ensures { result ≡ no_totals }
    {
        Totals {
            files: 0,
            statements: 0,
            errors: 0,
            unread: false,
        }
    }

    /// Counts what is told of a text.
    pub fn count(&mut self, report: &Report)
        ensures { self.new ≡ counted self.old report.now }
    {
        self.statements = self.statements.saturating_add(report.statement_count);
        self.errors = self.errors.saturating_add(report.error_count);
        match report.unread {
            None => self.files = self.files.saturating_add(1),
            Some(_) => self.unread = true,
        }
    }

    /// The status that the program ends with.
    pub fn status(&self) -> u8
        ensures { result ≡ status_of self.now }
    {
        if self.unread {
            UNREAD
        } else if self.errors > 0 {
            ERRORS
        } else {
            0
        }
    }
}
