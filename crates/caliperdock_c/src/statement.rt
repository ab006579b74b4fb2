//! Statements as numbers.
ghost use Rattle.std.specs.Prelude.{◌≡◌};
ghost use Rattle.caliperdock_c.specs.Statements.{numbered_statement};

use sql_report::Statement;

/// A statement: its kind, and its bytes of the text, from its first up to the one behind it.
#[repr(C)]
#[derive(Clone, Copy)]
pub struct CStatement {
    pub kind: u64,
    pub start: u64,
    pub end: u64,
}

/// A statement as numbers.
pub fn numbered_statement(statement: &Statement) -> CStatement
    ensures { result ≡ numbered_statement statement.now }
{
    CStatement {
        kind: u64::from(statement.kind.0),
        start: statement.start as u64,
        end: statement.end as u64,
    }
}
