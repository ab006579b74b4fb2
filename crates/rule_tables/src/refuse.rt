//! Rows that are refused for what they lead to.
ghost use Rattle.std.specs.Prelude.{IfErr, None, OnOk, length};
ghost use Rattle.rule_checks.specs.Rules.{IsUnreached};
ghost use Rattle.rule_checks.specs.Sets.{IsFirst};
ghost use Rattle.rule_tables.specs.Refusals.{IsEndless, IsLost, NotEndless};

use crate::error::RulesError;
use rule_checks::{empty_repeat, left_recursive, unreached};
use rule_grammar::Part as Row;
use std::alloc::Global;

/// Refuses rows that call themselves first, then those that repeat nothing.
pub(crate) fn refuse_endless(alloc: Global, rows: &[Row]) -> Result<(), RulesError>
    ensures err { IfErr result (IsEndless rows.now) }
    ensures ok { OnOk result (NotEndless rows.now) }
{
    if let Some(part) = left_recursive(alloc, rows)? {
        return Err(RulesError::LeftRecursive { part });
    }
    match empty_repeat(alloc, rows)? {
        Some(part) => Err(RulesError::Empty { part }),
        None => Ok(()),
    }
}

/// Refuses rules that aren't called from the file's.
pub(crate) fn refuse_unreached(alloc: Global, rows: &[Row], file: usize) -> Result<(), RulesError>
    ensures err { IfErr result (IsLost rows.now file) }
    ensures ok { OnOk result (IsFirst (length rows.now) (IsUnreached rows.now file) None) }
{
    match unreached(alloc, rows, file)? {
        Some(part) => Err(RulesError::Unreached { part }),
        None => Ok(()),
    }
}
