//! Rows.
ghost use Rattle.std.specs.Prelude.{◌≡◌, ◌+◌, ◌^◌, ◌<◌};
ghost use Rattle.rule_checks.specs.Rows.{next_at, row_at};
ghost use Rattle.rule_grammar.specs.Derivations.{row_after};
ghost use Rattle.rule_checks.specs.Sets.{has};

use rule_grammar::Part as Row;

/// A row. After the last one there is nothing.
pub(crate) fn row_at(rows: &[Row], k: usize) -> Row
    ensures { result ≡ row_at rows.now k }
{
    match rows.get(k) {
        Some(row) => *row,
        None => Row::Nothing,
    }
}

/// The row after a row and all that is in it.
pub(crate) fn next_at(rows: &[Row], k: usize) -> usize
    requires { k + 1 < 2 ^ 64 }
    ensures later { k < result }
    ensures is { result ≡ next_at rows.now k }
{
    match row_at(rows, k) {
        Row::Node { end, .. }
        | Row::Choice { end }
        | Row::Arm { end }
        | Row::Optional { end }
        | Row::Repeat { end }
        | Row::Some { end }
        | Row::List { end, .. }
        | Row::Operators { end }
        | Row::Is { end }
        | Row::Look { end }
        | Row::Tail { end, .. } => after(k, usize::from(end)),
        _ => k + 1,
    }
}

fn after(k: usize, end: usize) -> usize
    requires { k + 1 < 2 ^ 64 }
    ensures later { k < result }
    ensures is { result ≡ row_after k end }
{
    if k < end { end } else { k + 1 }
}

/// Whether a row is marked. Past the end all are.
pub(crate) fn has(marks: &[bool], k: usize) -> bool
    ensures { result ≡ has marks.now k }
{
    match marks.get(k) {
        Some(mark) => *mark,
        None => true,
    }
}
