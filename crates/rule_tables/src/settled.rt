//! Which rows are settled: where tokens don't decide there, the first way is gone.
ghost use Rattle.std.specs.Prelude.{◌≡◌, ◌+◌, ◌<◌, ◌≤◌, Some, length, slice_get, false};
ghost use Rattle.rule_tables.specs.Settled.{is_greedy, is_guarded, is_ordered, is_ordered_in, settles};

use crate::map::Map;
use rule_parts::Part;

/// Whether there is such a row, and it is settled.
pub(crate) fn is_settled(parts: &[Part<'_>], map: &Map<'_>, row: usize) -> bool
    ensures is { row < length map.now.rows.now → result ≡ settles parts.now map.now.rows.now row }
    ensures past { length map.now.rows.now ≤ row → result ≡ false }
{
    row < map.rows.len() && is_settled_part(parts, map, row)
}

fn is_settled_part(parts: &[Part<'_>], map: &Map<'_>, row: usize) -> bool
    requires { row < length map.now.rows.now }
    ensures { result ≡ settles parts.now map.now.rows.now row }
{
    match parts.get(row) {
        Some(Part::Arm { .. }) => is_guarded(parts, row + 1) || is_ordered(parts, map.outer(row)),
        Some(part) => is_greedy(part),
        None => false,
    }
}

fn is_greedy(part: &Part<'_>) -> bool
    ensures { result ≡ is_greedy part.now }
{
    match part {
        Part::Optional { greedy, .. } => *greedy,
        Part::Repeat { greedy, .. } => *greedy,
        Part::Some { greedy, .. } => *greedy,
        _ => false,
    }
}

/// Whether a part is a guard or a look.
fn is_guarded(parts: &[Part<'_>], part: usize) -> bool
    ensures { result ≡ is_guarded (slice_get parts.now part) }
{
    matches!(
        parts.get(part),
        Some(Part::Guarded { .. } | Part::Look { .. })
    )
}

/// Whether a part is an ordered choice.
fn is_ordered(parts: &[Part<'_>], part: Option<usize>) -> bool
    ensures { result ≡ is_ordered_in parts.now part }
{
    match part {
        Some(choice) => match parts.get(choice) {
            Some(Part::Choice { ordered, .. }) => *ordered,
            _ => false,
        },
        None => false,
    }
}
