//! What rows are called by.
use crate::map::Map;
use rule_grammar::Part as Row;
use rule_parts::Part;

/// The part in a row.
pub(crate) fn part(map: &Map<'_>, row: usize) -> Row {
    match map.rows.get(row) {
        Some(part) => *part,
        None => Row::Nothing,
    }
}

/// Whether a row is an arm or an operator.
pub(crate) fn is_way(map: &Map<'_>, row: usize) -> bool {
    matches!(part(map, row), Row::Arm { .. } | Row::Tail { .. })
}

/// The row of what a row is called by: the outermost rule with a message of its own that begins there, else the token
/// there, else the choice there, or the rule that is called and begins with one.
pub(crate) fn name_of(parts: &[Part<'_>], map: &Map<'_>, row: usize) -> usize {
    let own = rule_of(map, row);
    if has_message(parts, own) && is_first(map, row, own) {
        return own;
    }
    let mut rule = own;
    let mut at = row;
    // Rules that call themselves first are left to others.
    for _ in 0..map.rows.len() {
        match part(map, at) {
            Row::Call { start, .. } => {
                rule = usize::from(start).saturating_sub(1);
                at = rule;
                if has_message(parts, rule) {
                    return rule;
                }
            }
            Row::Arm { .. }
            | Row::Node { .. }
            | Row::Optional { .. }
            | Row::Repeat { .. }
            | Row::Some { .. }
            | Row::List { .. }
            | Row::Tail { .. } => match first_eating(map, at) {
                Some(first) => at = first,
                None => return rule,
            },
            Row::Token { .. } => return at,
            Row::Choice { .. } if rule == own => return at,
            _ => return rule,
        }
    }
    rule
}

/// The row of the rule that a row is in.
pub(crate) fn rule_of(map: &Map<'_>, row: usize) -> usize {
    let mut at = row;
    for _ in 0..map.rows.len() {
        match map.outer(at) {
            Some(outer) => at = outer,
            None => break,
        }
    }
    at
}

/// Whether a row is a rule with a message of its own.
pub(crate) fn has_message(parts: &[Part<'_>], row: usize) -> bool {
    match parts.get(row) {
        Some(Part::Rule { name, message, .. }) => name.at != message.at,
        _ => false,
    }
}

/// Whether nothing that eats stands before a row in a rule.
fn is_first(map: &Map<'_>, row: usize, rule: usize) -> bool {
    let mut at = row;
    for _ in 0..map.rows.len() {
        match map.outer(at) {
            Some(outer) if is_way(map, at) || first_eating(map, outer) == Some(at) => at = outer,
            _ => break,
        }
    }
    at == rule
}

/// The first row in one that may eat, if there is one.
fn first_eating(map: &Map<'_>, row: usize) -> Option<usize> {
    let mut at = map.first(row)?;
    for _ in 0..map.rows.len() {
        if !matches!(
            part(map, at),
            Row::Becomes { .. } | Row::Guard { .. } | Row::Look { .. }
        ) {
            break;
        }
        at = map.next(at, row)?;
    }
    Some(at)
}

/// The choice that a row begins with, in its own rule.
pub(crate) fn choice_at(map: &Map<'_>, row: usize) -> Option<usize> {
    let mut at = row;
    for _ in 0..map.rows.len() {
        match part(map, at) {
            Row::Choice { .. } => return Some(at),
            Row::Node { .. }
            | Row::Optional { .. }
            | Row::Repeat { .. }
            | Row::Some { .. }
            | Row::List { .. } => at = first_eating(map, at)?,
            _ => return None,
        }
    }
    None
}

/// How many arms a choice has.
pub(crate) fn arms_in(map: &Map<'_>, choice: usize) -> usize {
    let mut arms = 0usize;
    let mut arm = map.first(choice);
    for _ in 0..map.rows.len() {
        match arm {
            Some(row) => {
                arms = arms.saturating_add(1);
                arm = map.next(row, choice);
            }
            None => break,
        }
    }
    arms
}
