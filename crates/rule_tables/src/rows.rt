//! Rows: parts, with what the names in them stand for.
ghost use Rattle.std.specs.Prelude.{◌≡◌, ◌+◌, ◌≤◌, All, IfOk, IsTrue, Some, length, slice_get};
ghost use Rattle.rule_grammar.specs.declared.part.Part.TheVariants.{Tail};
ghost use Rattle.rule_tables.specs.Rows.{AreRows, AreSmall, ceiling_after, end_of, has_operand, is_exact, is_operand, level_of, row_by, row_of, size_of};

use crate::definitions::Definitions;
use crate::named::{becomes, call, class, guard, list, token};
use crate::names::Names;
use crate::outer::Outer;
use crate::sets::push;
use rule_grammar::Part as Row;
use rule_parts::{Association, Part};
use squawk_kinds::SyntaxKind;
use std::alloc::{AllocError, Global};

/// The greatest number of parts, and the greatest level.
pub(crate) const MOST: usize = 65000;

/// The rows of these parts.
pub(crate) fn rows_of<N: Names>(
    alloc: Global,
    definitions: &Definitions<'_, '_>,
    names: &N,
) -> Result<Vec<Row>, AllocError>
    requires { AreSmall definitions.now.parts.now }
    ensures len { IfOk result (λ rows. length rows.items ≡ length definitions.now.parts.now) }
    ensures are { IfOk result (λ rows. AreRows (N.vocabulary names.now) definitions.now.parts.now rows.items) }
    ensures exact { IfOk result (λ rows. All (λ row. IsTrue (is_exact row)) rows.items) }
{
    let mut rows = Vec::new(alloc);
    let mut outer = Outer::none();
    for (index, part) in definitions.parts.iter().enumerate() {
        let row = row_by(definitions, names, &outer, index, part);
        push(&mut rows, row)?;
        outer = outer.after(index, part);
    }
    Ok(rows)
}

/// The row of a part.
fn row_by<N: Names>(
    definitions: &Definitions<'_, '_>,
    names: &N,
    outer: &Outer,
    index: usize,
    part: &Part<'_>,
) -> Row
    requires small { AreSmall definitions.now.parts.now }
    requires is { slice_get definitions.now.parts.now index ≡ Some part.now }
    requires operators { outer.now.operators ≤ index }
    ensures is { result ≡ row_by (N.vocabulary names.now) definitions.now.parts.now outer.now index part.now }
    ensures exact { IsTrue (is_exact result) }
{
    if outer.has(index) {
        Row::Nothing
    } else {
        row_of(definitions, names, outer.operators, index, part)
    }
}

/// The row of a part that is in no class.
fn row_of<N: Names>(
    definitions: &Definitions<'_, '_>,
    names: &N,
    operators: usize,
    index: usize,
    part: &Part<'_>,
) -> Row
    requires small { AreSmall definitions.now.parts.now }
    requires is { slice_get definitions.now.parts.now index ≡ Some part.now }
    requires operators { operators ≤ index }
    ensures is { result ≡ row_of (N.vocabulary names.now) definitions.now.parts.now operators index part.now }
    ensures exact { IsTrue (is_exact result) }
{
    let end = end_of(index, size_of(part));
    let level = level_of(part) as u16;
    match part {
        Part::Set { .. } | Part::Words { .. } | Part::Guard { .. } | Part::Without => Row::Nothing,
        Part::Rule { .. } | Part::Arm { .. } => Row::Arm { end },
        Part::Token { name } => token(names, name),
        Part::Becomes { name } | Part::Kind { name } => becomes(names, name),
        Part::List { separator, .. } => list(names, end, separator),
        Part::Class { name } => class(definitions, names, name),
        Part::Call { name } => call(definitions, name),
        Part::Guarded { name } => guard(definitions, name),
        Part::Node { .. } => Row::Node {
            end,
            kind: SyntaxKind::ERROR,
        },
        Part::Is { .. } => Row::Is { end },
        Part::Look { .. } => Row::Look { end },
        Part::Choice { .. } => Row::Choice { end },
        Part::Optional { .. } => Row::Optional { end },
        Part::Repeat { .. } => Row::Repeat { end },
        Part::Some { .. } => Row::Some { end },
        Part::Operators { .. } => Row::Operators { end },
        Part::Tail {
            association,
            size,
            ..
        } => tail(definitions.parts, index, *size, level, association),
        Part::Operand { .. } => Row::Operand {
            operators: operators as u16,
            floor: level,
        },
    }
}

/// How many parts are in one.
pub(crate) fn size_of(part: &Part<'_>) -> usize
    ensures { result ≡ size_of part.now }
{
    match part {
        Part::Set { size, .. } | Part::Words { size, .. } | Part::Rule { size, .. } => *size,
        Part::Node { size } | Part::Choice { size, .. } | Part::Arm { size } => *size,
        Part::Optional { size, .. } | Part::Repeat { size, .. } | Part::Some { size, .. } => *size,
        Part::List { size, .. } | Part::Operators { size } | Part::Tail { size, .. } => *size,
        Part::Is { size } | Part::Look { size } => *size,
        _ => 0,
    }
}

/// The level of an operator, or the least one in an operand.
pub(crate) fn level_of(part: &Part<'_>) -> usize
    ensures { result ≡ level_of part.now }
{
    match part {
        Part::Tail { level, .. } => *level,
        Part::Operand { floor } => *floor,
        _ => 0,
    }
}

/// The row after the last one in a part of this size.
pub(crate) fn end_of(index: usize, size: usize) -> u16
    requires { end_of index size ≤ 65000 }
    ensures { result ≡ end_of index size }
{
    (index + 1 + size) as u16
}

/// An operator of this level, with so many parts after its own.
fn tail(parts: &[Part<'_>], index: usize, size: usize, level: u16, association: &Association) -> Row
    requires { end_of index size ≤ 65000 }
    ensures is { result ≡ Tail (end_of index size) level (ceiling_after parts.now (index + 1) size association.now level) }
    ensures exact { IsTrue (is_exact result) }
{
    let ceiling = match association {
        _ if !has_operand(parts, index + 1, size) => u16::MAX,
        Association::Neither => level.saturating_sub(1),
        _ => level,
    };
    Row::Tail {
        end: end_of(index, size),
        level,
        ceiling,
    }
}

/// Whether an operand is among so many parts from this one on.
fn has_operand(parts: &[Part<'_>], first: usize, count: usize) -> bool
    requires { first + count ≤ 65000 }
    ensures { result ≡ has_operand parts.now first count }
{
    let mut index = first;
    let mut left = count;
    while left > 0 {
        if is_operand_at(parts, index) {
            return true;
        }
        index += 1;
        left -= 1;
    }
    false
}

fn is_operand_at(parts: &[Part<'_>], index: usize) -> bool
    ensures { result ≡ is_operand (slice_get parts.now index) }
{
    matches!(parts.get(index), Some(Part::Operand { .. }))
}
