//! What parts are refused for before a table is made of them.
ghost use Rattle.std.specs.Prelude.{◌≡◌};
ghost use Rattle.rule_tables.specs.Definitions.{name_of};
ghost use Rattle.rule_tables.specs.Faults.{fault_of, is_large, is_taken, is_undefined, kind_fault, lacks_kind, name_fault, size_fault};

use crate::definitions::{Definitions, name_of};
use crate::error::RulesError;
use crate::names::{Names, kind_in};
use crate::outer::Outer;
use crate::rows::{MOST, level_of, size_of};
use rule_parts::Part;

/// The first fault of some parts: of a name, else of a kind, else of a size.
pub(crate) fn fault_of<N: Names>(definitions: &Definitions<'_, '_>, names: &N) -> Option<RulesError>
    ensures { result ≡ fault_of (N.vocabulary names.now) definitions.now.parts.now }
{
    let mut outer = Outer::none();
    let mut name: Option<RulesError> = None;
    let mut kind: Option<RulesError> = None;
    let mut size: Option<RulesError> = None;
    for (index, part) in definitions.parts.iter().enumerate() {
        name = name.or(name_fault(definitions, names, &outer, index, part));
        kind = kind.or(kind_fault(names, &outer, index, part));
        size = size.or(size_fault(index, part));
        outer = outer.after(index, part);
    }
    name.or(kind).or(size)
}

fn name_fault<N: Names>(
    definitions: &Definitions<'_, '_>,
    names: &N,
    outer: &Outer,
    index: usize,
    part: &Part<'_>,
) -> Option<RulesError>
    ensures { result ≡ name_fault (N.vocabulary names.now) definitions.now.parts.now outer.now index part.now }
{
    if is_taken(definitions, index, part) {
        Some(RulesError::Doubled { part: index })
    } else if is_undefined(definitions, names, outer, index, part) {
        Some(RulesError::Undefined { part: index })
    } else {
        None
    }
}

/// Whether the part has the name of one before it.
fn is_taken(definitions: &Definitions<'_, '_>, index: usize, part: &Part<'_>) -> bool
    ensures { result ≡ is_taken definitions.now.parts.now index (name_of part.now) }
{
    match name_of(part) {
        Some(name) => definitions.is_before(index, name),
        None => false,
    }
}

/// Whether nothing that the part needs has the name in it.
fn is_undefined<N: Names>(
    definitions: &Definitions<'_, '_>,
    names: &N,
    outer: &Outer,
    index: usize,
    part: &Part<'_>,
) -> bool
    ensures { result ≡ is_undefined (N.vocabulary names.now) definitions.now.parts.now outer.now index part.now }
{
    match part {
        Part::Class { name } => {
            if outer.has(index) {
                !(definitions.is_before(outer.class, name.text) && definitions.is_set(name.text))
            } else {
                !definitions.is_class(name.text)
            }
        }
        Part::Call { name } => {
            if outer.has(index) {
                names.class(name.text).is_none()
            } else {
                !definitions.is_rule(name.text)
            }
        }
        Part::Guarded { name } => !(outer.has(index) || definitions.is_guard(name.text)),
        Part::Guard { first, next, .. } => {
            !(definitions.is_set(first.text) && definitions.is_set(next.text))
        }
        _ => false,
    }
}

fn kind_fault<N: Names>(
    names: &N,
    outer: &Outer,
    index: usize,
    part: &Part<'_>,
) -> Option<RulesError>
    ensures { result ≡ kind_fault (N.vocabulary names.now) outer.now index part.now }
{
    if lacks_kind(names, outer, index, part) {
        Some(RulesError::UnknownKind { part: index })
    } else {
        None
    }
}

/// Whether no kind has the name in the part.
fn lacks_kind<N: Names>(names: &N, outer: &Outer, index: usize, part: &Part<'_>) -> bool
    ensures { result ≡ lacks_kind (N.vocabulary names.now) outer.now index part.now }
{
    match part {
        Part::Token { name } => kind_in(names, outer.has_word(index), name.text).is_none(),
        Part::Becomes { name } => {
            if outer.has(index) {
                names.token(name.text).is_none()
            } else {
                names.node(name.text).is_none()
            }
        }
        Part::Kind { name } => !outer.has(index) && names.node(name.text).is_none(),
        Part::List { separator, .. } => {
            !outer.has(index) && names.token(separator.text).is_none()
        }
        _ => false,
    }
}

fn size_fault(index: usize, part: &Part<'_>) -> Option<RulesError>
    ensures { result ≡ size_fault index part.now }
{
    if is_large(index, part) {
        Some(RulesError::TooMany)
    } else {
        None
    }
}

/// Whether its end or its level is above what a table has.
fn is_large(index: usize, part: &Part<'_>) -> bool
    ensures { result ≡ is_large index part.now }
{
    MOST < size_of(part).saturating_add(index).saturating_add(1) || MOST < level_of(part)
}
