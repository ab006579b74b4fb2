//! The rules, classes and guards that names stand for.
ghost use Rattle.std.specs.Prelude.{◌≡◌, ◌≤◌, ℕ, List, IfOk, IfSome, OnOk, None, Some, length, option_map, slice_get, take, if◌then◌else◌};
ghost use Rattle.std.specs.Option.{option_copied, option_or};
ghost use Rattle.std.specs.Str.{bytes_eq};
ghost use Rattle.rule_tables.specs.ByName.{HasDefinitions, definition_in, has_for};
ghost use Rattle.rule_tables.specs.Definitions.{class_number, classes_in, defined, definition_of, defines, is_before, is_class, is_guard, is_rule, is_set, name_of, size_of_class};

use rule_parts::Part;
use std::alloc::{AllocError, Global};
use std::collections::BTreeMap;

/// Where a rule, a class or a guard stands.
#[derive(Clone, Copy, Drop)]
pub(crate) struct Definition {
    /// Its part.
    pub(crate) part: usize,
    /// How many classes stand before it.
    pub(crate) number: usize,
}

/// The rules, classes and guards of some parts, by their names.
#[derive(Drop)]
pub(crate) struct Definitions<'p, 't> {
    pub(crate) parts: &'p [Part<'t>],
    by_name: BTreeMap<&'t str, Definition>,
    ghost are: { HasDefinitions parts.now (length parts.now) by_name },
}

impl<'p, 't> Definitions<'p, 't> {
    /// Those of these parts.
    pub(crate) fn new(
        alloc: Global,
        parts: &'p [Part<'t>],
    ) -> Result<Definitions<'p, 't>, AllocError>
        ensures { IfOk result (λ made. made.parts.now ≡ parts.now) }
    {
        let mut by_name = BTreeMap::new(alloc);
        let mut number = 0usize;
        for (index, part) in parts.iter().enumerate() {
            let definition = Definition {
                part: index,
                number,
            };
            add(&mut by_name, part, definition)?;
            if size_of_class(part).is_some() {
                number += 1;
            }
        }
        Ok(Definitions { parts, by_name })
    }

    /// The first one with this name.
    pub(crate) fn find(&self, name: &str) -> Option<Definition>
        ensures part { option_map (λ found. found.part) result ≡ definition_of self.now.parts.now name.now }
        ensures number { IfSome result (λ found. found.number ≡ classes_in (take found.part self.now.parts.now)) }
        ensures few { IfSome result (λ found. found.number ≤ length self.now.parts.now) }
    {
        self.by_name.get(name).copied()
    }

    /// The part of the first one with this name.
    pub(crate) fn part(&self, name: &str) -> Option<&'p Part<'t>>
        ensures { option_copied result ≡ defined self.now.parts.now name.now }
    {
        match self.find(name) {
            Some(found) => part_at(self.parts, found.part),
            None => None,
        }
    }

    /// Whether one stands before the part.
    pub(crate) fn is_before(&self, part: usize, name: &str) -> bool
        ensures { result ≡ is_before part (definition_of self.now.parts.now name.now) }
    {
        match self.find(name) {
            Some(found) => found.part < part,
            None => false,
        }
    }

    /// Whether it is a class of tokens.
    pub(crate) fn is_set(&self, name: &str) -> bool
        ensures { result ≡ is_set (defined self.now.parts.now name.now) }
    {
        matches!(self.part(name), Some(Part::Set { .. }))
    }

    pub(crate) fn is_class(&self, name: &str) -> bool
        ensures { result ≡ is_class (defined self.now.parts.now name.now) }
    {
        match self.part(name) {
            Some(part) => size_of_class(part).is_some(),
            None => false,
        }
    }

    pub(crate) fn is_rule(&self, name: &str) -> bool
        ensures { result ≡ is_rule (defined self.now.parts.now name.now) }
    {
        matches!(self.part(name), Some(Part::Rule { .. }))
    }

    pub(crate) fn is_guard(&self, name: &str) -> bool
        ensures { result ≡ is_guard (defined self.now.parts.now name.now) }
    {
        matches!(self.part(name), Some(Part::Guard { .. }))
    }

    /// The number of the class with this name.
    pub(crate) fn class_number(&self, name: &str) -> Option<usize>
        ensures is { result ≡ class_number self.now.parts.now name.now }
        ensures few { IfSome result (λ number. number ≤ length self.now.parts.now) }
    {
        match self.find(name) {
            Some(found) => match part_at(self.parts, found.part) {
                Some(part) => size_of_class(part).map(|_size| found.number),
                None => None,
            },
            None => None,
        }
    }
}

/// A part, if there is one with this index.
pub(crate) fn part_at<'p, 't>(parts: &'p [Part<'t>], index: usize) -> Option<&'p Part<'t>>
    ensures { option_copied result ≡ slice_get parts.now index }
{
    parts.get(index)
}

/// Adds what a part defines, unless its name is taken.
fn add<'t>(
    by_name: &mut BTreeMap<&'t str, Definition>,
    part: &Part<'t>,
    definition: Definition,
) -> Result<(), AllocError>
    ensures { OnOk result ((name : List ℕ) → has_for by_name.new name ≡ option_or (has_for by_name.old name) (if defines name part.now then Some definition else None)) }
{
    match name_of(part) {
        Some(name) => put(by_name, name, definition),
        None => Ok(()),
    }
}

fn put<'t>(
    by_name: &mut BTreeMap<&'t str, Definition>,
    name: &'t str,
    definition: Definition,
) -> Result<(), AllocError>
    ensures { OnOk result ((one : List ℕ) → has_for by_name.new one ≡ option_or (has_for by_name.old one) (if bytes_eq name.now one then Some definition else None)) }
{
    if !by_name.contains_key(name) {
        by_name.insert(name, definition)?;
    }
    Ok(())
}

/// The name of a rule, a class or a guard.
pub(crate) fn name_of<'t>(part: &Part<'t>) -> Option<&'t str>
    ensures { option_copied result ≡ name_of part.now }
{
    match part {
        Part::Set { name, .. }
        | Part::Words { name, .. }
        | Part::Guard { name, .. }
        | Part::Rule { name, .. } => Some(name.text),
        _ => None,
    }
}

/// How many members a class has.
pub(crate) fn size_of_class(part: &Part<'_>) -> Option<usize>
    ensures { result ≡ size_of_class (Some part.now) }
{
    match part {
        Part::Set { size, .. } | Part::Words { size, .. } => Some(*size),
        _ => None,
    }
}
