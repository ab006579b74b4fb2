//! Classes of tokens.
ghost use Rattle.std.specs.Prelude.{◌≡◌, ℕ, ◌+◌, ◌<◌, ◌≤◌, IfOk, Some, length, slice_get, take};
ghost use Rattle.std.specs.Option.{option_copied};
ghost use Rattle.squawk_kinds.specs.TokenSets.{has};
ghost use Rattle.rule_tables.specs.Classes.{AreClasses, class_has, class_holds, is_token, is_without, is_words, joined, list_has, member_has, members_of, some_has};
ghost use Rattle.rule_tables.specs.Definitions.{class_number, classes_in};
ghost use Rattle.rule_tables.specs.Rows.{named_kind};
ghost use Rattle.rule_tables.specs.Vocabulary.{kind_in};

use crate::definitions::{Definitions, size_of_class};
use crate::names::{Names, kind_in};
use crate::sets::{push, set_of, without};
use rule_parts::Part;
use squawk_kinds::TokenSet;
use std::alloc::{AllocError, Global};

/// The sets of the classes in these parts, in their order.
pub(crate) fn sets_of<N: Names>(
    alloc: Global,
    definitions: &Definitions<'_, '_>,
    names: &N,
) -> Result<Vec<TokenSet>, AllocError>
    ensures len { IfOk result (λ sets. length sets.items ≡ classes_in definitions.now.parts.now) }
    ensures are { IfOk result (λ sets. AreClasses (N.vocabulary names.now) definitions.now.parts.now (list_has sets.items) (length definitions.now.parts.now)) }
{
    let mut sets = Vec::new(alloc);
    for (index, part) in definitions.parts.iter().enumerate() {
        match size_of_class(part) {
            Some(size) => {
                let set = union_of(definitions, names, index, part, size, &sets);
                push(&mut sets, set)?;
            }
            None => {}
        }
    }
    Ok(sets)
}

/// The members of the class that is this part.
pub(crate) fn members_of<'p, 't>(parts: &'p [Part<'t>], class: usize, size: usize) -> &'p [Part<'t>]
    requires { class < length parts.now }
    ensures { result.now ≡ members_of parts.now class size }
{
    let rest = &parts[class + 1..];
    if size < rest.len() {
        &rest[..size]
    } else {
        rest
    }
}

/// The name of the first kind that some members name.
pub(crate) fn named_kind<'t>(members: &[Part<'t>]) -> Option<&'t str>
    ensures { option_copied result ≡ named_kind members.now }
{
    for member in members {
        if let Part::Becomes { name } = member {
            return Some(name.text);
        }
    }
    None
}

/// The union of the members of a class. After `-` the kinds of one are taken away.
fn union_of<N: Names>(
    definitions: &Definitions<'_, '_>,
    names: &N,
    index: usize,
    class: &Part<'_>,
    size: usize,
    sets: &[TokenSet],
) -> TokenSet
    requires is { slice_get definitions.now.parts.now index ≡ Some class.now }
    requires within { index < length definitions.now.parts.now }
    requires count { classes_in (take index definitions.now.parts.now) ≡ length sets.now }
    ensures { (kind : ℕ) → has result kind ≡ class_has (N.vocabulary names.now) definitions.now.parts.now (list_has sets.now) index size kind }
{
    let mut set = TokenSet::EMPTY;
    let mut is_without = false;
    let is_words = is_words(class);
    for member in members_of(definitions.parts, index, size) {
        let kinds = kinds_of(definitions, names, is_words, member, sets);
        set = joined(is_without, set, kinds);
        is_without = is_minus(member);
    }
    set
}

/// Whether a class is one of words.
fn is_words(class: &Part<'_>) -> bool
    ensures { result ≡ is_words (Some class.now) }
{
    matches!(class, Part::Words { .. })
}

/// What is so far, with the kinds of one member; or without them, after `-`.
fn joined(is_without: bool, set: TokenSet, kinds: TokenSet) -> TokenSet
    ensures { (kind : ℕ) → has result kind ≡ joined is_without (has set kind) (has kinds kind) }
{
    if is_without {
        without(set, kinds)
    } else {
        set.union(kinds)
    }
}

fn is_minus(part: &Part<'_>) -> bool
    ensures { result ≡ is_without part.now }
{
    matches!(part, Part::Without)
}

/// The kinds of a member of a class.
#[tactic(auto, using(crate::proofs::NoKinds::has_none))]
fn kinds_of<N: Names>(
    definitions: &Definitions<'_, '_>,
    names: &N,
    is_words: bool,
    member: &Part<'_>,
    sets: &[TokenSet],
) -> TokenSet
    ensures { (kind : ℕ) → has result kind ≡ member_has (N.vocabulary names.now) definitions.now.parts.now (list_has sets.now) (length sets.now) is_words kind member.now }
{
    match member {
        Part::Token { name } => token(names, is_words, name.text),
        Part::Class { name } => class(definitions, name.text, sets),
        Part::Call { name } => given(names, name.text),
        _ => TokenSet::EMPTY,
    }
}

#[tactic(auto, using(crate::proofs::NoKinds::has_none))]
fn token<N: Names>(names: &N, is_word: bool, name: &str) -> TokenSet
    ensures { (kind : ℕ) → has result kind ≡ is_token (kind_in (N.vocabulary names.now) is_word name.now) kind }
{
    match kind_in(names, is_word, name) {
        Some(kind) => set_of(kind),
        None => TokenSet::EMPTY,
    }
}

#[tactic(auto, using(crate::proofs::NoKinds::has_none))]
fn class(definitions: &Definitions<'_, '_>, name: &str, sets: &[TokenSet]) -> TokenSet
    ensures { (kind : ℕ) → has result kind ≡ class_holds (list_has sets.now) (length sets.now) (class_number definitions.now.parts.now name.now) kind }
{
    match definitions.class_number(name) {
        Some(number) => set_at(sets, number),
        None => TokenSet::EMPTY,
    }
}

/// The set of a number; without one, the empty set.
#[tactic(auto, using(crate::proofs::NoKinds::has_none))]
fn set_at(sets: &[TokenSet], number: usize) -> TokenSet
    ensures { (kind : ℕ) → has result kind ≡ class_holds (list_has sets.now) (length sets.now) (Some number) kind }
{
    if number < sets.len() {
        sets[number]
    } else {
        TokenSet::EMPTY
    }
}

#[tactic(auto, using(crate::proofs::NoKinds::has_none))]
fn given<N: Names>(names: &N, name: &str) -> TokenSet
    ensures { (kind : ℕ) → has result kind ≡ some_has ((N.vocabulary names.now).class name.now) kind }
{
    match names.class(name) {
        Some(set) => set,
        None => TokenSet::EMPTY,
    }
}
