//! Reads the words of a document: the operators of its grammar, and the names of its kinds.
ghost use Rattle.std.specs.Prelude.{◌≡◌, false, map, IfOk};
ghost use Rattle.serde_json.specs.View.{view};
ghost use Rattle.squawk_kinds.specs.Kinds.{EOF};
ghost use Rattle.squawk_kinds.specs.TokenSets.{has};
ghost use Rattle.squawk_document.specs.GrammarWords.{word_data, word_members_in, kind_and_name_in, names_in};
ghost use Rattle.squawk_document.specs.KindSets.{HasExactly, kinds_in, set_in};
ghost use Rattle.squawk_document.specs.Values.{Gives, GivesExactly};

use crate::document_error::DocumentError;
use crate::kind_set::kind_set;
use crate::value;
use serde_json::Value;
use squawk_kinds::{SyntaxKind, TokenSet};
use std::alloc::Global;

/// The greatest number of a kind.
const GREATEST: u64 = u16::MAX as u64;

/// The members of a document's words.
#[derive(Clone, Copy)]
pub struct WordMembers<'v> {
    pub operator_first: &'v Value,
    pub names: &'v Value,
}

/// Reads the members of a document's words: an object with these two and no other.
pub fn members(words: &Value) -> Result<WordMembers<'_>, DocumentError>
    ensures { GivesExactly word_data result (word_members_in (view words.now)) }
{
    let object = value::with_members(words, 2)?;
    let operator_first = value::member(object, "operator_first")?;
    let names = value::member(object, "names")?;
    Ok(WordMembers {
        operator_first,
        names,
    })
}

/// Reads the set of the kinds that operators consist of: token kinds other than the end.
pub fn operator_first(value: &Value) -> Result<TokenSet, DocumentError>
    ensures set { GivesExactly (λ set. set) result (set_in 1 (view value.now)) }
    ensures kinds { IfOk result (λ set. HasExactly set (kinds_in 1 (view value.now))) }
    ensures no_end { IfOk result (λ set. has set EOF ≡ false) }
{
    kind_set(value, 1)
}

/// Reads a kind and its name.
fn name(value: &Value) -> Result<(u16, &str), DocumentError>
    ensures { GivesExactly (λ pair. (pair.0, pair.1.now)) result (kind_and_name_in (view value.now)) }
{
    let (kind, name) = value::pair(value)?;
    let kind = value::number(kind, 0, GREATEST)?;
    let name = value::string(name)?;
    Ok((kind as u16, name))
}

/// Reads an array of kinds with their names.
pub fn names<'v>(
    alloc: Global,
    value: &'v Value,
) -> Result<Vec<(SyntaxKind, &'v str)>, DocumentError>
    ensures { Gives (λ names. map (λ pair. (pair.0, pair.1.now)) names.items) result (names_in (view value.now)) }
{
    let items = value::items(value)?;
    let mut names = Vec::with_capacity(alloc, items.len())?;
    for item in items {
        let (kind, name) = name(item)?;
        names.push_reserved((SyntaxKind::from(kind), name));
    }
    Ok(names)
}
