//! Sets of kinds, each once.
ghost use Rattle.std.specs.Prelude.{◌≡◌, ℕ, ◌&&◌, ◌++◌, ◌∷◌, [], IfErr, IfOk, IfSome, None, OnOk, Some, not, true, false};
ghost use Rattle.squawk_kinds.specs.TokenSets.{has};
ghost use Rattle.rule_tables.specs.Classes.{is_token};
ghost use Rattle.rule_tables.specs.Limits.{IsLimit};
ghost use Rattle.rule_tables.specs.Sets.{Extends};

use crate::error::RulesError;
use squawk_kinds::{SyntaxKind, TokenSet};
use std::alloc::{AllocError, Global};
use std::collections::BTreeMap;

/// Sets of kinds. Those that are added are there once.
#[derive(Drop)]
pub(crate) struct Sets {
    pub(crate) list: Vec<TokenSet>,
    /// The number of each set, by its words.
    numbers: BTreeMap<[u64; 10], u16>,
}

impl Sets {
    /// These sets, each also where it is there more than once.
    pub(crate) fn new(alloc: Global, sets: &[TokenSet]) -> Result<Sets, AllocError>
        ensures { IfOk result (λ made. made.list.items ≡ sets.now) }
    {
        let list = Vec::from_slice(alloc, sets)?;
        Ok(Sets {
            list,
            numbers: BTreeMap::new(alloc),
        })
    }

    /// The number of a set.
    pub(crate) fn number(&mut self, set: TokenSet) -> Result<u16, RulesError>
        ensures err { IfErr result IsLimit }
        ensures keeps { OnOk result (Extends self.old.list.items self.new.list.items) }
    {
        if let Some(number) = self.numbers.get(&set.0) {
            return Ok(*number);
        }
        let number = number_of(self.list.len())?;
        if self.numbers.insert(set.0, number).is_err() {
            return Err(RulesError::Memory(AllocError));
        }
        push(&mut self.list, set)?;
        Ok(number)
    }
}

/// The number of a set in a table. The greatest one is no set.
fn number_of(index: usize) -> Result<u16, RulesError>
    ensures { IfErr result IsLimit }
{
    if index < 65535 {
        Ok(index as u16)
    } else {
        Err(RulesError::TooMany)
    }
}

/// The set of one kind: it has none that no token has.
pub(crate) fn set_of(kind: SyntaxKind) -> TokenSet
    ensures { (one : ℕ) → has result one ≡ is_token (Some kind) one }
{
    if kind.0 <= SyntaxKind::WHITESPACE.0 {
        TokenSet::new(&[kind])
    } else {
        TokenSet::EMPTY
    }
}

/// The kinds that are in both sets.
pub(crate) fn both(one: TokenSet, other: TokenSet) -> TokenSet
    ensures { (kind : ℕ) → has result kind ≡ (has one kind && has other kind) }
{
    without(one, without(one, other))
}

/// The kinds of a set that aren't in another.
pub(crate) fn without(one: TokenSet, other: TokenSet) -> TokenSet
    ensures { (kind : ℕ) → has result kind ≡ (has one kind && not (has other kind)) }
{
    let a = one.0;
    let b = other.0;
    TokenSet::from_words([
        a[0] & (a[0] ^ b[0]),
        a[1] & (a[1] ^ b[1]),
        a[2] & (a[2] ^ b[2]),
        a[3] & (a[3] ^ b[3]),
        a[4] & (a[4] ^ b[4]),
        a[5] & (a[5] ^ b[5]),
        a[6] & (a[6] ^ b[6]),
        a[7] & (a[7] ^ b[7]),
        a[8] & (a[8] ^ b[8]),
        a[9] & (a[9] ^ b[9]),
    ])
}

/// Whether a set has no kind, by its words.
pub(crate) fn is_empty(set: TokenSet) -> bool
    ensures { result ≡ true → (kind : ℕ) → has set kind ≡ false }
{
    set == TokenSet::EMPTY
}

/// The least kind of a set.
pub(crate) fn first_of(set: TokenSet) -> Option<SyntaxKind>
    ensures some { IfSome result (λ kind. has set kind ≡ true) }
    ensures none { result ≡ None → (kind : ℕ) → has set kind ≡ false }
{
    if is_empty(set) {
        return None;
    }
    for number in 0..640u16 {
        if set.contains(SyntaxKind(number)) {
            return Some(SyntaxKind(number));
        }
    }
    None
}

/// Adds an item to a list.
pub(crate) fn push<T: Drop>(list: &mut Vec<T>, item: T) -> Result<(), AllocError>
    ensures { OnOk result (list.new.items ≡ list.old.items ++ item ∷ []) }
{
    list.push(item)?;
    Ok(())
}
