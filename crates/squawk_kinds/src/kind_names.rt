//! The names of kinds. What is inlined runs at each line of a tree, what is cold once.
ghost use Rattle.std.specs.Prelude.{◌≡◌, ◌<◌, All, IfSome, length, map};
ghost use Rattle.squawk_kinds.specs.FirstSlots.{IsIndex, first_slot};

use crate::syntax_kind::SyntaxKind;
use std::alloc::Global;
use std::marker::Model;

/// Up to this many pairs are searched without an index.
const FEW: usize = 16;

/// Kinds with their names. The name of a kind is that of its first pair.
///
/// If there are more than 16 pairs, the first look-up makes an index, which takes 4 bytes for each kind
/// up to the greatest that has a pair; then a look-up reads one entry. If that allocation fails, a
/// look-up searches the pairs.
#[derive(Drop)]
pub struct KindNames<'p, 'n> {
    alloc: Global,
    pairs: &'p [(SyntaxKind, &'n str)],
    /// The slot of each kind's first pair, or the number of pairs. Empty if there is no index.
    index: Vec<u32>,
}

impl<'p, 'n> Model for KindNames<'p, 'n> {
    ghost use Rattle.std.specs.Prelude.{◌<◌, length, map};
    ghost use Rattle.squawk_kinds.specs.FirstSlots.{IsIndex};
    ghost use Rattle.squawk_kinds.specs.KindNames.{Names};

    ghost Value = { Names };

    ghost view = { λ n. map (λ pair. (pair.0, pair.1.now)) n.pairs.now };

    ghost invariant = { λ n. 0 < length n.index.items → IsIndex (map (λ pair. (pair.0, pair.1.now)) n.pairs.now) n.index.items };
}

impl<'p, 'n> KindNames<'p, 'n> {
    ghost use Rattle.std.specs.Prelude.{◌≡◌, map, option_copied};
    ghost use Rattle.squawk_kinds.specs.FirstSlots.{first_slot};
    ghost use Rattle.squawk_kinds.specs.KindNames.{first_name};

    /// The names in these pairs. Allocates nothing: the index comes with the first look-up.
    pub fn new(alloc: Global, pairs: &'p [(SyntaxKind, &'n str)]) -> KindNames<'p, 'n>
        ensures { result ≡ map (λ pair. (pair.0, pair.1.now)) pairs.entry.now }
    {
        KindNames {
            alloc,
            pairs,
            index: Vec::new(alloc),
        }
    }

    /// The name of a kind, if it has a pair.
    #[inline(always)]
    pub fn name(&mut self, kind: SyntaxKind) -> Option<&'n str>
        ensures name { option_copied result ≡ first_name self.old kind }
        ensures same { self.new ≡ self.old }
    {
        let slot = self.slot(kind);
        let (_, name) = self.pairs.get(slot)?;
        Some(name)
    }

    /// The slot of a kind's first pair, or the number of pairs.
    #[inline(always)]
    fn slot(&mut self, kind: SyntaxKind) -> usize
        ensures slot { result ≡ first_slot self.old kind }
        ensures same { self.new ≡ self.old }
    {
        let number = usize::from(u16::from(kind));
        if number < self.index.len() {
            return self.index[number] as usize;
        }
        self.look_up(kind)
    }

    /// The slot of the first pair of a kind that the index has no entry for, or the number of pairs.
    #[cold]
    #[inline(never)]
    fn look_up(&mut self, kind: SyntaxKind) -> usize
        ensures slot { result ≡ first_slot self.old kind }
        ensures same { self.new ≡ self.old }
    {
        if self.index.is_empty() && self.pairs.len() > FEW {
            if let Some(index) = index_of(self.alloc, self.pairs) {
                self.index = index;
            }
        }
        if self.index.is_empty() {
            return walked(self.pairs, kind);
        }
        match self.index.get(usize::from(u16::from(kind))) {
            Some(slot) => *slot as usize,
            None => self.pairs.len(),
        }
    }
}

/// The index of these pairs, if their number fits in 32 bits and its allocation succeeds.
fn index_of(alloc: Global, pairs: &[(SyntaxKind, &str)]) -> Option<Vec<u32>>
    ensures { IfSome result (λ index. IsIndex (map (λ pair. (pair.0, pair.1.now)) pairs.now) index.items) }
{
    let len = u32::try_from(pairs.len()).ok()?;
    let greatest = pairs.iter().map(|(kind, _)| u16::from(*kind)).max()?;
    let mut index = vec![in alloc; len; usize::from(greatest) + 1].ok()?;
    // From the last to the first, so that the first pair of a kind stays.
    for slot in (0..len).rev() {
        let (kind, _) = pairs[slot as usize];
        index[usize::from(u16::from(kind))] = slot;
    }
    Some(index)
}

/// The slot of a kind's first pair, or the number of pairs, found by a search of the pairs.
fn walked(pairs: &[(SyntaxKind, &str)], kind: SyntaxKind) -> usize
    ensures { result ≡ first_slot (map (λ pair. (pair.0, pair.1.now)) pairs.now) kind }
{
    for (slot, (named, _)) in pairs.iter().enumerate() {
        if *named == kind {
            return slot;
        }
    }
    pairs.len()
}
