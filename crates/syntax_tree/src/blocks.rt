//! Where elements stand among blocks of bytes of the text.
ghost use Rattle.std.specs.Prelude.{◌≡◌, ◌+◌, ◌-◌, ◌/◌, ◌<◌, ◌≤◌, ◌++◌, [], if◌then◌else◌, length, is_ok, replicate};
ghost use Rattle.syntax_tree.specs.Offsets.{BeginBy, BeginBehind};

use crate::tree::SyntaxTree;
use std::alloc::{AllocError, Global};

/// How many bytes of the text a block has.
const BLOCK: usize = 32;

/// An empty list, with room for the blocks of so many bytes. Where that memory is refused, it comes step by step.
pub(crate) fn room(alloc: Global, bytes: usize) -> Vec<u32>
    ensures { result.items ≡ [] }
{
    let mut blocks = Vec::new(alloc);
    let _ = blocks.reserve(bytes / BLOCK);
    blocks
}

/// Adds a place for each block that ends within so many bytes and has none.
#[inline(always)]
pub(crate) fn fill(blocks: &mut Vec<u32>, bytes: usize, place: u32) -> Result<(), AllocError>
    requires { length blocks.old.items ≤ bytes / 32 }
    ensures { blocks.new.items ≡ (if is_ok result then blocks.old.items ++ replicate (bytes / 32 - length blocks.old.items) place else blocks.old.items) }
{
    let count = bytes / BLOCK;
    if count <= blocks.len() {
        return Ok(());
    }
    add(blocks, count, place)
}

/// The part of [`fill`] that few tokens need, out of line.
#[inline(never)]
fn add(blocks: &mut Vec<u32>, count: usize, place: u32) -> Result<(), AllocError>
    requires { length blocks.old.items ≤ count }
    ensures { blocks.new.items ≡ (if is_ok result then blocks.old.items ++ replicate (count - length blocks.old.items) place else blocks.old.items) }
{
    blocks.resize(count, place)
}

impl<'s> SyntaxTree<'s> {
    /// A place before which all elements begin at a byte or before it: those of the blocks before the byte's own.
    pub(crate) fn begun_by(&self, byte: usize) -> usize
        requires { byte < length self.now.text }
        ensures { BeginBy self.now byte result }
    {
        let block = byte / BLOCK;
        if block == 0 {
            return 0;
        }
        self.blocks[block - 1] as usize
    }

    /// A place from which on all elements begin behind a byte: those of the blocks behind the byte's own.
    pub(crate) fn begun_behind(&self, byte: usize) -> usize
        ensures { BeginBehind self.now byte result }
    {
        match self.blocks.get(byte / BLOCK) {
            Some(place) => *place as usize,
            None => self.elements.len(),
        }
    }
}
