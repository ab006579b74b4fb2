//! Whether tokens are joint, as bits.
ghost use Rattle.std.specs.Prelude.{◌≡◌, ℕ, ◌<◌, ◌≤◌, [], false, length, take, replicate, slice_set, IfOk};
ghost use Rattle.std.specs.List.{slice_index_or};

#[cfg(test)]
mod tests;

use std::alloc::{AllocError, Global};
use std::marker::Model;

/// A list of bits, 64 in a word. Bit `k` is the one of value 2^(`k` % 64) in word `k` / 64. Past the last
/// bit all are 0.
#[derive(Drop)]
pub struct Joints {
    words: Vec<u64>,
    len: usize,
}

impl Model for Joints {
    ghost use Rattle.std.specs.Prelude.{Bool, List};
    ghost use Rattle.squawk_table.specs.JointBits.{IsPacked, bits_of};

    ghost Value = { List Bool };

    ghost view = { λ joints. bits_of joints.words.items joints.len };

    ghost invariant = { λ joints. IsPacked joints.words.items joints.len };
}

impl Joints {
    /// No bits.
    pub fn new(alloc: Global) -> Joints
        ensures { result ≡ [] }
    {
        Joints {
            words: Vec::new(alloc),
            len: 0,
        }
    }

    /// `len` bits, of which none is set.
    pub fn with_len(alloc: Global, len: usize) -> Result<Joints, AllocError>
        ensures { IfOk result (λ joints. joints ≡ replicate len false) }
    {
        Ok(Joints {
            words: vec![in alloc; 0; len.div_ceil(64)]?,
            len,
        })
    }

    /// Gives bit `k`, which isn't set, this value, without a branch.
    pub fn set(&mut self, k: usize, bit: bool)
        requires within { k < length self.old }
        requires unset { slice_index_or self.old k false ≡ false }
        ensures { self.new ≡ slice_set self.old k bit }
    {
        self.words[k / 64] |= u64::from(bit) << (k % 64);
    }

    /// Keeps the first `len` bits, past which none is set.
    pub fn truncate(&mut self, len: usize)
        requires within { len ≤ length self.old }
        requires unset { (k : ℕ) → len ≤ k → slice_index_or self.old k false ≡ false }
        ensures { self.new ≡ take len self.old }
    {
        self.words.truncate(len.div_ceil(64));
        self.len = len;
    }

    /// Bit `k`.
    pub fn get(&self, k: usize) -> bool
        requires { k < length self.now }
        ensures { result ≡ slice_index_or self.now k false }
    {
        (self.words[k / 64] >> (k % 64)) & 1 == 1
    }
}
