//! One block of pairs.
ghost use Rattle.std.specs.Prelude.{◌≡◌, ℕ, ◌+◌, ◌-◌, ◌<◌, ◌≤◌, List, [], ◌∷◌, ◌++◌, length};
ghost use Rattle.std.specs.Prelude.{take, remove, slice_get, Some};
ghost use Rattle.map_chain.specs.Pairs.{Pair, IsRising, IsPlace, IsBlock, highest};

use std::marker::Model;

/// How many pairs a block has room for.
pub(crate) const ROOM: usize = 64;

/// Up to 64 pairs of a local number and a text, in order.
#[derive(Drop)]
pub(crate) struct Block {
    len: usize,
    // The local of the last pair, kept here so that a search for a block reads its head alone.
    high: u32,
    pairs: [(u32, u32); ROOM],
}

impl Model for Block {
    ghost Value = { List Pair };

    ghost view = { λ b. take b.len b.pairs };

    ghost invariant = { λ b. IsBlock b.len b.high b.pairs };
}

impl Block {
    pub(crate) fn new() -> Block
        ensures { result ≡ [] }
    {
        Block {
            len: 0,
            high: 0,
            pairs: [(0, 0); ROOM],
        }
    }

    pub(crate) fn clear(&mut self)
        ensures { self.new ≡ [] }
    {
        self.len = 0;
        self.high = 0;
    }

    pub(crate) fn len(&self) -> usize
        ensures len { result ≡ length self.now }
        ensures bound { result ≤ 64 }
    {
        self.len
    }

    /// The local of the last pair.
    pub(crate) fn high(&self) -> u32
        ensures { result ≡ highest self.now }
    {
        self.high
    }

    pub(crate) fn pair(&self, k: usize) -> (u32, u32)
        requires { k < length self.now }
        ensures { slice_get self.now k ≡ Some result }
    {
        let pairs = &self.pairs;
        pairs[k]
    }

    pub(crate) fn push(&mut self, local: u32, text: u32)
        requires { length self.old < 64 }
        ensures { self.new ≡ self.old ++ (local, text) ∷ [] }
    {
        self.pairs[self.len] = (local, text);
        self.high = local;
        self.len += 1;
    }

    /// Adds the pairs of another block.
    pub(crate) fn extend(&mut self, more: &Block)
        requires { length self.old + length more.now ≤ 64 }
        ensures { self.new ≡ self.old ++ more.now }
    {
        for k in 0..more.len() {
            let (local, text) = more.pair(k);
            self.push(local, text);
        }
    }

    pub(crate) fn remove(&mut self, k: usize)
        requires { k < length self.old }
        ensures { self.new ≡ remove self.old k }
    {
        close_gap(&mut self.pairs, k, self.len);
        self.len -= 1;
        self.high = if self.len == 0 {
            0
        } else {
            self.pairs[self.len - 1].0
        };
    }

    /// How many pairs have a local below this one. The search begins with the bounds of all places,
    /// so that its first read need not wait for that of `len`.
    pub(crate) fn find(&self, local: u32) -> usize
        requires { IsRising self.now }
        ensures { IsPlace local self.now result }
    {
        let mut low = 0;
        let mut high = ROOM;
        while low < high {
            let middle = low + (high - low) / 2;
            if middle < self.len && self.pairs[middle].0 < local {
                low = middle + 1;
            } else {
                high = middle;
            }
        }
        low
    }

    /// The same. A guess that is the place of this local saves the search.
    pub(crate) fn find_near(&self, local: u32, guess: usize) -> usize
        requires { IsRising self.now }
        ensures { IsPlace local self.now result }
    {
        if guess < self.len && self.pairs[guess].0 == local {
            return guess;
        }
        self.find(local)
    }
}

// Moves the pairs after the k-th one down, over it.
fn close_gap(pairs: &mut [(u32, u32)], k: usize, len: usize)
    requires { (k < len) × (len ≤ length pairs.old) }
    ensures { take (len - 1) pairs.new ≡ remove (take len pairs.old) k }
{
    for j in k..len - 1 {
        pairs[j] = pairs[j + 1];
    }
}
