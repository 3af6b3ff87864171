//! The walks over the pairs where they stand.
ghost use Rattle.std.specs.Prelude.{◌≡◌, ◌+◌, ◌-◌, ◌<◌, length, reverse};
ghost use Rattle.map_chain.specs.Index.{IsIndexOf};
ghost use Rattle.map_chain.specs.Nodes.{IsAt};
ghost use Rattle.std.specs.Iterator.{YieldsFirst, item_count};
ghost use Rattle.map_chain.specs.Pairs.{IsRising, from_on, below};
ghost use Rattle.map_chain.specs.Blocks.{pairs_of, AllFilled, IsWhole};

use crate::blocks::Blocks;
use crate::index::Index;
use crate::nodes::Place;
use std::marker::Model;

// The place of the block after the i-th, if there is one.
fn step_up(blocks: &Blocks, at: Place, i: usize) -> Place
    requires { IsAt blocks.now i at.ptr }
    ensures { i + 1 < length blocks.now → IsAt blocks.now (i + 1) result.ptr }
{
    if i < blocks.len() - 1 {
        blocks.next(at, i)
    } else {
        at
    }
}

// The place of the block before the i-th, and how many pairs it has, if there is one.
fn step_down(blocks: &Blocks, at: Place, i: usize) -> (Place, usize)
    requires { IsAt blocks.now i at.ptr }
    ensures { 0 < i → IsWhole blocks.now (i - 1) result.0.ptr result.1 }
{
    if i == 0 {
        return (at, 0);
    }
    let before = blocks.previous(at, i);
    (before, blocks.block(before, i - 1).len())
}

/// The pairs from a local number on, rising.
#[derive(Drop)]
pub struct Upward<'a> {
    blocks: &'a Blocks,
    // The next pair is the `k`-th of the `i`-th block, which lies at `at`.
    at: Place,
    i: usize,
    k: usize,
}

impl<'a> Model for Upward<'a> {
    ghost use Rattle.std.specs.Prelude.{List};
    ghost use Rattle.map_chain.specs.Pairs.{Pair};
    ghost use Rattle.map_chain.specs.Walks.{onward, StandsUp};

    ghost Value = { List Pair };

    ghost view = { λ w. onward w.blocks.now w.i w.k };

    ghost invariant = { λ w. StandsUp w.blocks.now w.i w.k w.at.ptr };
}

impl<'a> Upward<'a> {
    pub(crate) fn new(blocks: &'a Blocks, index: &Index, local: u32) -> Upward<'a>
        requires order { IsRising (pairs_of blocks.now) × AllFilled blocks.now }
        requires index { IsIndexOf index.now blocks.now }
        ensures { result ≡ from_on local (pairs_of blocks.now) }
    {
        match blocks.seek(index, local) {
            Some((at, i)) => {
                let guess = index.above_key(i, local);
                let k = blocks.block(at, i).find_near(local, guess);
                Upward { blocks, at, i, k }
            }
            None => Upward {
                blocks,
                at: Place::nowhere(),
                i: blocks.len(),
                k: 0,
            },
        }
    }

    fn step(&mut self) -> Option<(u32, u32)>
        ensures { YieldsFirst (λ s. s) self.old result self.new }
    {
        if self.i == self.blocks.len() {
            return None;
        }
        let block = self.blocks.block(self.at, self.i);
        let pair = block.pair(self.k);
        if self.k + 1 < block.len() {
            self.k += 1;
            return Some(pair);
        }
        self.at = step_up(self.blocks, self.at, self.i);
        self.i += 1;
        self.k = 0;
        Some(pair)
    }
}

impl<'a> Iterator for Upward<'a> {
    type Item = (u32, u32);

    ghost next_gives = { YieldsFirst (λ s. s) };

    ghost remaining = { item_count (λ s. s) };

    fn next(&mut self) -> Option<(u32, u32)> {
        self.step()
    }
}

/// The pairs below a ceiling, falling.
#[derive(Drop)]
pub struct Downward<'a> {
    blocks: &'a Blocks,
    // The first `k` pairs of the block at `at`, the last of the first `i`, are still to come, and
    // all before it.
    at: Place,
    i: usize,
    k: usize,
}

impl<'a> Model for Downward<'a> {
    ghost use Rattle.std.specs.Prelude.{List, reverse};
    ghost use Rattle.map_chain.specs.Pairs.{Pair};
    ghost use Rattle.map_chain.specs.Walks.{up_to, StandsDown};

    ghost Value = { List Pair };

    ghost view = { λ w. reverse (up_to w.blocks.now w.i w.k) };

    ghost invariant = { λ w. StandsDown w.blocks.now w.i w.k w.at.ptr };
}

impl<'a> Downward<'a> {
    pub(crate) fn new(blocks: &'a Blocks, index: &Index, ceiling: u32) -> Downward<'a>
        requires order { IsRising (pairs_of blocks.now) × AllFilled blocks.now }
        requires index { IsIndexOf index.now blocks.now }
        ensures { result ≡ reverse (below ceiling (pairs_of blocks.now)) }
    {
        let count = blocks.len();
        match blocks.seek(index, ceiling) {
            Some((at, i)) => {
                let guess = index.above_key(i, ceiling);
                let k = blocks.block(at, i).find_near(ceiling, guess);
                if k > 0 {
                    return Downward {
                        blocks,
                        at,
                        i: i + 1,
                        k,
                    };
                }
                let (at, k) = step_down(blocks, at, i);
                Downward { blocks, at, i, k }
            }
            None => Downward::whole(blocks, count),
        }
    }

    // All pairs of the blocks, of which there are `i`, are to come.
    fn whole(blocks: &'a Blocks, i: usize) -> Downward<'a>
        requires { AllFilled blocks.now × (i ≡ length blocks.now) }
        ensures { result ≡ reverse (pairs_of blocks.now) }
    {
        if i == 0 {
            return Downward {
                blocks,
                at: Place::nowhere(),
                i,
                k: 0,
            };
        }
        let at = blocks.last();
        let k = blocks.block(at, i - 1).len();
        Downward { blocks, at, i, k }
    }

    fn step(&mut self) -> Option<(u32, u32)>
        ensures { YieldsFirst (λ s. s) self.old result self.new }
    {
        if self.i == 0 {
            return None;
        }
        let pair = self.blocks.block(self.at, self.i - 1).pair(self.k - 1);
        if self.k > 1 {
            self.k -= 1;
            return Some(pair);
        }
        let (at, k) = step_down(self.blocks, self.at, self.i - 1);
        self.at = at;
        self.i -= 1;
        self.k = k;
        Some(pair)
    }
}

impl<'a> Iterator for Downward<'a> {
    type Item = (u32, u32);

    ghost next_gives = { YieldsFirst (λ s. s) };

    ghost remaining = { item_count (λ s. s) };

    fn next(&mut self) -> Option<(u32, u32)> {
        self.step()
    }
}
