//! The chain.
ghost use Rattle.std.specs.Prelude.{◌≡◌, ◌+◌, ◌^◌, ◌<◌, ◌≤◌, ◌↔◌, [], ◌∷◌, ◌++◌, length};
ghost use Rattle.std.specs.Prelude.{max, reverse, IsTrue, OnOk, OnErr};
ghost use Rattle.map_chain.specs.Blocks.{pairs_of, AllFilled, HasMadeRoom, HasNoRoom};
ghost use Rattle.map_chain.specs.Blocks.{IsPairAt, HasLost};
ghost use Rattle.map_chain.specs.Index.{IsIndexed, IsIndexedFor};
ghost use Rattle.map_chain.specs.Pairs.{Pair, AllBelow, IsRising, text_of, without, from_on, below};

use crate::block::ROOM;
use crate::blocks::Blocks;
use crate::index::{Index, density_of};
use crate::joining::{join_thin, put_by, take_block};
use crate::memory::Memory;
use crate::node::Node;
use crate::walks::{Downward, Upward};
use std::alloc::Global;
use std::marker::Model;

/// Pairs of a local number and a text, of rising locals, in a two-way chain of blocks of 64 pairs.
///
/// `append` and `len` are constant. `get`, `remove`, `from` and `before` find their block by the
/// keys of an index: they guess a key, as if all were as far apart, and search from it on by steps
/// that grow and then by halving. In the block they halve too; all but `get` first try the place of
/// the pair if no local is missing. A block that has become thin is joined with a neighbour if
/// both fit into one.
pub struct Chain {
    used: Blocks,
    spare: Blocks,
    index: Index,
    len: usize,
    alloc: Global,
}

impl Model for Chain {
    ghost use Rattle.map_chain.specs.Chain.{Listed};
    ghost use Rattle.map_chain.specs.Blocks.{pairs_of, room_of};
    ghost use Rattle.map_chain.specs.Index.{IsKept};

    ghost Value = { Listed };

    ghost view = { λ c. record { pairs = pairs_of c.used; spare = room_of c.used c.spare } };

    ghost invariant = { λ c. IsKept c.used c.spare c.len c.index };
}

// Makes room in the last block for one more pair, by another block if there is none: a spare one if
// there is one. That block's key is the local of the pair.
fn make_room(
    used: &mut Blocks,
    spare: &mut Blocks,
    index: &mut Index,
    local: u32,
    alloc: Global,
) -> Result<(), Memory>
    requires above { AllBelow local (pairs_of used.old) }
    requires blocks { AllFilled used.old × (length used.old < 2 ^ 60) }
    requires index { IsIndexed index.old used.old spare.old }
    ensures ok { OnOk result (HasMadeRoom used.old spare.old used.new spare.new) }
    ensures err { OnErr result (HasNoRoom used.old spare.old used.new spare.new) }
    ensures index { OnOk result (IsIndexedFor local index.new used.new spare.new) }
    ensures kept { OnErr result (IsIndexed index.new used.new spare.new) }
{
    if used.room() > 0 {
        return Ok(());
    }
    let node = match spare.pop(alloc) {
        Some(node) => node,
        None => {
            index.places.reserve(1)?;
            index.keys.reserve(1)?;
            Box::new(alloc, Node::new())?
        }
    };
    index.places.push(used.link(node)).unwrap();
    index.keys.push(local).unwrap();
    index.density = density_of(&index.keys);
    Ok(())
}

// Removes the k-th pair of the i-th block, which leaves the chain if it has become empty.
fn take_pair(
    used: &mut Blocks,
    spare: &mut Blocks,
    index: &mut Index,
    i: usize,
    k: usize,
    alloc: Global,
)
    requires within { IsPairAt used.old i k }
    requires blocks { AllFilled used.old × (length used.old + length spare.old ≤ 2 ^ 60) }
    requires index { IsIndexed index.old used.old spare.old }
    ensures lost { HasLost used.old spare.old i k used.new spare.new }
    ensures index { IsIndexed index.new used.new spare.new }
{
    let at = index.places[i];
    if used.block(at, i).len() > 1 {
        used.remove_pair(at, i, k);
        join_thin(used, spare, index, i, alloc);
        return;
    }
    let is_last = i + 1 == index.places.len();
    let node = take_block(used, index, i, alloc);
    put_by(spare, node, is_last);
}

// Adds blocks until there are this many.
fn stock(spare: &mut Blocks, blocks: usize, alloc: Global) -> Result<(), Memory>
    requires { blocks ≤ 2 ^ 59 }
    ensures ok { OnOk result (blocks ≤ length spare.new) }
    ensures err { OnErr result (length spare.old < blocks) }
    ensures kept { length spare.old ≤ length spare.new }
    ensures few { length spare.new ≤ max (length spare.old) blocks }
{
    while spare.len() < blocks {
        let node = Box::new(alloc, Node::new())?;
        spare.link(node);
    }
    Ok(())
}

impl Chain {
    /// The empty chain. It takes no memory yet.
    pub fn new(alloc: Global) -> Chain
        ensures { result.pairs ≡ [] }
    {
        Chain {
            used: Blocks::new(alloc),
            spare: Blocks::new(alloc),
            index: Index::new(alloc),
            len: 0,
            alloc,
        }
    }

    pub fn len(&self) -> usize
        ensures len { result ≡ length self.now.pairs }
        ensures rising { IsRising self.now.pairs }
    {
        self.len
    }

    pub fn is_empty(&self) -> bool
        ensures { IsTrue result ↔ (self.now.pairs ≡ []) }
    {
        self.len == 0
    }

    /// The text under the local number.
    pub fn get(&self, local: u32) -> Option<u32>
        ensures text { result ≡ text_of local self.now.pairs }
        ensures rising { IsRising self.now.pairs }
    {
        let (at, i) = self.used.seek(&self.index, local)?;
        let block = self.used.block(at, i);
        let (found, text) = block.pair(block.find(local));
        if found == local { Some(text) } else { None }
    }

    /// Adds a pair at the end.
    pub fn append(&mut self, local: u32, text: u32) -> Result<(), Memory>
        requires above { AllBelow local self.old.pairs }
        ensures ok { OnOk result (self.new.pairs ≡ self.old.pairs ++ (local, text) ∷ []) }
        ensures err { OnErr result ((self.new.pairs ≡ self.old.pairs) × (self.old.spare ≡ 0)) }
        ensures spare { self.old.spare ≤ self.new.spare + 1 }
    {
        make_room(
            &mut self.used,
            &mut self.spare,
            &mut self.index,
            local,
            self.alloc,
        )?;
        self.used.push_last(local, text);
        self.len += 1;
        Ok(())
    }

    /// Takes the pair under the local number out, and gives its text.
    pub fn remove(&mut self, local: u32) -> Option<u32>
        ensures text { result ≡ text_of local self.old.pairs }
        ensures pairs { self.new.pairs ≡ without local self.old.pairs }
        ensures spare { self.old.spare ≤ self.new.spare }
    {
        let (at, i) = self.used.seek(&self.index, local)?;
        let block = self.used.block(at, i);
        let k = block.find_near(local, self.index.above_key(i, local));
        let (found, text) = block.pair(k);
        if found != local {
            return None;
        }
        take_pair(
            &mut self.used,
            &mut self.spare,
            &mut self.index,
            i,
            k,
            self.alloc,
        );
        self.len -= 1;
        Some(text)
    }

    /// Makes room for `n` more pairs.
    pub fn reserve(&mut self, n: usize) -> Result<(), Memory>
        ensures pairs { self.new.pairs ≡ self.old.pairs }
        ensures ok { OnOk result (n ≤ self.new.spare) }
        ensures err { OnErr result (self.old.spare < n) }
        ensures spare { self.old.spare ≤ self.new.spare }
    {
        let blocks = n.saturating_sub(self.used.room()).div_ceil(ROOM);
        self.index.places.reserve(blocks)?;
        self.index.keys.reserve(blocks)?;
        stock(&mut self.spare, blocks, self.alloc)
    }

    /// The pairs under this local number and above, rising.
    pub fn from(&self, local: u32) -> Upward<'_>
        ensures pairs { result ≡ from_on local self.now.pairs }
        ensures rising { IsRising self.now.pairs }
    {
        Upward::new(&self.used, &self.index, local)
    }

    /// The pairs strictly below the ceiling, falling.
    pub fn before(&self, ceiling: u32) -> Downward<'_>
        ensures pairs { result ≡ reverse (below ceiling self.now.pairs) }
        ensures rising { IsRising self.now.pairs }
    {
        Downward::new(&self.used, &self.index, ceiling)
    }
}

impl Drop for Chain {
    fn drop(self) {
        let Chain {
            used,
            spare,
            index: _,
            len: _,
            alloc,
        } = self;
        used.free(alloc);
        spare.free(alloc);
    }
}
