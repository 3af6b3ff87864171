//! Blocks of pairs, linked both ways.
ghost use Rattle.std.specs.Prelude.{◌≡◌, ℕ, ◌+◌, ◌-◌, ◌^◌, ◌<◌, ◌≤◌, List, [], ◌∷◌, ◌++◌, length};
ghost use Rattle.std.specs.Prelude.{remove, slice_get, Some, MatchOption};
ghost use denote.RawPtr.{Ptr};
ghost use Rattle.map_chain.specs.Edit.{edit};
ghost use Rattle.map_chain.specs.Links.{with_next, with_previous};
ghost use Rattle.map_chain.specs.Nodes.{IsAt};
ghost use Rattle.map_chain.specs.Pairs.{Pair, AllBelow, IsRising};
ghost use Rattle.map_chain.specs.Blocks.{PlacedBlocks, pairs_of, with_last, room_in, AllFilled};
ghost use Rattle.map_chain.specs.Blocks.{HasRoomAt, IsPairOf};

use crate::block::{Block, ROOM};
use crate::loose::Loose;
use crate::node::Node;
use crate::nodes::{Nodes, Place};
use std::alloc::Global;
use std::marker::Model;

pub(crate) struct Blocks {
    nodes: Nodes<Node, Global>,
    first: Place,
    last: Place,
    count: usize,
}

impl Model for Blocks {
    ghost use Rattle.std.specs.Coded.{coded_list, coded×, coded_ℕ};
    ghost use denote.RawPtr.{coded_ptr};
    ghost use Rattle.map_chain.specs.Blocks.{PlacedBlocks};

    ghost Value = { PlacedBlocks };

    ghost coded = { coded_list (coded× coded_ptr (coded_list (coded× coded_ℕ coded_ℕ))) };

    ghost use Rattle.map_chain.specs.Links.{blocks_of, AreLinked};

    ghost view = { λ b. blocks_of b.nodes.nodes };

    ghost invariant = { λ b. AreLinked b.first.ptr b.last.ptr b.count b.nodes.nodes };
}

fn set_next(nodes: &mut Nodes<Node, Global>, at: Place, i: usize, next: Place)
    requires { IsAt nodes.old.nodes i at.ptr }
    ensures { (nodes.new.nodes ≡ edit i (with_next next) nodes.old.nodes)
        × (nodes.new.alloc ≡ nodes.old.alloc) }
{
    nodes.get_mut(at, i).next = next;
}

fn set_previous(nodes: &mut Nodes<Node, Global>, at: Place, i: usize, previous: Place)
    requires { IsAt nodes.old.nodes i at.ptr }
    ensures { (nodes.new.nodes ≡ edit i (with_previous previous) nodes.old.nodes)
        × (nodes.new.alloc ≡ nodes.old.alloc) }
{
    nodes.get_mut(at, i).previous = previous;
}

// Lets what leads on to the i-th node lead to `next`: the node before it, at `before`, or the first
// place, which comes back.
fn lead_on(
    nodes: &mut Nodes<Node, Global>,
    first: Place,
    before: Place,
    i: usize,
    next: Place,
) -> Place
    requires { 0 < i → IsAt nodes.old.nodes (i - 1) before.ptr }
    ensures at_first { i ≡ 0 → (result ≡ next) × (nodes.new.nodes ≡ nodes.old.nodes) }
    ensures after_one { 0 < i
        → (result ≡ first) × (nodes.new.nodes ≡ edit (i - 1) (with_next next) nodes.old.nodes) }
    ensures allocator { nodes.new.alloc ≡ nodes.old.alloc }
{
    if i == 0 {
        return next;
    }
    set_next(nodes, before, i - 1, next);
    first
}

// Lets what leads back from the i-th node of `count` lead to `previous`: that node, at `at`, or the
// last place, which comes back.
fn lead_back(
    nodes: &mut Nodes<Node, Global>,
    last: Place,
    at: Place,
    i: usize,
    count: usize,
    previous: Place,
) -> Place
    requires { i < count → IsAt nodes.old.nodes i at.ptr }
    ensures at_last { count ≤ i → (result ≡ previous) × (nodes.new.nodes ≡ nodes.old.nodes) }
    ensures before_one { i < count
        → (result ≡ last) × (nodes.new.nodes ≡ edit i (with_previous previous) nodes.old.nodes) }
    ensures allocator { nodes.new.alloc ≡ nodes.old.alloc }
{
    if count <= i {
        return previous;
    }
    set_previous(nodes, at, i, previous);
    last
}

impl Blocks {
    pub(crate) fn new(alloc: Global) -> Blocks
        ensures { result ≡ [] }
    {
        Blocks {
            nodes: Nodes::new(&alloc),
            first: Place::nowhere(),
            last: Place::nowhere(),
            count: 0,
        }
    }

    pub(crate) fn len(&self) -> usize
        ensures len { result ≡ length self.now }
        ensures bound { result ≤ 2 ^ 60 }
    {
        self.count
    }

    pub(crate) fn last(&self) -> Place
        requires { 0 < length self.now }
        ensures { IsAt self.now (length self.now - 1) result.ptr }
    {
        self.last
    }

    pub(crate) fn next(&self, at: Place, i: usize) -> Place
        requires { IsAt self.now i at.ptr × (i + 1 < length self.now) }
        ensures { IsAt self.now (i + 1) result.ptr }
    {
        self.nodes.get(at, i).next
    }

    pub(crate) fn previous(&self, at: Place, i: usize) -> Place
        requires { IsAt self.now i at.ptr × (0 < i) }
        ensures { IsAt self.now (i - 1) result.ptr }
    {
        self.nodes.get(at, i).previous
    }

    pub(crate) fn block(&self, at: Place, i: usize) -> &Block
        requires { IsAt self.now i at.ptr }
        ensures { slice_get self.now i ≡ Some (at.ptr, result.now) }
    {
        &self.nodes.get(at, i).block
    }

    /// Links the block in at the end, with no pairs in it.
    pub(crate) fn link(&mut self, node: Box<Node>) -> Place
        requires { length self.old < 2 ^ 60 }
        ensures { self.new ≡ self.old ++ (result.ptr, []) ∷ [] }
    {
        let mut node = node;
        node.renew(self.last);
        let (at, _) = self.nodes.push(Loose::of(node));
        self.first = lead_on(&mut self.nodes, self.first, self.last, self.count, at);
        self.last = at;
        self.count += 1;
        at
    }

    /// Takes the i-th block out, and links its neighbours to one another.
    pub(crate) fn unlink(&mut self, at: Place, i: usize, alloc: Global) -> Box<Node>
        requires { IsAt self.old i at.ptr }
        ensures node { slice_get self.old i ≡ Some (at.ptr, result.value.block) }
        ensures others { self.new ≡ remove self.old i }
    {
        let node = self.nodes.get(at, i);
        let (next, previous) = (node.next, node.previous);
        self.first = lead_on(&mut self.nodes, self.first, previous, i, next);
        self.last = lead_back(
            &mut self.nodes,
            self.last,
            next,
            i + 1,
            self.count,
            previous,
        );
        self.count -= 1;
        self.nodes.take(at, i, alloc).into_box()
    }

    /// How many pairs the last block has room for.
    pub(crate) fn room(&self) -> usize
        requires { AllFilled self.now }
        ensures { result ≡ room_in self.now }
    {
        if self.count == 0 {
            return 0;
        }
        ROOM - self.block(self.last, self.count - 1).len()
    }

    /// Adds the pair to the last block.
    pub(crate) fn push_last(&mut self, local: u32, text: u32)
        requires { 0 < room_in self.old }
        ensures { self.new ≡ with_last (local, text) self.old }
    {
        let (last, i) = (self.last, self.count - 1);
        self.nodes.get_mut(last, i).block.push(local, text);
    }

    /// Removes the k-th pair of the i-th block.
    pub(crate) fn remove_pair(&mut self, at: Place, i: usize, k: usize)
        requires place { IsAt self.old i at.ptr }
        requires within { IsPairOf self.old i at.ptr k }
        ensures { self.new ≡ edit i (λ ps. remove ps k) self.old }
    {
        self.nodes.get_mut(at, i).block.remove(k);
    }

    /// Adds pairs to the i-th block.
    pub(crate) fn add_pairs(&mut self, at: Place, i: usize, more: &Block)
        requires place { IsAt self.old i at.ptr }
        requires fits { HasRoomAt self.old i at.ptr (length more.now) }
        ensures { self.new ≡ edit i (λ ps. ps ++ more.now) self.old }
    {
        self.nodes.get_mut(at, i).block.extend(more);
    }

    /// Takes the last block out, if there is one.
    pub(crate) fn pop(&mut self, alloc: Global) -> Option<Box<Node>>
        ensures { MatchOption result ((self.old ≡ []) × (self.new ≡ []))
            (λ _. (0 < length self.old) × (self.new ≡ remove self.old (length self.old - 1))) }
    {
        if self.count == 0 {
            return None;
        }
        let (last, i) = (self.last, self.count - 1);
        Some(self.unlink(last, i, alloc))
    }

    /// Frees every block.
    pub(crate) fn free(self, alloc: Global) {
        let mut blocks = self;
        while let Some(node) = blocks.pop(alloc) {
            drop(node);
        }
        let Blocks {
            nodes,
            first: _,
            last: _,
            count: _,
        } = blocks;
        nodes.close();
    }
}
