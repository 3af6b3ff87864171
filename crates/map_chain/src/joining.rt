//! Blocks that leave the chain, and thin blocks that are joined.
ghost use Rattle.std.specs.Prelude.{◌≡◌, ◌+◌, ◌^◌, ◌<◌, ◌≤◌, ◌⊎◌, length, remove};
ghost use Rattle.std.specs.Prelude.{IsTrue, vec_capacity};
ghost use Rattle.map_chain.specs.Blocks.{AllFilled, FitTogether, IsSettled, IsBlockAt};
ghost use Rattle.map_chain.specs.Blocks.{HasKept, HasPutBy};
ghost use Rattle.map_chain.specs.Index.{ArePlacesOf, IsIndexOf, IsIndexed};

use crate::block::ROOM;
use crate::blocks::Blocks;
use crate::index::{Index, density_of};
use crate::node::Node;
use crate::nodes::Place;
use std::alloc::Global;

/// A block with no more pairs than these is thin.
const THIN: usize = ROOM / 2;

/// Takes the i-th block out of the chain and its index.
pub(crate) fn take_block(used: &mut Blocks, index: &mut Index, i: usize, alloc: Global) -> Box<Node>
    requires within { i < length used.old }
    requires index { IsIndexOf index.old used.old }
    ensures node { IsBlockAt used.old i result.value.block }
    ensures others { used.new ≡ remove used.old i }
    ensures index { IsIndexOf index.new used.new }
    ensures keys { index.new.keys.items ≡ remove index.old.keys.items i }
    ensures room { vec_capacity index.new.places ≡ vec_capacity index.old.places }
    ensures key_room { vec_capacity index.new.keys ≡ vec_capacity index.old.keys }
{
    let at = index.places.remove(i);
    index.keys.remove(i);
    index.density = density_of(&index.keys);
    used.unlink(at, i, alloc)
}

/// Keeps the node of a block that has left if it was the last one, so that no room is gone.
pub(crate) fn put_by(spare: &mut Blocks, node: Box<Node>, is_last: bool)
    requires { length spare.old < 2 ^ 60 }
    ensures { HasPutBy spare.old spare.new is_last }
{
    if is_last {
        spare.link(node);
    } else {
        drop(node);
    }
}

/// Joins the i-th block, if it is thin, with the one after it or the one before it, if both fit
/// into one.
pub(crate) fn join_thin(
    used: &mut Blocks,
    spare: &mut Blocks,
    index: &mut Index,
    i: usize,
    alloc: Global,
)
    requires within { i < length used.old }
    requires blocks { AllFilled used.old × (length used.old + length spare.old ≤ 2 ^ 60) }
    requires index { IsIndexed index.old used.old spare.old }
    ensures kept { HasKept used.old spare.old used.new spare.new }
    ensures joined { (length used.new < length used.old) ⊎ IsSettled used.old i }
    ensures index { IsIndexed index.new used.new spare.new }
{
    if used.block(index.places[i], i).len() > THIN {
        return;
    }
    if fit_together(used, &index.places, i) {
        join(used, spare, index, i, alloc);
        return;
    }
    if i == 0 {
        return;
    }
    if !fit_together(used, &index.places, i - 1) {
        return;
    }
    join(used, spare, index, i - 1, alloc);
}

// Whether the i-th block and the one after it fit into one.
fn fit_together(used: &Blocks, places: &[Place], i: usize) -> bool
    requires within { i < length used.now }
    requires places { ArePlacesOf places.now used.now }
    ensures yes { IsTrue result → FitTogether used.now i }
    ensures no { FitTogether used.now i → IsTrue result }
{
    if i + 1 == places.len() {
        return false;
    }
    let pairs = used.block(places[i], i).len();
    let more = used.block(places[i + 1], i + 1).len();
    pairs + more <= ROOM
}

// Moves the pairs of the block after the i-th to the end of that, and takes the empty one out.
fn join(used: &mut Blocks, spare: &mut Blocks, index: &mut Index, i: usize, alloc: Global)
    requires together { FitTogether used.old i }
    requires blocks { AllFilled used.old × (length used.old + length spare.old ≤ 2 ^ 60) }
    requires index { IsIndexed index.old used.old spare.old }
    ensures fewer { length used.new < length used.old }
    ensures kept { HasKept used.old spare.old used.new spare.new }
    ensures index { IsIndexed index.new used.new spare.new }
{
    let is_last = i + 2 == index.places.len();
    let node = take_block(used, index, i + 1, alloc);
    used.add_pairs(index.places[i], i, &node.block);
    put_by(spare, node, is_last);
}
