//! A block of pairs with the places of its neighbours.
ghost use Rattle.std.specs.Prelude.{◌≡◌, []};
ghost use denote.RawPtr.{null_ptr};

use crate::block::Block;
use crate::nodes::Place;

#[derive(Drop)]
pub(crate) struct Node {
    pub(crate) next: Place,
    pub(crate) previous: Place,
    pub(crate) block: Block,
}

impl Node {
    pub(crate) fn new() -> Node
        ensures { result.block ≡ [] }
    {
        Node {
            next: Place::nowhere(),
            previous: Place::nowhere(),
            block: Block::new(),
        }
    }

    /// Empties the node, which becomes the last one, after `previous`.
    pub(crate) fn renew(&mut self, previous: Place)
        ensures { (self.new.next.ptr ≡ null_ptr)
            × (self.new.previous ≡ previous)
            × (self.new.block ≡ []) }
    {
        self.next = Place::nowhere();
        self.previous = previous;
        self.block.clear();
    }
}
