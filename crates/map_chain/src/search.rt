//! The search for a block, by the keys of the index.
ghost use Rattle.map_chain.specs.Blocks.{pairs_of, AllFilled, HasSought};
ghost use Rattle.map_chain.specs.Index.{IsIndexOf};
ghost use Rattle.map_chain.specs.Pairs.{IsRising};

use crate::blocks::Blocks;
use crate::index::Index;
use crate::nodes::Place;

impl Blocks {
    /// The first block with a local that is not below this one.
    pub(crate) fn seek(&self, index: &Index, local: u32) -> Option<(Place, usize)>
        requires order { IsRising (pairs_of self.now) × AllFilled self.now }
        requires index { IsIndexOf index.now self.now }
        ensures { HasSought local self.now result }
    {
        if index.keys.is_empty() {
            return None;
        }
        let i = index.nearest(local);
        let at = index.places[i];
        if local <= self.block(at, i).high() {
            return Some((at, i));
        }
        if i + 1 == index.places.len() {
            return None;
        }
        Some((index.places[i + 1], i + 1))
    }
}
