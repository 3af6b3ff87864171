ghost use Rattle.std.specs.Prelude.{◌≡◌, ◌+◌, ◌^◌, ◌<◌, ◌≤◌, [], ◌∷◌, ◌++◌, length, reverse};
ghost use Rattle.std.specs.Prelude.{take, IfOk, IsOk, OnErr, OnOk};
ghost use Rattle.kom_types.specs.Mappings.{mapping_up, mapping_down, end_below};
ghost use Rattle.local_maps.specs.Pairs.{AllBelow, IsRising, text_of, least_of, without};
ghost use Rattle.local_maps.specs.Pairs.{from_on, below};

use crate::mapping::{downward, upward};
use crate::walks::{PairsBefore, PairsFrom};
use kom_types::{LocalText, Mapping, Memory};
use map_chain::Chain;
use std::alloc::Global;
use std::marker::Model;

/// The texts of one conference or one author by their local numbers, which rise.
///
/// `append`, `len` and `first` are done in constant time, a search takes the logarithm of the
/// number of texts at most, and a part costs by the texts that it tells.
pub struct LocalMap {
    chain: Chain,
    alloc: Global,
}

// A call of its own, so that whoever lets the map go has one step to prove and not one for each
// part.
impl Drop for LocalMap {
    fn drop(self) {
        let LocalMap { chain, alloc: _ } = self;
        drop(chain);
    }
}

impl Model for LocalMap {
    ghost use Rattle.std.specs.Prelude.{◌^◌, map};
    ghost use Rattle.local_maps.specs.Pairs.{Locals, AllBelow, local_text};

    ghost Value = { Locals };

    ghost view = { λ m. record { pairs = map local_text m.chain.pairs; spare = m.chain.spare } };

    ghost invariant = { λ m. AllBelow (2 ^ 32) (map local_text m.chain.pairs) };
}

impl LocalMap {
    /// No texts. It takes no memory yet.
    pub fn new(alloc: Global) -> LocalMap
        ensures { result.pairs ≡ [] }
    {
        LocalMap {
            chain: Chain::new(alloc),
            alloc,
        }
    }

    pub fn len(&self) -> usize
        ensures len { result ≡ length self.now.pairs }
        ensures rising { IsRising self.now.pairs }
    {
        self.chain.len()
    }

    /// The least local number.
    pub fn first(&self) -> Option<u32>
        ensures { result ≡ least_of self.now.pairs }
    {
        let pair = self.pairs_from(0).next()?;
        Some(pair.local)
    }

    /// The pairs of this local number and above, rising.
    pub fn pairs_from(&self, local: u32) -> PairsFrom<'_>
        ensures pairs { result ≡ from_on local self.now.pairs }
        ensures rising { IsRising self.now.pairs }
        ensures fits { AllBelow (2 ^ 32) self.now.pairs }
    {
        PairsFrom {
            walk: self.chain.from(local),
        }
    }

    /// The pairs of local numbers below this one, falling.
    fn pairs_before(&self, local: u32) -> PairsBefore<'_>
        ensures { result ≡ reverse (below local self.now.pairs) }
    {
        PairsBefore {
            walk: self.chain.before(local),
        }
    }

    /// The first pairs of this local number and above, rising, `count` at most.
    fn first_pairs(&self, local: u32, count: usize) -> Result<Vec<LocalText>, Memory>
        ensures pairs { IfOk result
            (λ taken. taken.items ≡ take count (from_on local self.now.pairs)) }
        ensures rising { IsRising self.now.pairs }
    {
        let mut taken = Vec::with_capacity(self.alloc, count.min(self.len()))?;
        taken.extend(self.pairs_from(local).take(count))?;
        Ok(taken)
    }

    /// The last pairs of local numbers below this one, falling, `count` at most.
    fn last_pairs(&self, local: u32, count: usize) -> Result<Vec<LocalText>, Memory>
        ensures { IfOk result
            (λ taken. taken.items ≡ take count (reverse (below local self.now.pairs))) }
    {
        let mut taken = Vec::with_capacity(self.alloc, count.min(self.len()))?;
        taken.extend(self.pairs_before(local).take(count))?;
        Ok(taken)
    }

    /// Adds a text after the others.
    pub fn append(&mut self, local: u32, text: u32) -> Result<(), Memory>
        requires above { AllBelow local self.old.pairs }
        ensures ok { OnOk result
            (self.new.pairs ≡ self.old.pairs ++ record { local = local; text = text } ∷ []) }
        ensures err { OnErr result (self.new.pairs ≡ self.old.pairs) }
        ensures succeeds { 0 < self.old.spare → IsOk result }
        ensures spare { self.old.spare ≤ self.new.spare + 1 }
    {
        self.chain.append(local, text).map_err(|_error| Memory)
    }

    /// Takes a local number out, and gives its text.
    pub fn remove(&mut self, local: u32) -> Option<u32>
        ensures text { result ≡ text_of local self.old.pairs }
        ensures pairs { self.new.pairs ≡ without local self.old.pairs }
        ensures spare { self.old.spare ≤ self.new.spare }
    {
        self.chain.remove(local)
    }

    /// Makes room for so many more texts.
    pub fn reserve(&mut self, additional: usize) -> Result<(), Memory>
        ensures pairs { self.new.pairs ≡ self.old.pairs }
        ensures ok { OnOk result (additional ≤ self.new.spare) }
        ensures succeeds { additional ≤ self.old.spare → IsOk result }
        ensures spare { self.old.spare ≤ self.new.spare }
    {
        self.chain.reserve(additional).map_err(|_error| Memory)
    }

    /// The first `count` texts from the local number `first` on. `next` is the next local number
    /// that will be drawn. (Protocol A, "local-to-global" and "map-created-texts".)
    pub fn up(&self, next: u32, first: u32, count: u32) -> Result<Mapping, Memory>
        ensures { IfOk result
            (λ mapping. mapping ≡ mapping_up self.now.pairs next first count) }
    {
        let count = count as usize;
        let mut taken = self.first_pairs(first, count + 1)?;
        let later = taken.len() > count;
        taken.truncate(count);
        upward(self.alloc, taken, later, next, first)
    }

    /// The last `count` texts below a ceiling, or of all where it is 0. `next` is the next local
    /// number that will be drawn. (Protocol A, "local-to-global-reverse".)
    pub fn down(&self, next: u32, ceiling: u32, count: u32) -> Result<Mapping, Memory>
        ensures { IfOk result
            (λ mapping. mapping ≡ mapping_down self.now.pairs next ceiling count) }
    {
        let count = count as usize;
        let end = end_below(next, ceiling);
        let mut taken = self.last_pairs(end, count + 1)?;
        let later = taken.len() > count;
        taken.truncate(count);
        taken.reverse();
        downward(self.alloc, taken, later, end)
    }
}

/// Where a part downwards ends: at the ceiling, or at the next number where that is lower or no
/// ceiling is named.
fn end_below(next: u32, ceiling: u32) -> u32
    ensures { result ≡ end_below next ceiling }
{
    if ceiling == 0 || next < ceiling {
        next
    } else {
        ceiling
    }
}
