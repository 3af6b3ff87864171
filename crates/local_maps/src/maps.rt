ghost use Rattle.std.specs.Prelude.{◌≡◌, ℕ, ◌+◌, ◌<◌, ◌≤◌, [], ◌∷◌, ◌++◌, length, option_copied};
ghost use Rattle.std.specs.Prelude.{IfOk, IsOk, None, OnErr, OnOk};
ghost use Rattle.kom_types.specs.Mappings.{mapping_up, mapping_down};
ghost use Rattle.local_maps.specs.Pairs.{AllBelow, IsRising, text_of, without};
ghost use Rattle.local_maps.specs.Maps.{map_of, pairs_of, room_of, HasOnlyChanged};

use crate::map::LocalMap;
use indexmap::IndexMap;
use kom_types::{Mapping, Memory};
use std::alloc::Global;
use std::marker::Model;

/// The texts of several owners, conferences or authors, by their local numbers.
pub struct LocalMaps {
    maps: IndexMap<u32, LocalMap>,
    /// The place among the maps at which the next sweep goes on.
    hand: usize,
}

// A call of its own, so that whoever lets the maps go has one step to prove and not one for each
// part.
impl Drop for LocalMaps {
    fn drop(self) {
        let LocalMaps { maps, hand: _ } = self;
        drop(maps);
    }
}

impl Model for LocalMaps {
    ghost use Rattle.local_maps.specs.Maps.{Owned};

    ghost Value = { Owned };

    ghost view = { λ m. record { kept = m.maps.entries } };
}

impl LocalMaps {
    /// No texts of any owner. It takes no memory yet.
    pub fn new(alloc: Global) -> LocalMaps
        ensures pairs { (owner : ℕ) → pairs_of result owner ≡ [] }
    {
        LocalMaps {
            maps: IndexMap::new(alloc),
            hand: 0,
        }
    }

    /// The map of an owner, if one is kept.
    pub fn map_of(&self, owner: u32) -> Option<&LocalMap>
        ensures { option_copied result ≡ map_of self.now owner }
    {
        self.maps.get(&owner)
    }

    /// How many texts an owner has.
    pub fn len_of(&self, owner: u32) -> usize
        ensures len { result ≡ length (pairs_of self.now owner) }
        ensures rising { IsRising (pairs_of self.now owner) }
    {
        match self.maps.get(&owner) {
            Some(map) => map.len(),
            None => 0,
        }
    }

    /// The first `count` texts of an owner from the local number `first` on, as `LocalMap::up`.
    pub fn up(&self, owner: u32, next: u32, first: u32, count: u32) -> Result<Mapping, Memory>
        ensures { IfOk result
            (λ mapping. mapping ≡ mapping_up (pairs_of self.now owner) next first count) }
    {
        match self.maps.get(&owner) {
            Some(map) => map.up(next, first, count),
            None => LocalMap::new(self.alloc()).up(next, first, count),
        }
    }

    /// The last `count` texts of an owner below a ceiling, as `LocalMap::down`.
    pub fn down(&self, owner: u32, next: u32, ceiling: u32, count: u32) -> Result<Mapping, Memory>
        ensures { IfOk result
            (λ mapping. mapping ≡ mapping_down (pairs_of self.now owner) next ceiling count) }
    {
        match self.maps.get(&owner) {
            Some(map) => map.down(next, ceiling, count),
            None => LocalMap::new(self.alloc()).down(next, ceiling, count),
        }
    }

    /// Adds a text of an owner after the owner's others.
    pub fn append(&mut self, owner: u32, local: u32, text: u32) -> Result<(), Memory>
        requires above { AllBelow local (pairs_of self.old owner) }
        ensures ok { OnOk result (pairs_of self.new owner
            ≡ pairs_of self.old owner ++ record { local = local; text = text } ∷ []) }
        ensures err { OnErr result (pairs_of self.new owner ≡ pairs_of self.old owner) }
        ensures succeeds { 0 < room_of self.old owner → IsOk result }
        ensures room { room_of self.old owner ≤ room_of self.new owner + 1 }
        ensures others { HasOnlyChanged self.old self.new owner }
    {
        match self.maps.get_mut(&owner) {
            Some(map) => map.append(local, text),
            None => self.append_first(owner, local, text),
        }
    }

    /// Adds the first text of an owner for whom no map is kept.
    fn append_first(&mut self, owner: u32, local: u32, text: u32) -> Result<(), Memory>
        requires { map_of self.old owner ≡ None }
        ensures ok { OnOk result (pairs_of self.new owner
            ≡ record { local = local; text = text } ∷ []) }
        ensures err { OnErr result (pairs_of self.new owner ≡ pairs_of self.old owner) }
        ensures others { HasOnlyChanged self.old self.new owner }
    {
        let mut map = LocalMap::new(self.alloc());
        map.append(local, text)?;
        self.maps.insert(owner, map)?;
        Ok(())
    }

    /// Takes a local number of an owner out, and gives its text.
    pub fn remove(&mut self, owner: u32, local: u32) -> Option<u32>
        ensures text { result ≡ text_of local (pairs_of self.old owner) }
        ensures pairs { pairs_of self.new owner ≡ without local (pairs_of self.old owner) }
        ensures room { room_of self.old owner ≤ room_of self.new owner }
        ensures others { HasOnlyChanged self.old self.new owner }
    {
        match self.maps.get_mut(&owner) {
            Some(map) => map.remove(local),
            None => None,
        }
    }

    /// Makes room for so many more texts of an owner.
    pub fn reserve(&mut self, owner: u32, additional: usize) -> Result<(), Memory>
        ensures pairs { pairs_of self.new owner ≡ pairs_of self.old owner }
        ensures ok { OnOk result (additional ≤ room_of self.new owner) }
        ensures succeeds { additional ≤ room_of self.old owner → IsOk result }
        ensures room { room_of self.old owner ≤ room_of self.new owner }
        ensures others { HasOnlyChanged self.old self.new owner }
    {
        if additional == 0 {
            return Ok(());
        }
        match self.maps.get_mut(&owner) {
            Some(map) => map.reserve(additional),
            None => self.begin(owner, additional),
        }
    }

    /// Keeps a map, with room for so many texts, for an owner for whom none is kept.
    fn begin(&mut self, owner: u32, additional: usize) -> Result<(), Memory>
        requires { map_of self.old owner ≡ None }
        ensures pairs { pairs_of self.new owner ≡ pairs_of self.old owner }
        ensures ok { OnOk result (additional ≤ room_of self.new owner) }
        ensures others { HasOnlyChanged self.old self.new owner }
    {
        let mut map = LocalMap::new(self.alloc());
        map.reserve(additional)?;
        self.maps.insert(owner, map)?;
        Ok(())
    }

    /// Looks at so many owners, from where the last sweep ended, and forgets those that have no
    /// texts, with their room. As many steps as there are owners look at each.
    pub fn sweep(&mut self, steps: usize)
        ensures { (owner : ℕ) → pairs_of self.new owner ≡ pairs_of self.old owner }
    {
        for _ in 0..steps {
            self.sweep_next();
        }
    }

    /// Looks at the next owner, or begins again.
    fn sweep_next(&mut self)
        ensures { (owner : ℕ) → pairs_of self.new owner ≡ pairs_of self.old owner }
    {
        let Some((owner, _)) = self.maps.get_index(self.hand) else {
            self.hand = 0;
            return;
        };
        let owner = *owner;
        if self.len_of(owner) == 0 {
            self.maps.swap_remove(&owner);
        } else {
            self.hand = self.hand.saturating_add(1);
        }
    }

    fn alloc(&self) -> Global {
        *self.maps.allocator()
    }
}
