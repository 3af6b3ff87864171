ghost use Rattle.std.specs.Prelude.{◌≡◌, ℕ, ◌+◌, ◌≤◌, ◌<◌, [], ◌∷◌, ◌++◌, ◌↔◌};
ghost use Rattle.std.specs.Prelude.{nat_eq, insert, position, OnOk, IsOk, IsTrue};
ghost use Rattle.std.specs.Set.{remove_key, is_member};
ghost use Rattle.row_slots.specs.Lists.{list_of, room_of, HasOnlyChanged};

use indexmap::IndexMap;
use smallvec::SmallVec;
use std::alloc::{AllocError, Global};

/// A list of numbers for each key: empty where the key was never used.
///
/// A list of up to four numbers takes no memory of its own.
pub struct Lists {
    map: IndexMap<u32, SmallVec<u32, 4>>,
    /// The place in the map at which the next sweep goes on.
    hand: usize,
}

// A call of its own, so that whoever lets the lists go has one step to prove and not one for each
// part.
impl Drop for Lists {
    fn drop(self) {
        let Lists { map, hand: _ } = self;
        drop(map);
    }
}

impl Lists {
    /// An empty list for each key. It takes no memory.
    pub fn new(alloc: Global) -> Lists
        ensures { (key : ℕ) → list_of result key ≡ [] }
    {
        Lists {
            map: IndexMap::new(alloc),
            hand: 0,
        }
    }

    /// Whether no key was used.
    pub(crate) fn is_empty(&self) -> bool
        ensures { IsTrue result ↔ (self.now.map.entries ≡ []) }
    {
        self.map.is_empty()
    }

    /// The list of a key.
    pub fn list(&self, key: u32) -> &[u32]
        ensures { result.now ≡ list_of self.now key }
    {
        match self.map.get(&key) {
            Some(list) => list.as_slice(),
            None => &[],
        }
    }

    /// The place of a number in the list of a key. The time grows with the list.
    pub fn position_of(&self, key: u32, number: u32) -> Option<usize>
        ensures { result ≡ position (nat_eq number) (list_of self.now key) }
    {
        self.list(key).iter().position(|other| number == *other)
    }

    /// How many more numbers fit into the list of a key without memory.
    pub(crate) fn room(&self, key: u32) -> usize
        ensures { result ≡ room_of self.now key }
    {
        match self.map.get(&key) {
            Some(list) => list.capacity() - list.len(),
            None => 0,
        }
    }

    /// Makes room for so many more numbers in the list of a key.
    pub fn reserve(&mut self, key: u32, additional: usize) -> Result<(), AllocError>
        ensures lists { (other : ℕ) → list_of self.new other ≡ list_of self.old other }
        ensures ok { OnOk result (additional ≤ room_of self.new key) }
        ensures room { (other : ℕ) → room_of self.old other ≤ room_of self.new other }
        ensures succeeds { additional ≤ room_of self.old key → IsOk result }
    {
        if additional == 0 {
            return Ok(());
        }
        let alloc = *self.map.allocator();
        let list = self.map.entry(key)?.or_insert(SmallVec::new(alloc));
        list.reserve(additional)
    }

    /// Puts a number into the list of a key at a place, or at the end where the place is beyond it.
    /// Takes no memory.
    pub fn insert(&mut self, key: u32, place: usize, number: u32)
        requires { 0 < room_of self.old key }
        ensures list { list_of self.new key ≡ insert (list_of self.old key) place number }
        ensures room { room_of self.new key + 1 ≡ room_of self.old key }
        ensures others { HasOnlyChanged self.old self.new key }
    {
        let list = self.map.get_mut(&key).unwrap();
        let place = place.min(list.len());
        list.insert(place, number).unwrap();
    }

    /// Puts a number at the end of the list of a key. Takes no memory.
    pub fn push(&mut self, key: u32, number: u32)
        requires { 0 < room_of self.old key }
        ensures list { list_of self.new key ≡ list_of self.old key ++ number ∷ [] }
        ensures room { room_of self.old key ≤ room_of self.new key + 1 }
        ensures others { HasOnlyChanged self.old self.new key }
    {
        let list = self.map.get_mut(&key).unwrap();
        list.push(number).unwrap();
    }

    /// Takes a number out of the list of a key that has it.
    pub fn remove(&mut self, key: u32, number: u32)
        requires { IsTrue (is_member nat_eq (list_of self.old key) number) }
        ensures list { list_of self.new key ≡ remove_key (nat_eq number) (list_of self.old key) }
        ensures room { room_of self.new key ≡ room_of self.old key + 1 }
        ensures others { HasOnlyChanged self.old self.new key }
    {
        let place = self.position_of(key, number).unwrap();
        let list = self.map.get_mut(&key).unwrap();
        prove!(list.len() <= list.capacity());
        list.remove(place);
    }

    /// Looks at so many keys, from where the last sweep ended, and forgets those whose list is
    /// empty, with the room that it has. As many sweeps as there are keys look at each.
    pub fn sweep(&mut self, steps: usize)
        ensures { (key : ℕ) → list_of self.new key ≡ list_of self.old key }
    {
        for _ in 0..steps {
            self.sweep_next();
        }
    }

    /// Looks at the next key, or begins again.
    fn sweep_next(&mut self)
        ensures { (key : ℕ) → list_of self.new key ≡ list_of self.old key }
    {
        let Some((key, _)) = self.map.get_index(self.hand) else {
            self.hand = 0;
            return;
        };
        let key = *key;
        if self.list(key).is_empty() {
            self.map.swap_remove(&key);
        } else {
            self.hand = self.hand.saturating_add(1);
        }
    }
}
