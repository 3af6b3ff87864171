ghost use Rattle.std.specs.Prelude.{◌≡◌, ℕ, ◌+◌, ◌/◌, ◌≤◌, ◌<◌, [], ◌∷◌, ◌++◌, ◌↔◌};
ghost use Rattle.std.specs.Prelude.{nat_eq, option_copied, vec_len, OnOk, IsOk, IsTrue};
ghost use Rattle.std.specs.Bool.{OnTrue};
ghost use Rattle.std.specs.Set.{remove_key, is_member};
ghost use Rattle.row_slots.specs.DenseLists.{dense_list, dense_room, near_list, IsNear};
ghost use Rattle.row_slots.specs.DenseLists.{HasNoneFar, HasNoPage, HasOnlyDenseChanged};

use crate::lists::Lists;
use crate::page::{PAGE, Page, grow_at, is_used, push_at, remove_at, unused_page};
use smallvec::SmallVec;
use std::alloc::{AllocError, Global};

/// A list of numbers for each key: for keys that are numbered one after the other.
///
/// The lists of near keys stand in pages, which are found by the key; a page all of whose lists are
/// empty takes no memory once a sweep has seen it. A key is far that is more than four times as
/// high as there were keys before it, and a thousand; from the first far key on all that are in no
/// page are far. Far ones are hashed, so the memory grows with the keys that are used, however high
/// they are. A list of up to four numbers takes no further memory of its own.
pub struct DenseLists {
    near: Vec<Page>,
    /// How often a near key was in a higher page than all before it.
    grown: usize,
    /// The page at which the next sweep goes on.
    hand: usize,
    far: Lists,
}

// A call of its own, so that whoever lets the lists go has one step to prove and not one for each
// part.
impl Drop for DenseLists {
    fn drop(self) {
        let DenseLists {
            near,
            grown,
            hand,
            far,
        } = self;
        drop((near, grown, hand, far));
    }
}

impl DenseLists {
    /// An empty list for each key. It takes no memory yet.
    pub fn new(alloc: Global) -> DenseLists
        ensures { (key : ℕ) → dense_list result key ≡ [] }
    {
        DenseLists {
            near: Vec::new(alloc),
            grown: 0,
            hand: 0,
            far: Lists::new(alloc),
        }
    }

    /// The list of a near key.
    fn near_list(&self, key: u32) -> Option<&SmallVec<u32, 4>>
        ensures { option_copied result ≡ near_list self.now.near.items key }
    {
        let page = self.near.get(key as usize / PAGE)?;
        page.get(key as usize % PAGE)
    }

    /// The list of a key.
    pub fn list(&self, key: u32) -> &[u32]
        ensures { result.now ≡ dense_list self.now key }
    {
        match self.near_list(key) {
            Some(list) => list.as_slice(),
            None => self.far.list(key),
        }
    }

    /// How many more numbers fit into the list of a key without memory.
    fn room(&self, key: u32) -> usize
        ensures { result ≡ dense_room self.now key }
    {
        match self.near_list(key) {
            Some(list) => list.capacity() - list.len(),
            None => self.far.room(key),
        }
    }

    /// Makes room for so many more numbers in the list of a key.
    pub fn reserve(&mut self, key: u32, additional: usize) -> Result<(), AllocError>
        ensures lists { (other : ℕ) → dense_list self.new other ≡ dense_list self.old other }
        ensures ok { OnOk result (additional ≤ dense_room self.new key) }
        ensures room { (other : ℕ) → dense_room self.old other ≤ dense_room self.new other }
        ensures succeeds { additional ≤ dense_room self.old key → IsOk result }
    {
        if additional <= self.room(key) {
            return Ok(());
        }
        if self.is_near(key) {
            return self.grow(key, additional);
        }
        if !self.may_extend(key) {
            return self.far.reserve(key, additional);
        }
        self.extend(key as usize / PAGE)?;
        self.fill(key)?;
        self.grow(key, additional)
    }

    /// Whether the list of a key stands among the near ones.
    fn is_near(&self, key: u32) -> bool
        ensures { IsTrue result ↔ IsNear self.now key }
    {
        self.near_list(key).is_some()
    }

    /// Whether the pages may go as far as that of this key: none is far, it is not too high, and
    /// its page has no lists.
    fn may_extend(&self, key: u32) -> bool
        ensures far { OnTrue result (HasNoneFar self.now) }
        ensures page { OnTrue result (HasNoPage self.now (key / 64)) }
    {
        let limit = self.grown.saturating_mul(4 * PAGE).saturating_add(1_000);
        self.far.is_empty() && (key as usize) < limit && self.has_no_page(key as usize / PAGE)
    }

    /// Whether a page has no lists.
    fn has_no_page(&self, place: usize) -> bool
        ensures { OnTrue result (HasNoPage self.now place) }
    {
        match self.near.get(place) {
            Some(page) => page.is_empty(),
            None => true,
        }
    }

    /// Has as many pages as reach this one, even if they have no lists.
    fn extend(&mut self, place: usize) -> Result<(), AllocError>
        requires { place ≤ 67108864 }
        ensures near { (key : ℕ) → near_list self.new.near.items key
            ≡ near_list self.old.near.items key }
        ensures far { self.new.far ≡ self.old.far }
        ensures page { HasNoPage self.old place → HasNoPage self.new place }
        ensures ok { OnOk result (place < vec_len self.new.near) }
    {
        let kept = self.near.len();
        if place < kept {
            return Ok(());
        }
        let alloc = *self.near.allocator();
        self.near.reserve(place + 1 - kept)?;
        for _ in kept..place + 1 {
            self.near.push(Vec::new(alloc))?;
        }
        self.grown = self.grown.saturating_add(1);
        Ok(())
    }

    /// Keeps lists for the keys of a page that has none.
    fn fill(&mut self, key: u32) -> Result<(), AllocError>
        requires none { HasNoneFar self.old }
        requires page { HasNoPage self.old (key / 64) }
        requires within { key / 64 < vec_len self.old.near }
        ensures lists { (other : ℕ) → dense_list self.new other ≡ dense_list self.old other }
        ensures room { (other : ℕ) → dense_room self.old other ≤ dense_room self.new other }
        ensures ok { OnOk result (IsNear self.new key) }
    {
        let alloc = *self.near.allocator();
        self.near[key as usize / PAGE] = unused_page(alloc)?;
        Ok(())
    }

    /// Makes room in a near list.
    fn grow(&mut self, key: u32, additional: usize) -> Result<(), AllocError>
        requires { IsNear self.old key }
        ensures lists { (other : ℕ) → dense_list self.new other ≡ dense_list self.old other }
        ensures ok { OnOk result (additional ≤ dense_room self.new key) }
        ensures room { (other : ℕ) → dense_room self.old other ≤ dense_room self.new other }
    {
        let page = &mut self.near[key as usize / PAGE];
        grow_at(page, key as usize % PAGE, additional)
    }

    /// Puts a number at the end of the list of a key. Takes no memory.
    pub fn push(&mut self, key: u32, number: u32)
        requires { 0 < dense_room self.old key }
        ensures list { dense_list self.new key ≡ dense_list self.old key ++ number ∷ [] }
        ensures room { dense_room self.old key ≤ dense_room self.new key + 1 }
        ensures others { HasOnlyDenseChanged self.old self.new key }
    {
        if self.is_near(key) {
            self.push_near(key, number);
        } else {
            self.far.push(key, number);
        }
    }

    /// Puts a number at the end of a near list. Takes no memory.
    fn push_near(&mut self, key: u32, number: u32)
        requires near { IsNear self.old key }
        requires room { 0 < dense_room self.old key }
        ensures list { dense_list self.new key ≡ dense_list self.old key ++ number ∷ [] }
        ensures room { dense_room self.old key ≤ dense_room self.new key + 1 }
        ensures others { HasOnlyDenseChanged self.old self.new key }
    {
        let page = &mut self.near[key as usize / PAGE];
        push_at(page, key as usize % PAGE, number);
    }

    /// Takes a number out of the list of a key that has it.
    pub fn remove(&mut self, key: u32, number: u32)
        requires { IsTrue (is_member nat_eq (dense_list self.old key) number) }
        ensures list { dense_list self.new key
            ≡ remove_key (nat_eq number) (dense_list self.old key) }
        ensures room { dense_room self.new key ≡ dense_room self.old key + 1 }
        ensures others { HasOnlyDenseChanged self.old self.new key }
    {
        if self.is_near(key) {
            self.remove_near(key, number);
        } else {
            self.far.remove(key, number);
        }
    }

    /// Takes a number out of a near list that has it.
    fn remove_near(&mut self, key: u32, number: u32)
        requires near { IsNear self.old key }
        requires member { IsTrue (is_member nat_eq (dense_list self.old key) number) }
        ensures list { dense_list self.new key
            ≡ remove_key (nat_eq number) (dense_list self.old key) }
        ensures room { dense_room self.new key ≡ dense_room self.old key + 1 }
        ensures others { HasOnlyDenseChanged self.old self.new key }
    {
        let page = &mut self.near[key as usize / PAGE];
        remove_at(page, key as usize % PAGE, number);
    }

    /// Looks at the next page, and lets go of it if each of its lists is empty, and at so many far
    /// keys. Room that lists have may go.
    pub fn sweep(&mut self, steps: usize)
        ensures { (key : ℕ) → dense_list self.new key ≡ dense_list self.old key }
    {
        self.far.sweep(steps);
        if self.hand >= self.near.len() {
            self.hand = 0;
            return;
        }
        if self.far.is_empty() {
            self.sweep_page();
        }
        self.hand = self.hand.saturating_add(1);
    }

    /// Lets go of the page that is next if each of its lists is empty.
    fn sweep_page(&mut self)
        requires far { HasNoneFar self.old }
        requires within { self.old.hand < vec_len self.old.near }
        ensures { (key : ℕ) → dense_list self.new key ≡ dense_list self.old key }
    {
        if !is_used(&self.near[self.hand]) {
            self.near[self.hand] = Vec::new(*self.near.allocator());
        }
    }
}
