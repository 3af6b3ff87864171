ghost use Rattle.std.specs.Prelude.{◌≡◌, ◌<◌, ◌≤◌, ◌+◌, ◌-◌, ◌++◌, ◌∷◌, [], length, Some};
ghost use Rattle.std.specs.Prelude.{slice_get, option_copied, IsOk, OnOk, OnErr, IfOk};
ghost use Rattle.std.specs.Option.{option_flatten};
ghost use Rattle.row_slots.specs.Slots.{empty_slot, replace_row, rows_in};

use crate::block::{BLOCK, Block, row_at, set_at, take_at};
use crate::walk::SlotWalk;
use std::alloc::{AllocError, Global};
use std::marker::Model;
use std::mem;

/// Rows in the order of adding. The slot of a row that was taken away stays empty.
///
/// All but `reserve`, `settle`, and a `push` that takes memory, are done in constant time. The
/// slots stand in blocks, each of which takes no memory once all of it is empty, and those that
/// were added last by themselves.
pub struct Slots<R> {
    settled: Vec<Block<R>>,
    last: Vec<Option<R>>,
}

// A call of its own, so that whoever lets the rows go has one step to prove and not one for each
// part.
impl<R: Drop> Drop for Slots<R> {
    fn drop(self) {
        let Slots { settled, last } = self;
        drop((settled, last));
    }
}

impl<R> Model for Slots<R> {
    ghost use Rattle.std.specs.Prelude.{◌+◌, ◌*◌, ◌-◌, ◌≤◌, min, vec_len, vec_capacity};
    ghost use Rattle.std.specs.List.{AllByRecursion};
    ghost use Rattle.row_slots.specs.Slots.{Slotted, IsBlock, slots_of};

    ghost Value = { Slotted R };

    ghost view = { λ a. record {
      slots = slots_of a.settled.items a.last.items;
      spare = min (vec_capacity a.last - vec_len a.last)
          (4294967295 - (64 * vec_len a.settled + vec_len a.last));
    } };

    ghost invariant = { λ a. AllByRecursion IsBlock a.settled.items
        × (64 * vec_len a.settled + vec_len a.last ≤ 4294967295) };
}

impl<R: Drop> Slots<R> {
    /// No slots. It takes no memory yet.
    pub fn new(alloc: Global) -> Slots<R>
        ensures { result.slots ≡ [] }
    {
        Slots {
            settled: Vec::new(alloc),
            last: Vec::new(alloc),
        }
    }

    /// The row in a slot, if one is there.
    pub fn get(&self, place: u32) -> Option<&R>
        ensures { option_copied result ≡ option_flatten (slice_get self.now.slots place) }
    {
        let place = place as usize;
        match self.settled.get(place / BLOCK) {
            Some(block) => block.get(place % BLOCK),
            None => row_at(&self.last, place - BLOCK * self.settled.len()),
        }
    }

    /// Adds a row in a slot of its own, whose place is returned. There are fewer than 2^32 slots.
    pub fn push(&mut self, row: R) -> Result<u32, AllocError>
        ensures place { IfOk result (λ place. place ≡ length self.old.slots) }
        ensures ok { OnOk result (self.new.slots ≡ self.old.slots ++ Some row ∷ []) }
        ensures err { OnErr result (self.new ≡ self.old) }
        ensures succeeds { 0 < self.old.spare → IsOk result }
        ensures spare { self.old.spare ≤ self.new.spare + 1 }
    {
        let place = next_place(self.count())?;
        self.last.reserve(1)?;
        self.last.push(Some(row))?;
        Ok(place)
    }

    /// How many slots there are.
    pub(crate) fn count(&self) -> usize
        ensures count { result ≡ length self.now.slots }
        ensures fits { result ≤ 4294967295 }
        ensures spare { self.now.spare ≤ 4294967295 - result }
    {
        BLOCK * self.settled.len() + self.last.len()
    }

    /// The rows, in the order of adding.
    pub fn rows(&self) -> SlotWalk<'_, R>
        ensures { result ≡ rows_in self.now.slots }
    {
        SlotWalk {
            slots: self,
            place: 0,
        }
    }

    /// Takes the row out of a slot, if one is there.
    pub fn take(&mut self, place: u32) -> Option<R>
        ensures row { result ≡ option_flatten (slice_get self.old.slots place) }
        ensures slots { self.new.slots ≡ empty_slot place self.old.slots }
        ensures spare { self.old.spare ≤ self.new.spare }
    {
        let place = place as usize;
        match self.settled.get_mut(place / BLOCK) {
            Some(block) => block.take(place % BLOCK),
            None => {
                let place = place - BLOCK * self.settled.len();
                take_at(&mut self.last, place)
            }
        }
    }

    /// Puts a row in place of the one in a slot, if one is there.
    pub fn set(&mut self, place: u32, row: R)
        ensures slots { self.new.slots ≡ replace_row place row self.old.slots }
        ensures spare { self.old.spare ≤ self.new.spare }
    {
        let place = place as usize;
        match self.settled.get_mut(place / BLOCK) {
            Some(block) => block.set(place % BLOCK, row),
            None => {
                let place = place - BLOCK * self.settled.len();
                set_at(&mut self.last, place, row);
            }
        }
    }

    /// Makes room for so many more rows.
    pub fn reserve(&mut self, additional: usize) -> Result<(), AllocError>
        ensures slots { self.new.slots ≡ self.old.slots }
        ensures ok { OnOk result (additional ≤ self.new.spare) }
        ensures err { OnErr result (self.old.spare < additional) }
        ensures spare { self.old.spare ≤ self.new.spare }
    {
        if additional > u32::MAX as usize - self.count() {
            return Err(AllocError);
        }
        self.last.reserve(additional)
    }

    /// Puts the oldest of the slots that stand by themselves into a block, once they fill one. The
    /// room for more rows may go. Without memory for it nothing is done.
    pub fn settle(&mut self)
        ensures { self.new.slots ≡ self.old.slots }
    {
        if self.last.len() < BLOCK || self.settled.reserve(1).is_err() {
            return;
        }
        let Ok(rest) = self.last.split_off(BLOCK) else {
            return;
        };
        let mut slots = mem::replace(&mut self.last, rest);
        slots.shrink_to_fit();
        self.settled.push(Block::of(slots)).unwrap();
    }
}

/// The place of the slot after so many, if so many slots may be had.
fn next_place(slots: usize) -> Result<u32, AllocError>
    ensures value { IfOk result (λ place. place ≡ slots) }
    ensures ok { OnOk result (slots < 4294967295) }
    ensures err { OnErr result (4294967295 ≤ slots) }
{
    if slots < u32::MAX as usize {
        Ok(slots as u32)
    } else {
        Err(AllocError)
    }
}
