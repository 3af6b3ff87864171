ghost use Rattle.std.specs.Prelude.{◌≡◌, length, slice_get, option_copied, vec_len};
ghost use Rattle.std.specs.Prelude.{is_some, vec_capacity};
ghost use Rattle.std.specs.List.{list_any};
ghost use Rattle.std.specs.Option.{option_flatten};
ghost use Rattle.row_slots.specs.Slots.{empty_slot, replace_row};

use std::marker::Model;

/// How many slots a block has.
pub(crate) const BLOCK: usize = 64;

/// The slots of a block, which take no memory once each is empty.
pub struct Block<R> {
    /// All slots, or none where each is empty.
    slots: Vec<Option<R>>,
}

// A call of its own, so that whoever lets a block go has one step to prove.
impl<R: Drop> Drop for Block<R> {
    fn drop(self) {
        let Block { slots } = self;
        drop(slots);
    }
}

impl<R> Model for Block<R> {
    ghost use Rattle.std.specs.Prelude.{List, Option};
    ghost use Rattle.row_slots.specs.Slots.{spread, IsBlock};

    ghost Value = { List (Option R) };

    ghost view = { λ a. spread a.slots.items };

    ghost invariant = { λ a. IsBlock (spread a.slots.items) };
}

impl<R: Drop> Block<R> {
    /// The block that has these slots.
    pub(crate) fn of(slots: Vec<Option<R>>) -> Block<R>
        requires { length slots.items ≡ 64 }
        ensures { result ≡ slots.items }
    {
        Block { slots }
    }

    /// The row in a slot, if one is there.
    pub(crate) fn get(&self, place: usize) -> Option<&R>
        ensures { option_copied result ≡ option_flatten (slice_get self.now place) }
    {
        row_at(&self.slots, place)
    }

    /// Takes the row out of a slot, if one is there. The time grows with the slots of a block.
    pub(crate) fn take(&mut self, place: usize) -> Option<R>
        ensures row { result ≡ option_flatten (slice_get self.old place) }
        ensures slots { self.new ≡ empty_slot place self.old }
    {
        let row = self.take_row(place);
        self.let_go();
        row
    }

    // Takes the row out of a slot, and keeps the memory of the block.
    fn take_row(&mut self, place: usize) -> Option<R>
        ensures row { result ≡ option_flatten (slice_get self.old place) }
        ensures slots { self.new ≡ empty_slot place self.old }
    {
        take_at(&mut self.slots, place)
    }

    // Gives the memory of the block back if each slot is empty.
    fn let_go(&mut self)
        ensures { self.new ≡ self.old }
    {
        if !has_row(&self.slots) {
            self.slots = Vec::new(*self.slots.allocator());
        }
    }

    /// Puts a row in place of the one in a slot, if one is there.
    pub(crate) fn set(&mut self, place: usize, row: R)
        ensures { self.new ≡ replace_row place row self.old }
    {
        set_at(&mut self.slots, place, row);
    }
}

/// Whether a row is in some slot.
fn has_row<R>(slots: &Vec<Option<R>>) -> bool
    ensures { result ≡ list_any is_some slots.now.items }
{
    slots.iter().any(|slot| slot.is_some())
}

/// The row in a slot, if one is there.
pub(crate) fn row_at<R>(slots: &Vec<Option<R>>, place: usize) -> Option<&R>
    ensures { option_copied result ≡ option_flatten (slice_get slots.now.items place) }
{
    slots.get(place)?.as_ref()
}

/// Takes the row out of a slot, if one is there.
pub(crate) fn take_at<R: Drop>(slots: &mut Vec<Option<R>>, place: usize) -> Option<R>
    ensures row { result ≡ option_flatten (slice_get slots.old.items place) }
    ensures slots { slots.new.items ≡ empty_slot place slots.old.items }
    ensures len { vec_len slots.new ≡ vec_len slots.old }
    ensures capacity { vec_capacity slots.new ≡ vec_capacity slots.old }
{
    let slot = slots.get_mut(place)?;
    slot.take()
}

/// Puts a row in place of the one in a slot, if one is there.
pub(crate) fn set_at<R: Drop>(slots: &mut Vec<Option<R>>, place: usize, row: R)
    ensures slots { slots.new.items ≡ replace_row place row slots.old.items }
    ensures len { vec_len slots.new ≡ vec_len slots.old }
    ensures capacity { vec_capacity slots.new ≡ vec_capacity slots.old }
{
    if row_at(slots, place).is_none() {
        return;
    }
    slots[place] = Some(row);
}
