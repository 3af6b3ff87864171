ghost use Rattle.std.specs.Prelude.{◌≡◌, [], ◌∷◌, ◌++◌, None, length, find, slice_get, is_some};
ghost use Rattle.std.specs.Prelude.{filter, option_copied, IsOk, OnOk};
ghost use Rattle.kom_types.specs.tables.AuxItems.{is_item_of, items_of, without_item};
ghost use Rattle.aux_items.specs.Items.{item_numbered, HasRoom, KeepsRoom, UsesRoom};
ghost use Rattle.aux_items.specs.Keeping.{is_number_at};

use crate::objects::ObjectLists;
use crate::of_object::ItemsOf;
use kom_types::{AuxRow, ItemRow, Memory};
use row_slots::{SlotWalk, Slots};
use std::alloc::Global;
use std::marker::Model;

/// The aux-items of texts and conferences, in the order of adding.
pub struct Items {
    rows: Slots<ItemRow>,
    /// The places of the items of each text and each conference.
    of_objects: ObjectLists,
}

// A call of its own, so that whoever lets the items go has one step to prove and not one for each
// part.
impl Drop for Items {
    fn drop(self) {
        let Items { rows, of_objects } = self;
        drop((rows, of_objects));
    }
}

impl Model for Items {
    ghost use Rattle.std.specs.Prelude.{true, false};
    ghost use Rattle.row_slots.specs.Slots.{rows_in};
    ghost use Rattle.aux_items.specs.Items.{Attached};
    ghost use Rattle.aux_items.specs.Keeping.{IsKept};
    ghost use Rattle.aux_items.specs.Objects.{list_at, rooms_at};

    ghost Value = { Attached };

    ghost view = { λ a. record {
      rows = rows_in a.rows.slots;
      spare = a.rows.spare;
      texts = rooms_at a.of_objects true;
      conferences = rooms_at a.of_objects false;
    } };

    ghost invariant = { λ a. IsKept a.rows.slots (list_at a.of_objects) };
}

impl Items {
    /// No items. Takes no memory.
    pub fn new(alloc: Global) -> Items
        ensures { result.rows ≡ [] }
    {
        Items {
            rows: Slots::new(alloc),
            of_objects: ObjectLists::new(alloc),
        }
    }

    /// The items of all texts and conferences, in the order of adding.
    pub fn rows(&self) -> SlotWalk<'_, ItemRow>
        ensures { result ≡ self.now.rows }
    {
        self.rows.rows()
    }

    /// How many items a text, or a conference, has, in constant time.
    pub fn count_of(&self, on_text: bool, object: u32) -> usize
        ensures { result ≡ length (items_of on_text object self.now.rows) }
    {
        self.of_objects.list(on_text, object).len()
    }

    /// The item at a place among those of a text, or a conference, in the order of adding, in
    /// constant time.
    pub fn nth_of(&self, on_text: bool, object: u32, place: usize) -> Option<&AuxRow>
        ensures { option_copied result ≡ slice_get (items_of on_text object self.now.rows) place }
    {
        let row = self.nth_row(on_text, object, place)?;
        Some(&row.item)
    }

    /// The row at a place among those of a text, or a conference.
    fn nth_row(&self, on_text: bool, object: u32, place: usize) -> Option<&ItemRow>
        ensures { option_copied result
            ≡ slice_get (filter (is_item_of on_text object) self.now.rows) place }
    {
        let place = *self.of_objects.list(on_text, object).get(place)?;
        self.rows.get(place)
    }

    /// The items of a text, or a conference, in the order of adding, as a list that is not copied.
    pub fn of(&self, on_text: bool, object: u32) -> ItemsOf<'_>
        ensures { result ≡ items_of on_text object self.now.rows }
    {
        ItemsOf {
            items: self,
            on_text,
            object,
        }
    }

    /// Whether a text, or a conference, has an item of a number. The time grows with its items.
    pub fn has(&self, on_text: bool, object: u32, number: u32) -> bool
        ensures { result ≡ is_some (item_numbered on_text object number self.now.rows) }
    {
        let places = self.of_objects.list(on_text, object);
        place_of(&self.rows, places, number).is_some()
    }

    /// Adds an item after the others. Takes no memory.
    pub fn add(&mut self, row: ItemRow)
        requires absent { item_numbered row.on_text row.object row.item.number self.old.rows
            ≡ None }
        requires room { HasRoom self.old row.on_text row.object 1 }
        ensures rows { self.new.rows ≡ self.old.rows ++ row ∷ [] }
        ensures room { UsesRoom self.old self.new row.on_text row.object }
    {
        let (on_text, object) = (row.on_text, row.object);
        let place = self.rows.push(row).unwrap();
        self.of_objects.push(on_text, object, place);
    }

    /// Takes an item out, and returns whether it was there. The time grows with the items of the
    /// text, or the conference.
    pub fn remove(&mut self, on_text: bool, object: u32, number: u32) -> bool
        ensures there { result ≡ is_some (item_numbered on_text object number self.old.rows) }
        ensures rows { self.new.rows ≡ without_item on_text object number self.old.rows }
        ensures room { KeepsRoom self.old self.new }
    {
        let places = self.of_objects.list(on_text, object);
        let Some(place) = place_of(&self.rows, places, number) else {
            return false;
        };
        let _row = self.rows.take(place);
        self.of_objects.remove(on_text, object, place);
        true
    }

    /// Makes room for so many more items of a text, or a conference, in all and in its list.
    pub fn reserve(&mut self, on_text: bool, object: u32, additional: usize) -> Result<(), Memory>
        ensures rows { self.new.rows ≡ self.old.rows }
        ensures ok { OnOk result (HasRoom self.new on_text object additional) }
        ensures succeeds { HasRoom self.old on_text object additional → IsOk result }
        ensures room { KeepsRoom self.old self.new }
    {
        self.rows.reserve(additional)?;
        self.of_objects.reserve(on_text, object, additional)
    }

    /// Gives back memory of items that are gone: it looks at so many texts and as many conferences.
    /// The room for more items may go.
    pub fn sweep(&mut self, steps: usize)
        ensures { self.new.rows ≡ self.old.rows }
    {
        self.rows.settle();
        self.of_objects.sweep(steps);
    }
}

/// The place of the item of a number, among those at some places.
fn place_of(rows: &Slots<ItemRow>, places: &[u32], number: u32) -> Option<u32>
    ensures { result ≡ find (is_number_at rows.now.slots number) places.now }
{
    places.iter().copied().find(
        |place| matches!(rows.get(*place), Some(row) if row.item.number == number),
    )
}
