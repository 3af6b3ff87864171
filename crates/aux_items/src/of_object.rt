use crate::list::ItemList;
use crate::table::Items;
use kom_types::AuxRow;
use std::marker::Model;

/// The items of one text, or one conference, in a table. They are not copied.
#[derive(Drop)]
pub struct ItemsOf<'a> {
    pub(crate) items: &'a Items,
    pub(crate) on_text: bool,
    pub(crate) object: u32,
}

impl<'a> Model for ItemsOf<'a> {
    ghost use Rattle.std.specs.Prelude.{List};
    ghost use Rattle.kom_types.specs.declared.aux_items.AuxRow.{AuxRow};
    ghost use Rattle.kom_types.specs.tables.AuxItems.{items_of};

    ghost Value = { List AuxRow };

    ghost view = { λ a. items_of a.on_text a.object a.items.now.rows };
}

impl<'a> ItemList for ItemsOf<'a> {
    ghost items = { λ list. list };

    fn count(&self) -> usize {
        self.items.count_of(self.on_text, self.object)
    }

    fn item(&self, place: usize) -> Option<&AuxRow> {
        self.items.nth_of(self.on_text, self.object, place)
    }
}
