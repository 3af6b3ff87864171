//! Whether the effects on aux-items fit.
ghost use Rattle.std.specs.Prelude.{◌≡◌};
ghost use Rattle.kom_model.specs.Effects.{has_object, may_add_item, has_item};

use crate::stored_rows::StoredRows;
use aux_items::is_known;
use kom_types::AuxRow;
use kom_types::limits::{LAST_DRAWN, LONGEST_CONTENT, MOST_AUX_ITEMS};

impl StoredRows {
    /// Whether the text, or the conference, is there.
    fn has_object(&self, on_text: bool, object: u32) -> bool
        ensures { result ≡ has_object self.now.db on_text object }
    {
        if on_text {
            self.has_text(object)
        } else {
            self.has_conference(object)
        }
    }

    pub(crate) fn may_add_item(&self, on_text: bool, object: u32, item: &AuxRow) -> bool
        ensures { result ≡ may_add_item self.now.db on_text object item.now }
    {
        self.has_object(on_text, object)
            && self.next_item(on_text, object) <= item.number
            && item.number <= LAST_DRAWN
            && is_known(item.tag)
            && self.item_count(on_text, object) < MOST_AUX_ITEMS
            && item.content.len() <= LONGEST_CONTENT
    }

    /// Whether a text, or a conference, has an aux-item of a number. The time grows with its items.
    pub(crate) fn has_item(&self, on_text: bool, object: u32, number: u32) -> bool
        ensures { result ≡ has_item self.now.db on_text object number }
    {
        self.items.has(on_text, object, number)
    }
}
