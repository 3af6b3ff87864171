//! How the aux-items of texts and conferences are read.
ghost use Rattle.std.specs.Prelude.{◌≡◌, length, slice_get, option_copied};
ghost use Rattle.kom_model.specs.Db.{items_of, next_item_of};

use crate::stored_rows::StoredRows;
use kom_types::AuxRow;

impl StoredRows {
    /// How many aux-items a text, or a conference, has, in constant time.
    #[tactic(auto, unfolding(kom_model::specs::Db::items_of))]
    pub fn item_count(&self, on_text: bool, object: u32) -> usize
        ensures { result ≡ length (items_of self.now.db on_text object) }
    {
        self.items.count_of(on_text, object)
    }

    /// The aux-item at a place among those of a text, or a conference, in the order of adding, in
    /// constant time.
    #[tactic(auto, unfolding(kom_model::specs::Db::items_of))]
    pub fn nth_item(&self, on_text: bool, object: u32, place: usize) -> Option<&AuxRow>
        ensures { option_copied result ≡ slice_get (items_of self.now.db on_text object) place }
    {
        self.items.nth_of(on_text, object, place)
    }

    /// The number that the next aux-item of a text, or a conference, gets: 1 if that is not there.
    #[tactic(auto, unfolding(kom_model::specs::Db::next_item_of))]
    pub fn next_item(&self, on_text: bool, object: u32) -> u32
        ensures { result ≡ next_item_of self.now.db on_text object }
    {
        let next = if on_text {
            self.text(object).map(|row| row.next_item)
        } else {
            self.conference(object).map(|row| row.next_item)
        };
        next.unwrap_or(1)
    }
}
