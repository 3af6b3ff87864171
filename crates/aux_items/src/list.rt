ghost use Rattle.std.specs.Prelude.{◌≡◌, length, slice_get, option_copied};

use kom_types::{AuxRow, AuxRows};

/// The items of an object, wherever they are kept, in the order of adding.
pub trait ItemList {
    ghost use Rattle.std.specs.Prelude.{List};
    ghost use Rattle.kom_types.specs.declared.aux_items.AuxRow.{AuxRow};

    ghost items: { Self → List AuxRow };

    /// How many items there are.
    fn count(&self) -> usize
        ensures { result ≡ length (items self.now) };

    /// The item at a place, counted from 0.
    fn item(&self, place: usize) -> Option<&AuxRow>
        ensures { option_copied result ≡ slice_get (items self.now) place };
}

impl ItemList for AuxRows {
    ghost items = { λ rows. rows };

    fn count(&self) -> usize {
        self.len()
    }

    fn item(&self, place: usize) -> Option<&AuxRow> {
        self.as_slice().get(place)
    }
}
