//! What changes a text's row in its place.
use crate::keyed::ByNumber;
use kom_types::TextRow;
use row_table::Change;

/// The text has this number among those that its author made.
#[derive(Drop)]
pub(crate) struct SetCreatedLocal(pub(crate) u32);

impl Change<ByNumber> for SetCreatedLocal {
    ghost use Rattle.std.specs.Prelude.{refl};
    ghost use Rattle.kom_types.specs.tables.Texts.{with_created_local};

    ghost changed = { λ set. with_created_local set.0 };

    ghost keeps_number = { λ set row. refl };

    fn change(self, row: &mut TextRow) {
        row.created_local = self.0;
    }
}

/// The next aux-item of the text gets this number.
#[derive(Drop)]
pub(crate) struct SetNextItem(pub(crate) u32);

impl Change<ByNumber> for SetNextItem {
    ghost use Rattle.std.specs.Prelude.{refl};
    ghost use Rattle.texts.specs.Keeping.{with_next_item};

    ghost changed = { λ set. with_next_item set.0 };

    ghost keeps_number = { λ set row. refl };

    fn change(self, row: &mut TextRow) {
        row.next_item = self.0;
    }
}
