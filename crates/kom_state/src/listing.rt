//! All rows of a table, one after the other.
ghost use Rattle.std.specs.Prelude.{◌≡◌, map, IfOk};
ghost use Rattle.kom_types.specs.tables.Conferences.{number_of_conference};
ghost use Rattle.kom_types.specs.tables.Memberships.{placed_of};
ghost use Rattle.kom_types.specs.tables.Persons.{number_of_person};
ghost use Rattle.kom_types.specs.tables.Texts.{number_of_text};

use crate::stored_rows::StoredRows;
use kom_types::{ItemRow, MarkRow, Memory, Placed, Recipient, TextLink};
use row_slots::SlotWalk;

impl StoredRows {
    /// The numbers of the conferences, rising. The list has four bytes for each.
    pub fn conference_numbers(&self) -> Result<Vec<u32>, Memory>
        ensures { IfOk result (λ numbers. numbers.items
            ≡ map number_of_conference self.now.db.conferences) }
    {
        self.conferences.numbers()
    }

    /// The numbers of the persons, rising. The list has four bytes for each.
    pub fn person_numbers(&self) -> Result<Vec<u32>, Memory>
        ensures { IfOk result (λ numbers. numbers.items
            ≡ map number_of_person self.now.db.persons) }
    {
        self.persons.numbers()
    }

    /// The numbers of the texts, rising. The list has four bytes for each.
    pub fn text_numbers(&self) -> Result<Vec<u32>, Memory>
        ensures { IfOk result (λ numbers. numbers.items ≡ map number_of_text self.now.db.texts) }
    {
        self.texts.text_numbers()
    }

    /// The person, the conference and the position of each membership, in the order of joining. The
    /// list has 12 bytes for each, and as many are taken beside it, or 16 before it.
    pub fn placed_memberships(&self) -> Result<Vec<Placed>, Memory>
        ensures { IfOk result
            (λ placed. placed.items ≡ map placed_of self.now.db.memberships) }
    {
        self.memberships.placed_keys()
    }

    /// All recipients, in the order of adding.
    pub fn all_recipients(&self) -> SlotWalk<'_, Recipient>
        ensures { result ≡ self.now.db.recipients }
    {
        self.texts.all_recipients()
    }

    /// All links, in the order of adding.
    pub fn all_links(&self) -> SlotWalk<'_, TextLink>
        ensures { result ≡ self.now.db.links }
    {
        self.texts.all_links()
    }

    /// All marks, in the order of setting.
    pub fn all_marks(&self) -> SlotWalk<'_, MarkRow>
        ensures { result ≡ self.now.db.marks }
    {
        self.texts.all_marks()
    }

    /// All aux-items, in the order of adding.
    pub fn all_items(&self) -> SlotWalk<'_, ItemRow>
        ensures { result ≡ self.now.db.items }
    {
        self.items.rows()
    }
}
