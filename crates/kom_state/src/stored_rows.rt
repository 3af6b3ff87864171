ghost use Rattle.std.specs.Prelude.{◌≡◌};
ghost use Rattle.kom_model.specs.Db.{empty_db};

use aux_items::Items;
use conferences::Conferences;
use memberships::Memberships;
use name_lookup::Names;
use persons::Persons;
use std::alloc::Global;
use std::marker::Model;
use texts::Texts;

/// The stored rows.
pub struct StoredRows {
    pub(crate) conferences: Conferences,
    pub(crate) persons: Persons,
    pub(crate) memberships: Memberships,
    // The names of the conferences, by which they are found.
    pub(crate) names: Names,
    pub(crate) texts: Texts,
    pub(crate) items: Items,
    pub(crate) next_conference: u32,
    pub(crate) next_text: u32,
    pub(crate) alloc: Global,
}

// A call of its own, so that whoever lets a state go has one step to prove and not one for each
// part.
impl Drop for StoredRows {
    fn drop(self) {
        let StoredRows {
            conferences,
            persons,
            memberships,
            names,
            texts,
            items,
            next_conference: _,
            next_text: _,
            alloc: _,
        } = self;
        drop((conferences, persons, memberships));
        drop((names, texts, items));
    }
}

impl Model for StoredRows {
    ghost use Rattle.kom_state.specs.Room.{Stored};
    ghost use Rattle.kom_state.specs.Keeping.{as_stored, IsKept};

    ghost Value = { Stored };

    ghost view = { λ s. as_stored s.conferences s.persons s.memberships s.names s.texts
        s.items s.next_conference s.next_text };

    ghost invariant = { λ s. IsKept (as_stored s.conferences s.persons s.memberships s.names s.texts
        s.items s.next_conference s.next_text).db s.names.names };
}

impl StoredRows {
    /// No rows. It takes no memory.
    pub fn empty(alloc: Global) -> StoredRows
        ensures { result.db ≡ empty_db }
    {
        StoredRows {
            conferences: Conferences::new(alloc),
            persons: Persons::new(alloc),
            memberships: Memberships::new(alloc),
            names: Names::new(alloc),
            texts: Texts::new(alloc),
            items: Items::new(alloc),
            next_conference: 1,
            next_text: 1,
            alloc,
        }
    }
}
