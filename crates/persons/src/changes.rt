//! What changes a person's row in its place.
ghost use Rattle.std.specs.Prelude.{◌≡◌};
ghost use Rattle.kom_types.specs.tables.Persons.{raise_by};

use crate::keyed::ByNumber;
use kom_types::{Bytes, Counter, Moment, PersonField, PersonRow};
use row_table::Change;

/// One field is set.
#[derive(Drop)]
pub(crate) struct SetField(pub(crate) PersonField);

impl Change<ByNumber> for SetField {
    ghost use Rattle.kom_types.specs.tables.Persons.{with_field};
    ghost use Rattle.persons.specs.Numbers.{number-with_field};

    ghost changed = { λ set. with_field set.0 };

    ghost keeps_number = { λ set. number-with_field set.0 };

    fn change(self, row: &mut PersonRow) {
        match self.0 {
            PersonField::Privileges(privileges) => row.privileges = privileges,
            PersonField::Flags(flags) => row.flags = flags,
            PersonField::UserArea(text) => row.user_area = text,
        }
    }
}

/// One counter rises.
#[derive(Drop)]
pub(crate) struct Rise {
    pub(crate) counter: Counter,
    pub(crate) by: u64,
}

impl Change<ByNumber> for Rise {
    ghost use Rattle.kom_types.specs.tables.Persons.{count_up};
    ghost use Rattle.persons.specs.Numbers.{number-counted};

    ghost changed = { λ rise. count_up rise.counter rise.by };

    ghost keeps_number = { λ rise. number-counted rise.counter rise.by };

    fn change(self, row: &mut PersonRow) {
        let by = self.by;
        match self.counter {
            Counter::TimePresent => row.time_present = raised(by, row.time_present),
            Counter::CreatedLines => row.created_lines = raised(by, row.created_lines),
            Counter::CreatedBytes => row.created_bytes = raised(by, row.created_bytes),
            Counter::ReadTexts => row.read_texts = raised(by, row.read_texts),
            Counter::TextFetches => row.text_fetches = raised(by, row.text_fetches),
            Counter::CreatedPersons => row.created_persons = raised(by, row.created_persons),
            Counter::CreatedConferences => {
                row.created_conferences = raised(by, row.created_conferences);
            }
        }
    }
}

/// The person logs in.
#[derive(Drop)]
pub(crate) struct LogIn {
    pub(crate) at: Moment,
    pub(crate) user: Bytes,
}

impl Change<ByNumber> for LogIn {
    ghost use Rattle.std.specs.Prelude.{refl};
    ghost use Rattle.kom_types.specs.tables.Persons.{logged_in};

    ghost changed = { λ login. logged_in login.at login.user };

    ghost keeps_number = { λ login row. refl };

    fn change(self, row: &mut PersonRow) {
        row.last_login = self.at;
        row.user = self.user;
        row.sessions = raised(1, row.sessions);
    }
}

/// The person has another password.
#[derive(Drop)]
pub(crate) struct SetHash(pub(crate) [u8; 32]);

impl Change<ByNumber> for SetHash {
    ghost use Rattle.std.specs.Prelude.{refl};
    ghost use Rattle.kom_types.specs.tables.Persons.{with_hash};

    ghost changed = { λ set. with_hash set.0 };

    ghost keeps_number = { λ set row. refl };

    fn change(self, row: &mut PersonRow) {
        let hash = self.0;
        row.hash = hash;
    }
}

/// A count that rises, and stops at the end of its type.
fn raised(by: u64, count: u32) -> u32
    ensures { result ≡ raise_by by count }
{
    count.saturating_add(by.min(u64::from(u32::MAX)) as u32)
}

/// The next text that the person makes gets this number among its texts.
#[derive(Drop)]
pub(crate) struct SetNextCreated(pub(crate) u32);

impl Change<ByNumber> for SetNextCreated {
    ghost use Rattle.std.specs.Prelude.{refl};
    ghost use Rattle.persons.specs.Numbers.{with_next_created};

    ghost changed = { λ set. with_next_created set.0 };

    ghost keeps_number = { λ set row. refl };

    fn change(self, row: &mut PersonRow) {
        row.next_created = self.0;
    }
}

/// So many sessions of the person were counted.
#[derive(Drop)]
pub(crate) struct SetSessions(pub(crate) u32);

impl Change<ByNumber> for SetSessions {
    ghost use Rattle.std.specs.Prelude.{refl};
    ghost use Rattle.persons.specs.Numbers.{with_sessions};

    ghost changed = { λ set. with_sessions set.0 };

    ghost keeps_number = { λ set row. refl };

    fn change(self, row: &mut PersonRow) {
        row.sessions = self.0;
    }
}
