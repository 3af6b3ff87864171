//! What changes a conference's row in its place.
use crate::keyed::ByNumber;
use kom_types::{Bytes, ConfField, ConferenceRow};
use row_table::Change;

/// One field is set.
#[derive(Drop)]
pub(crate) struct SetField(pub(crate) ConfField);

impl Change<ByNumber> for SetField {
    ghost use Rattle.kom_types.specs.tables.Conferences.{with_field};
    ghost use Rattle.conferences.specs.Numbers.{number-with_field};

    ghost changed = { λ set. with_field set.0 };

    ghost keeps_number = { λ set. number-with_field set.0 };

    fn change(self, row: &mut ConferenceRow) {
        let SetField(field) = self;
        match field {
            ConfField::Presentation(text) => row.presentation = text,
            ConfField::Motd(text) => row.motd = text,
            ConfField::Supervisor(conference) => row.supervisor = conference,
            ConfField::PermittedSubmitters(conference) => row.submitters = conference,
            ConfField::SuperConference(conference) => row.super_conference = conference,
            ConfField::Kind(kind) => row.kind = kind,
            ConfField::Nice(days) => row.nice = days,
            ConfField::KeepCommented(days) => row.keep_commented = days,
            ConfField::Expire(days) => row.expire = days,
            ConfField::LastWritten(at) => row.last_written = at,
        }
    }
}

/// The conference has another name.
#[derive(Drop)]
pub(crate) struct Rename(pub(crate) Bytes);

impl Change<ByNumber> for Rename {
    ghost use Rattle.std.specs.Prelude.{refl};
    ghost use Rattle.kom_types.specs.tables.Conferences.{with_name};

    ghost changed = { λ rename. with_name rename.0 };

    ghost keeps_number = { λ rename row. refl };

    fn change(self, row: &mut ConferenceRow) {
        row.name = self.0;
    }
}

/// The next text of the conference gets this local number.
#[derive(Drop)]
pub(crate) struct SetNextLocal(pub(crate) u32);

impl Change<ByNumber> for SetNextLocal {
    ghost use Rattle.std.specs.Prelude.{refl};
    ghost use Rattle.conferences.specs.Numbers.{with_next_local};

    ghost changed = { λ set. with_next_local set.0 };

    ghost keeps_number = { λ set row. refl };

    fn change(self, row: &mut ConferenceRow) {
        row.next_local = self.0;
    }
}

/// The next aux-item of the conference gets this number.
#[derive(Drop)]
pub(crate) struct SetNextItem(pub(crate) u32);

impl Change<ByNumber> for SetNextItem {
    ghost use Rattle.std.specs.Prelude.{refl};
    ghost use Rattle.conferences.specs.Numbers.{with_next_item};

    ghost changed = { λ set. with_next_item set.0 };

    ghost keeps_number = { λ set row. refl };

    fn change(self, row: &mut ConferenceRow) {
        row.next_item = self.0;
    }
}
