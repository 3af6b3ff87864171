ghost use Rattle.std.specs.Prelude.{◌≡◌};
ghost use Rattle.kom_types.specs.tables.Persons.{fresh_person};

use kom_types::{Bytes, Moment, PersonRow};
use std::alloc::Global;

/// The row of a person that is made. It has no password yet, and tells this moment as its last
/// login.
pub fn fresh_person(
    alloc: Global,
    number: u32,
    privileges: u16,
    flags: u8,
    last_login: Moment,
) -> PersonRow
    ensures { result ≡ fresh_person number privileges flags last_login }
{
    PersonRow {
        number,
        privileges,
        flags,
        last_login,
        user: Bytes::new(alloc),
        user_area: 0,
        hash: [0; 32],
        time_present: 0,
        sessions: 0,
        created_lines: 0,
        created_bytes: 0,
        read_texts: 0,
        text_fetches: 0,
        created_persons: 0,
        created_conferences: 0,
        next_created: 1,
    }
}
