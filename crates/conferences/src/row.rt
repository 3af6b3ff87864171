ghost use Rattle.std.specs.Prelude.{◌≡◌};
ghost use Rattle.kom_types.specs.tables.Conferences.{fresh_conference};

use kom_types::{Bytes, ConferenceRow, Moment};

// For how many days texts are kept, and commented ones, until that is set.
const FIRST_NICE: u32 = 77;

/// The row of a conference that is made at this moment.
pub fn fresh_conference(
    number: u32,
    name: Bytes,
    kind: u8,
    at: Moment,
    creator: u32,
    supervisor: u32,
) -> ConferenceRow
    ensures { result ≡ fresh_conference number name kind at creator supervisor }
{
    ConferenceRow {
        number,
        name,
        kind,
        created: at,
        last_written: at,
        creator,
        presentation: 0,
        motd: 0,
        supervisor,
        submitters: 0,
        super_conference: 0,
        nice: FIRST_NICE,
        keep_commented: FIRST_NICE,
        expire: 0,
        next_local: 1,
        next_item: 1,
    }
}
