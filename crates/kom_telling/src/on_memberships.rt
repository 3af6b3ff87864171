// Memberships, in the order of joining, and what was read in each.
ghost use Rattle.std.specs.Prelude.{◌≡◌, ◌<◌, ◌^◌, length, flat_map, OnOk};
ghost use Rattle.kom_model.specs.Db.{read_of};
ghost use Rattle.kom_telling.specs.Sections.{member_parts};
ghost use Rattle.kom_telling.specs.Takes.{Keeps, Takes};

use crate::section::Joined;
use crate::sink::{PartSink, put_plain};
use kom_state::StoredRows;
use kom_types::{Effect, PartRef, ReadRange};

pub(crate) fn tell_memberships<S: PartSink>(
    rows: &StoredRows,
    joined: &[Joined],
    sink: &mut S,
) -> Result<(), S::Refusal>
    ensures told { OnOk result
        (Takes S.took sink.old sink.new (flat_map (member_parts rows.now.db) joined.now)) }
    ensures keeps { Keeps S.becomes sink.old sink.new }
{
    for one in joined {
        tell_membership(rows, one, sink)?;
    }
    Ok(())
}

fn tell_membership<S: PartSink>(
    rows: &StoredRows,
    one: &Joined,
    sink: &mut S,
) -> Result<(), S::Refusal>
    ensures told { OnOk result (Takes S.took sink.old sink.new (member_parts rows.now.db one.now)) }
    ensures keeps { Keeps S.becomes sink.old sink.new }
{
    let Joined {
        person,
        conference,
        rank,
    } = *one;
    let Some(row) = rows.unplaced_membership(person, conference) else {
        return Ok(());
    };
    put_plain(
        sink,
        Effect::MemberSet {
            person,
            conference,
            position: rank,
            priority: row.priority,
            added_by: row.added_by,
            added_at: row.added_at,
            kind: row.kind,
        },
    )?;
    sink.put(&PartRef::ReadSet {
        person,
        conference,
        at: row.last_time_read,
        ranges: ranges_of(rows, person, conference),
    })
}

/// What a person has read of a conference.
fn ranges_of(rows: &StoredRows, person: u32, conference: u32) -> &[ReadRange]
    ensures ranges { result.now ≡ read_of rows.now.db person conference }
    ensures few { length result.now < 2 ^ 32 }
{
    match rows.read(person, conference) {
        Some(read) => {
            let told = read.ranges();
            told
        }
        None => &[],
    }
}
