ghost use Rattle.std.specs.Prelude.{◌≡◌, IfOk};
ghost use Rattle.kom_model.specs.Shown as Shown;
ghost use Rattle.kom_model.specs.calls.Call.{Meets};
ghost use Rattle.kom_model.specs.calls.Persons as Persons;

use crate::told_counts::{memberships_told, own_count};
use access_rights::{login_guard, told_count};
use kom_model::{CallError, Viewer};
use kom_state::{Asked, StoredRows};
use kom_types::{Boxed, Bytes, Decision, Memory, Person, PersonRow, Reply, errors};
use std::alloc::Global;

/// Call 49, get-person-stat. Where a membership of the person may be hidden from somebody, and the
/// caller does not see all, the time grows with the person's memberships.
pub fn get_person_stat(asked: &Asked<'_>, person: u32) -> Result<Decision, CallError>
    ensures { Meets (Persons.get_person_stat asked.now person) result }
{
    let caller = asked.caller();
    let rows = asked.rows();
    login_guard(&caller)?;
    rows.person_guard(person)?;
    let reply = person_reply(asked.allocator(), rows, &caller, person)?;
    Ok(asked.answer(reply))
}

fn person_reply(
    alloc: Global,
    rows: &StoredRows,
    caller: &Viewer,
    person: u32,
) -> Result<Reply, Memory>
    ensures { IfOk result (λ reply. reply ≡ Persons.person_reply rows.now.db caller.now person) }
{
    match rows.person(person) {
        Some(row) => {
            let told = person_told(alloc, rows, caller, row)?;
            Ok(Reply::Person(Boxed::new(alloc, told)?))
        }
        None => Ok(Reply::Refused(errors::UNDEFINED_PERSON, person)),
    }
}

/// A person, as it is told to who looks.
fn person_told(
    alloc: Global,
    rows: &StoredRows,
    viewer: &Viewer,
    row: &PersonRow,
) -> Result<Person, Memory>
    ensures { IfOk result (λ told. told ≡ Shown.person_told rows.now.db viewer.now row.now) }
{
    let marks = told_count(rows.mark_count_of(row.number));
    let first_created_local = rows.first_created(row.number);
    let next_created_local = rows.next_created(row.number);
    Ok(Person {
        user: Bytes::copy_of(alloc, row.user.as_slice())?,
        privileges: row.privileges,
        flags: row.flags,
        last_login: row.last_login,
        user_area: row.user_area,
        time_present: row.time_present,
        sessions: row.sessions,
        created_lines: row.created_lines,
        created_bytes: row.created_bytes,
        read_texts: own_count(viewer, row.number, row.read_texts),
        text_fetches: own_count(viewer, row.number, row.text_fetches),
        created_persons: row.created_persons,
        created_conferences: row.created_conferences,
        first_created_local,
        created_texts: next_created_local.saturating_sub(first_created_local),
        marks: own_count(viewer, row.number, marks),
        conferences: memberships_told(rows, viewer, row.number),
    })
}
