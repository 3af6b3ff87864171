ghost use Rattle.std.specs.Prelude.{◌≡◌, ◌-◌, map, IfOk};
ghost use Rattle.std.specs.List.{range_with_len};
ghost use Rattle.kom_types.specs.Names.{fold};
ghost use Rattle.kom_model.specs.Shown as Shown;
ghost use Rattle.kom_model.specs.calls.Call.{Meets, MeetsFirmly};
ghost use Rattle.kom_model.specs.calls.Conferences as Conferences;

use crate::lookup::shown_names;
use crate::nearest::{Wanted, next_shown, previous_shown};
use crate::told_counts::members_told;
use access_rights::{conference_adder, conference_guard, items_shown, login_guard, size_guard};
use kom_model::{CallError, Refused, Viewer};
use kom_state::{Asked, StoredRows};
use kom_types::limits::LONGEST_NAME;
use kom_types::{
    Boxed, Bytes, Conference, ConferenceRow, Decision, Memory, Reply, UConference, errors,
};
use name_lookup::fold_byte;
use std::alloc::Global;

/// Call 76, lookup-z-name: letterboxes, if persons are wanted, and other conferences, if they are,
/// by rising number.
pub fn lookup_z_name(
    asked: &Asked<'_>,
    pattern: &Bytes,
    persons: bool,
    conferences: bool,
) -> Result<Decision, CallError>
    ensures { Meets (Conferences.lookup_z_name asked.now pattern.now persons conferences) result }
{
    size_guard(pattern.as_slice(), LONGEST_NAME)?;
    let names = shown_names(asked, pattern.as_slice(), persons, conferences)?;
    let names = Boxed::new(asked.allocator(), names)?;
    Ok(asked.answer(Reply::ConferenceNames(names)))
}

/// Call 78, get-uconf-stat.
pub fn get_uconf_stat(asked: &Asked<'_>, conference: u32) -> Result<Decision, CallError>
    ensures { Meets (Conferences.get_uconf_stat asked.now conference) result }
{
    let caller = asked.caller();
    let rows = asked.rows();
    login_guard(&caller)?;
    conference_guard(rows, &caller, conference)?;
    let reply = uconference_of(asked.allocator(), rows, conference)?;
    Ok(asked.answer(reply))
}

/// What a conference is said to be to most clients.
#[tactic(auto, unfolding(kom_model::specs::Db::next_local_of))]
fn uconference_of(alloc: Global, rows: &StoredRows, conference: u32) -> Result<Reply, Memory>
    ensures { IfOk result
        (λ reply. reply ≡ Conferences.uconference_of rows.now.db conference) }
{
    match rows.conference(conference) {
        Some(row) => Ok(Reply::UConference(Boxed::new(alloc, uconference(alloc, row)?)?)),
        None => Ok(Reply::Refused(errors::UNDEFINED_CONFERENCE, conference)),
    }
}

fn uconference(alloc: Global, row: &ConferenceRow) -> Result<UConference, Memory>
    ensures { IfOk result (λ of. of ≡ record {
      name = row.now.name;
      kind = row.now.kind;
      highest_local = row.now.next_local - 1;
      nice = row.now.nice;
    }) }
{
    Ok(UConference {
        name: Bytes::copy_of(alloc, row.name.as_slice())?,
        kind: row.kind,
        highest_local: row.next_local.saturating_sub(1),
        nice: row.nice,
    })
}

/// Call 91, get-conf-stat. The time grows with the conference's aux-items, and, where a membership
/// in it is secret and the caller does not see all, with its members.
pub fn get_conf_stat(asked: &Asked<'_>, number: u32) -> Result<Decision, CallError>
    ensures { Meets (Conferences.get_conf_stat asked.now number) result }
{
    let caller = asked.caller();
    let rows = asked.rows();
    login_guard(&caller)?;
    conference_guard(rows, &caller, number)?;
    let reply = conference_reply(asked.allocator(), rows, &caller, number)?;
    Ok(asked.answer(reply))
}

fn conference_reply(
    alloc: Global,
    rows: &StoredRows,
    caller: &Viewer,
    number: u32,
) -> Result<Reply, Memory>
    ensures { IfOk result (λ reply. reply
        ≡ Conferences.conference_reply rows.now.db caller.now number) }
{
    match rows.conference(number) {
        Some(row) => {
            let told = conference_told(alloc, rows, caller, row)?;
            Ok(Reply::Conference(Boxed::new(alloc, told)?))
        }
        None => Ok(Reply::Refused(errors::UNDEFINED_CONFERENCE, number)),
    }
}

/// A conference, as it is told to who looks.
fn conference_told(
    alloc: Global,
    rows: &StoredRows,
    viewer: &Viewer,
    row: &ConferenceRow,
) -> Result<Conference, Memory>
    ensures { IfOk result (λ told. told ≡ Shown.conference_told rows.now.db viewer.now row.now) }
{
    let first_local = rows.first_local(row.number);
    let by = conference_adder(rows, viewer, row.number);
    Ok(Conference {
        name: Bytes::copy_of(alloc, row.name.as_slice())?,
        kind: row.kind,
        created: row.created,
        last_written: row.last_written,
        creator: row.creator,
        presentation: row.presentation,
        supervisor: row.supervisor,
        submitters: row.submitters,
        super_conference: row.super_conference,
        motd: row.motd,
        nice: row.nice,
        keep_commented: row.keep_commented,
        members: members_told(rows, viewer, row.number),
        first_local,
        texts: rows.next_local(row.number).saturating_sub(first_local),
        expire: row.expire,
        aux_items: items_shown(alloc, rows, false, row.number, &by)?,
    })
}

/// Call 85, get-collate-table: what each byte counts as.
pub fn get_collate_table(asked: &Asked<'_>) -> Result<Decision, CallError>
    ensures { Meets Conferences.get_collate_table result }
{
    Ok(asked.answer(Reply::Text(collate_table(asked.allocator())?)))
}

fn collate_table(alloc: Global) -> Result<Boxed<Bytes>, Memory>
    ensures { IfOk result (λ table. table ≡ map fold (range_with_len 0 256)) }
{
    let table = Bytes::copy_of(alloc, &folded_bytes())?;
    Boxed::new(alloc, table)
}

/// Each byte folded.
fn folded_bytes() -> [u8; 256]
    ensures { result ≡ map fold (range_with_len 0 256) }
{
    let mut table = [0; 256];
    for byte in 0..256 {
        table[byte] = fold_byte(byte as u8);
    }
    table
}

/// Call 114, first-unused-conf-no: the least number that the next conference may get.
#[tactic(auto, unfolding(kom_model::specs::Db::next_conference_of))]
pub fn first_unused_conf_no(asked: &Asked<'_>) -> Decision
    ensures { result ≡ (Conferences.first_unused_conf_no asked.now).rest }
{
    asked.answer(Reply::Number(asked.rows().next_conference()))
}

/// Call 116, find-next-conf-no: of those that the caller is shown.
pub fn find_next_conf_no(asked: &Asked<'_>, start: u32) -> Result<Decision, Refused>
    ensures { MeetsFirmly (Conferences.find_next_conf_no asked.now start) result }
{
    login_guard(&asked.caller())?;
    match next_shown(asked, Wanted::Conference, start) {
        Some(number) => Ok(asked.answer(Reply::Number(number))),
        None => Err(Refused {
            code: errors::UNDEFINED_CONFERENCE,
            status: start,
        }),
    }
}

/// Call 117, find-previous-conf-no: of those that the caller is shown.
pub fn find_previous_conf_no(asked: &Asked<'_>, start: u32) -> Result<Decision, Refused>
    ensures { MeetsFirmly (Conferences.find_previous_conf_no asked.now start) result }
{
    login_guard(&asked.caller())?;
    match previous_shown(asked, Wanted::Conference, start) {
        Some(number) => Ok(asked.answer(Reply::Number(number))),
        None => Err(Refused {
            code: errors::UNDEFINED_CONFERENCE,
            status: start,
        }),
    }
}
