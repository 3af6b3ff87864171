//! The calls that tell memberships, and what was read in them.
ghost use Rattle.std.specs.Prelude.{◌≡◌, ◌||◌, ◌&&◌, ◌<◌, ◌^◌, not, nat_lt, if◌then◌else◌};
ghost use Rattle.std.specs.Prelude.{[], length, map, filter, IfOk};
ghost use Rattle.read_ranges.specs.Changed as Changed;
ghost use Rattle.read_ranges.specs.Numbers.{ranges_of as ranges_in};
ghost use Rattle.kom_model.specs.Db.{memberships_of, read_of};
ghost use Rattle.kom_model.specs.Shown as Shown;
ghost use Rattle.kom_model.specs.Shown.{is_reserved as is_reserved_by};
ghost use Rattle.kom_types.specs.tables.Memberships.{is_passive, member_of};
ghost use Rattle.kom_model.specs.Rights.{supervises as supervises_by};
ghost use Rattle.kom_model.specs.calls.Call.{Meets};
ghost use Rattle.kom_model.specs.calls.Guards.{caller as caller_of};
ghost use Rattle.kom_model.specs.calls.Memberships as Calls;
ghost use Rattle.query_calls.specs.Hidden.{hidden_members, hidden_memberships};

use crate::hidden::{hidden_members, hidden_memberships, shows_member};
use access_rights::{
    conference_guard, is_reserved, login_guard, row_guard, shows_membership, shows_reads,
    supervises, unless,
};
use kom_model::{CallError, Refused, Viewer};
use kom_state::{Asked, StoredRows};
use kom_types::bits::PASSIVE_MEMBERSHIP;
use kom_types::{
    Boxed, Decision, Members, Membership, MembershipRow, Memberships, Memory, Moment, Numbers,
    RangesShown, ReadRange, Reply, Sequence, errors,
};
use read_ranges::Ranges;

/// Call 52, get-unread-confs: by the places of the memberships.
pub fn get_unread_confs(asked: &Asked<'_>, person: u32) -> Result<Decision, CallError>
    ensures { Meets (Calls.get_unread_confs asked.now person) result }
{
    let caller = asked.caller();
    let rows = asked.rows();
    login_guard(&caller)?;
    rows.person_guard(person)?;
    unless(
        tells_unread(rows, &caller, person),
        errors::PERMISSION_DENIED,
        person,
    )?;
    let numbers = unread_confs(asked, person)?;
    let numbers = Boxed::new(asked.allocator(), numbers)?;
    Ok(asked.answer(Reply::Numbers(numbers)))
}

/// Whether the caller may ask where a person has something unread.
fn tells_unread(rows: &StoredRows, caller: &Viewer, person: u32) -> bool
    ensures { result ≡ (not (is_reserved_by rows.now.db person)
        || supervises_by rows.now.db caller.now.person person || caller.now.strong) }
{
    !is_reserved(rows, person) || supervises(rows, caller.person, person) || caller.strong
}

/// The conferences of which a person has not read all texts that are there.
fn unread_confs(asked: &Asked<'_>, person: u32) -> Result<Numbers, Memory>
    ensures { IfOk result (λ numbers. numbers ≡ map (λ row. row.conference) (filter
        (λ row. Calls.is_shown asked.now row && not (is_passive row.kind)
        && Calls.is_unread asked.now.db row)
        (memberships_of asked.now.db person))) }
{
    let numbers = asked
        .rows()
        .memberships(person)
        .filter(|row| is_told_unread(asked, row))
        .map(|row| row.conference)
        .collect(asked.allocator())?;
    Ok(Sequence::of(numbers))
}

fn is_told_unread(asked: &Asked<'_>, row: &MembershipRow) -> bool
    ensures { result ≡ (Calls.is_shown asked.now row.now && not (is_passive row.now.kind)
        && Calls.is_unread asked.now.db row.now) }
{
    is_shown(asked, row) && row.kind & PASSIVE_MEMBERSHIP == 0 && is_unread(asked.rows(), row)
}

/// Whether a membership is shown to the caller.
fn is_shown(asked: &Asked<'_>, row: &MembershipRow) -> bool
    ensures { result ≡ Calls.is_shown asked.now row.now }
{
    shows_membership(
        asked.rows(),
        &asked.caller(),
        row.person,
        row.conference,
        row.kind,
    )
}

/// Whether a member has not read all texts of the conference that are there.
fn is_unread(rows: &StoredRows, row: &MembershipRow) -> bool
    ensures { result ≡ Calls.is_unread rows.now.db row.now }
{
    let first = rows.first_local(row.conference);
    let last = rows.next_local(row.conference).saturating_sub(1);
    match rows.read(row.person, row.conference) {
        None => first <= last,
        Some(read) => has_unread(read, first, last),
    }
}

/// Whether some number from the first to the last was not read. No set has 0.
fn has_unread(read: &Ranges, first: u32, last: u32) -> bool
    ensures { result ≡ Changed.has_unread first last (ranges_in read.now.numbers) }
{
    first == 0 || read.has_unread(first, last)
}

/// Call 101, get-members: those that are shown to the caller, in the order of joining. The time
/// grows with how many are asked for, and as `hidden_members` tells.
pub fn get_members(
    asked: &Asked<'_>,
    conference: u32,
    first: u32,
    count: u32,
) -> Result<Decision, CallError>
    ensures { Meets (Calls.get_members asked.now conference first count) result }
{
    let caller = asked.caller();
    login_guard(&caller)?;
    conference_guard(asked.rows(), &caller, conference)?;
    let passed = hidden_members(asked.rows(), &caller, conference, first as usize);
    unless(
        first == 0 || has_member_at(asked, &caller, conference, first, passed),
        errors::INDEX_OUT_OF_RANGE,
        first,
    )?;
    let members = members_from(asked, &caller, conference, first, passed, count)?;
    let members = Boxed::new(asked.allocator(), members)?;
    Ok(asked.answer(Reply::Members(members)))
}

/// Whether there is a member at a place among those that are shown to the caller: from that place
/// among all on, as many are passed over as before it are hidden.
fn has_member_at(
    asked: &Asked<'_>,
    caller: &Viewer,
    conference: u32,
    place: u32,
    passed: usize,
) -> bool
    requires caller { caller.now ≡ caller_of asked.now }
    requires passed { passed ≡ hidden_members asked.now.db caller.now conference place }
    ensures { result ≡ nat_lt place (length (Calls.shown_members asked.now conference)) }
{
    let rows = asked.rows();
    let mut shown = rows
        .members_from(conference, place as usize)
        .filter(|member| shows_member(rows, caller, conference, member));
    shown.nth(passed).is_some()
}

/// The members at some places among those that are shown to the caller: from the first place among
/// all on, as many are passed over as before it are hidden.
fn members_from(
    asked: &Asked<'_>,
    caller: &Viewer,
    conference: u32,
    first: u32,
    passed: usize,
    count: u32,
) -> Result<Members, Memory>
    requires caller { caller.now ≡ caller_of asked.now }
    requires passed { passed ≡ hidden_members asked.now.db caller.now conference first }
    ensures { IfOk result (λ members. members ≡ map member_of
        (Calls.part first count (Calls.shown_members asked.now conference))) }
{
    let rows = asked.rows();
    let members = rows
        .members_from(conference, first as usize)
        .filter(|member| shows_member(rows, caller, conference, member))
        .skip(passed)
        .take(count as usize)
        .collect(asked.allocator())?;
    Ok(Sequence::of(members))
}

/// Call 107, query-read-texts. The time grows with the ranges that are told; with the person's
/// memberships by little, since the list of their conferences is searched; and as
/// `hidden_memberships` tells.
pub fn query_read_texts(
    asked: &Asked<'_>,
    person: u32,
    conference: u32,
    want_ranges: bool,
    most: u32,
) -> Result<Decision, CallError>
    ensures { Meets
        (Calls.query_read_texts asked.now person conference want_ranges most) result }
{
    let caller = asked.caller();
    let rows = asked.rows();
    login_guard(&caller)?;
    rows.person_guard(person)?;
    conference_guard(rows, &caller, conference)?;
    row_guard(rows, &caller, person, conference)?;
    let Some(row) = rows.membership(person, conference) else {
        return Err(Refused {
            code: errors::NOT_MEMBER,
            status: conference,
        }
        .into());
    };
    let told = membership_told(asked, want_ranges, most, place_of(asked, &row), &row)?;
    let told = Boxed::new(asked.allocator(), told)?;
    Ok(asked.answer(Reply::Membership(told)))
}

/// The place of a membership among those of its person that are shown to the caller: its place
/// among all, less the hidden ones before it.
fn place_of(asked: &Asked<'_>, row: &MembershipRow) -> usize
    ensures { result ≡ Calls.place_of asked.now row.now }
{
    let rows = asked.rows();
    let place = rows.membership_count(row.person).min(row.position as usize);
    place - hidden_memberships(rows, &asked.caller(), row.person, place)
}

/// A membership as it is told, at a place among those that are shown to the caller.
fn membership_told(
    asked: &Asked<'_>,
    want_ranges: bool,
    most: u32,
    place: usize,
    row: &MembershipRow,
) -> Result<Membership, Memory>
    ensures { IfOk result (λ told. told
        ≡ Calls.membership_told asked.now want_ranges most place row.now) }
{
    let is_told = shows_reads(asked.rows(), &asked.caller(), row.person);
    Ok(Membership {
        position: place.min(u32::MAX as usize) as u32,
        last_time_read: if is_told {
            row.last_time_read
        } else {
            Moment::at_most(0)
        },
        conference: row.conference,
        priority: row.priority,
        ranges: ranges_told(asked, want_ranges, most, is_told, row)?,
        added_by: row.added_by,
        added_at: row.added_at,
        kind: row.kind,
    })
}

/// What the caller is told that a member has read: at most so many ranges, or with 0 all; and
/// themselves, or how many they are.
fn ranges_told(
    asked: &Asked<'_>,
    want_ranges: bool,
    most: u32,
    is_told: bool,
    row: &MembershipRow,
) -> Result<RangesShown, Memory>
    ensures { IfOk result (λ told. told ≡ Calls.ranges_or_count want_ranges (Calls.at_most most
        (if is_told then read_of asked.now.db row.now.person row.now.conference else []))) }
{
    let ranges = at_most(most, ranges_of(asked.rows(), is_told, row));
    if want_ranges {
        let ranges = Vec::from_slice(asked.allocator(), ranges)?;
        Ok(RangesShown::All(Sequence::of(ranges)))
    } else {
        Ok(RangesShown::Count(ranges.len() as u32))
    }
}

/// What a member has read, if that is told.
fn ranges_of<'a>(rows: &'a StoredRows, is_told: bool, row: &MembershipRow) -> &'a [ReadRange]
    ensures ranges { result.now
        ≡ (if is_told then read_of rows.now.db row.now.person row.now.conference else []) }
    ensures few { length result.now < 2 ^ 32 }
{
    if !is_told {
        return &[];
    }
    match rows.read(row.person, row.conference) {
        None => &[],
        Some(read) => read.ranges(),
    }
}

/// At most so many ranges, or with 0 all.
fn at_most(most: u32, ranges: &[ReadRange]) -> &[ReadRange]
    ensures { result.now ≡ Calls.at_most most ranges.now }
{
    if most == 0 {
        ranges
    } else {
        &ranges[..ranges.len().min(most as usize)]
    }
}

/// Call 108, get-membership: those that are shown to the caller, by their places. The time grows
/// with how many are asked for, and as `hidden_memberships` tells.
pub fn get_membership(
    asked: &Asked<'_>,
    person: u32,
    first: u32,
    count: u32,
    want_ranges: bool,
    most: u32,
) -> Result<Decision, CallError>
    ensures { Meets
        (Calls.get_membership asked.now person first count want_ranges most) result }
{
    let rows = asked.rows();
    login_guard(&asked.caller())?;
    rows.person_guard(person)?;
    let passed = hidden_memberships(rows, &asked.caller(), person, first as usize);
    unless(
        first == 0 || has_membership_at(asked, person, first, passed),
        errors::INDEX_OUT_OF_RANGE,
        first,
    )?;
    let told = memberships_from(asked, person, first, passed, count, want_ranges, most)?;
    let told = Boxed::new(asked.allocator(), told)?;
    Ok(asked.answer(Reply::Memberships(told)))
}

/// Whether there is a membership at a place among those that are shown to the caller: from that
/// place among all on, as many are passed over as before it are hidden.
fn has_membership_at(asked: &Asked<'_>, person: u32, place: u32, passed: usize) -> bool
    requires { passed ≡ hidden_memberships asked.now.db (caller_of asked.now) person place }
    ensures { result ≡ nat_lt place (length (Calls.shown_memberships asked.now person)) }
{
    let mut shown = asked
        .rows()
        .memberships_from(person, place as usize)
        .filter(|row| is_shown(asked, row));
    shown.nth(passed).is_some()
}

/// The memberships at some places among those that are shown to the caller: from the first place
/// among all on, as many are passed over as before it are hidden.
fn memberships_from(
    asked: &Asked<'_>,
    person: u32,
    first: u32,
    passed: usize,
    count: u32,
    want_ranges: bool,
    most: u32,
) -> Result<Memberships, Memory>
    requires { passed ≡ hidden_memberships asked.now.db (caller_of asked.now) person first }
    ensures { IfOk result (λ told. told ≡ Calls.all_told asked.now want_ranges most first
        (Calls.part first count (Calls.shown_memberships asked.now person))) }
{
    let mut told = Sequence::new(asked.allocator());
    let shown = asked
        .rows()
        .memberships_from(person, first as usize)
        .filter(|row| is_shown(asked, row))
        .skip(passed)
        .take(count as usize);
    for row in shown {
        let place = first as usize + told.len();
        told.push(membership_told(asked, want_ranges, most, place, &row)?)?;
    }
    Ok(told)
}
