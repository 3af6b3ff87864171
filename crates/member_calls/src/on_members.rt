//! The calls by which memberships begin, change and end.
ghost use Rattle.std.specs.Prelude.{◌≡◌, ◌∷◌, [], IfOk};
ghost use Rattle.kom_model.specs.calls.Call.{Meets};
ghost use Rattle.kom_model.specs.calls.Guards.{Guards, first_refusal};
ghost use Rattle.kom_model.specs.calls.Memberships as Calls;

use access_rights::{
    conference_guard, login_guard, reads_conference, row_guard, supervises, supervisor_guard,
    unless,
};
use kom_model::{CallError, Refused, Rows, Viewer};
use kom_state::{Asked, StoredRows};
use kom_types::bits::{FORBIDS_SECRET, INVITATION, READ_PROTECTED, SECRET_MEMBERSHIP};
use kom_types::limits::MOST_MEMBERSHIPS;
use kom_types::{
    ChangeList, Decision, Effect, EffectList, MembershipRow, Memory, Reply, Seat, Sequence,
    SessionChange, errors,
};

/// Call 15, sub-member.
pub fn sub_member(asked: &Asked<'_>, conference: u32, person: u32) -> Result<Decision, CallError>
    ensures { Meets (Calls.sub_member asked.now conference person) result }
{
    let caller = asked.caller();
    let rows = asked.rows();
    login_guard(&caller)?;
    conference_guard(rows, &caller, conference)?;
    rows.person_guard(person)?;
    row_guard(rows, &caller, person, conference)?;
    unless(
        may_end(rows, &caller, conference, person),
        errors::PERMISSION_DENIED,
        conference,
    )?;
    Ok(leaves(asked, conference, person)?)
}

/// Whether the caller may end a membership.
fn may_end(rows: &StoredRows, caller: &Viewer, conference: u32, person: u32) -> bool
    ensures { result ≡ Calls.may_end rows.now.db caller.now conference person }
{
    person != conference
        && (supervises(rows, caller.person, person)
            || supervises(rows, caller.person, conference)
            || caller.strong)
}

/// A membership ends: the sessions of the person that are in the conference are in none then.
fn leaves(asked: &Asked<'_>, conference: u32, person: u32) -> Result<Decision, Memory>
    ensures { IfOk result (λ decision. decision
        ≡ (Calls.sub_member asked.now conference person).rest) }
{
    let mut effects = Sequence::new(asked.allocator());
    effects.push(Effect::MemberGone { person, conference })?;
    Ok(Decision {
        reply: Reply::Done,
        effects,
        changes: left_by(asked, person, conference)?,
    })
}

/// The changes of the sessions of a person that are in a conference.
fn left_by(asked: &Asked<'_>, person: u32, conference: u32) -> Result<ChangeList, Memory>
    ensures { IfOk result (λ changes. changes
        ≡ Calls.left_by person conference asked.now.seats) }
{
    let sessions = asked.sessions();
    let mut changes = Sequence::new(asked.allocator());
    for place in 0..sessions.len() {
        if let Some(seat) = sessions.nth_seat(place) {
            if is_in_conference(person, conference, seat) {
                changes.push(SessionChange::Working(seat.number, 0))?;
            }
        }
    }
    Ok(changes)
}

fn is_in_conference(person: u32, conference: u32, seat: &Seat) -> bool
    ensures { result ≡ Calls.is_in_conference person conference seat.now }
{
    seat.person == person && seat.working == conference
}

/// Call 100, add-member.
pub fn add_member(
    asked: &Asked<'_>,
    conference: u32,
    person: u32,
    priority: u8,
    place: u32,
    kind: u8,
) -> Result<Decision, CallError>
    ensures { Meets (Calls.add_member asked.now conference person priority place kind) result }
{
    let caller = asked.caller();
    let rows = asked.rows();
    login_guard(&caller)?;
    conference_guard(rows, &caller, conference)?;
    rows.person_guard(person)?;
    secret_guard(rows, conference, kind)?;
    joins_guard(rows, &caller, person, conference)?;
    Ok(Decision {
        reply: Reply::Done,
        effects: member_effects(asked, person, conference, priority, place, kind)?,
        changes: Sequence::new(asked.allocator()),
    })
}

/// The conference takes memberships of this type.
fn secret_guard(rows: &StoredRows, conference: u32, kind: u8) -> Result<(), Refused>
    ensures { Guards (Calls.secret_guard rows.now.db conference kind) result }
{
    unless(
        !(kind & SECRET_MEMBERSHIP != 0 && refuses_secret(rows, conference)),
        errors::INVALID_MEMBERSHIP_TYPE,
        0,
    )
}

fn refuses_secret(rows: &StoredRows, conference: u32) -> bool
    ensures { result ≡ Calls.refuses_secret rows.now.db conference }
{
    match rows.conference(conference) {
        None => false,
        Some(row) => row.kind & FORBIDS_SECRET != 0,
    }
}

/// A membership that is not there may begin, and there is room for it.
fn joins_guard(
    rows: &StoredRows,
    caller: &Viewer,
    person: u32,
    conference: u32,
) -> Result<(), Refused>
    ensures { Guards
        (first_refusal (Calls.joins_guards rows.now.db caller.now person conference)) result }
{
    if rows.membership_kind(person, conference).is_some() {
        return Ok(());
    }
    unless(
        may_join(rows, caller, person, conference),
        errors::ACCESS_DENIED,
        conference,
    )?;
    unless(
        rows.membership_count(person) < MOST_MEMBERSHIPS,
        errors::TEMPORARY_FAILURE,
        person,
    )
}

/// Whether a person may become a member through the caller.
fn may_join(rows: &StoredRows, caller: &Viewer, person: u32, conference: u32) -> bool
    ensures { result ≡ Calls.may_join rows.now.db caller.now person conference }
{
    if is_near(rows, caller, person) {
        reads_itself(rows, person, conference)
            || supervises(rows, caller.person, conference)
            || caller.strong
    } else {
        is_open(rows, conference) || supervises(rows, caller.person, conference)
    }
}

/// Whether the caller is the person, supervises it, or has a strong session.
fn is_near(rows: &StoredRows, caller: &Viewer, person: u32) -> bool
    ensures { result ≡ Calls.is_near rows.now.db caller.now person }
{
    caller.person == person || supervises(rows, caller.person, person) || caller.strong
}

/// Whether a person reads a conference, however strong its sessions are.
fn reads_itself(rows: &StoredRows, person: u32, conference: u32) -> bool
    ensures { result ≡ Calls.reads_itself rows.now.db person conference }
{
    let viewer = Viewer {
        person,
        strong: false,
    };
    reads_conference(rows, &viewer, conference)
}

fn is_open(rows: &StoredRows, conference: u32) -> bool
    ensures { result ≡ Calls.is_open rows.now.db conference }
{
    match rows.conference(conference) {
        None => false,
        Some(row) => row.kind & READ_PROTECTED == 0,
    }
}

/// What add-member sets: nothing, of a membership that is there, for a caller who is not near.
fn member_effects(
    asked: &Asked<'_>,
    person: u32,
    conference: u32,
    priority: u8,
    place: u32,
    kind: u8,
) -> Result<EffectList, Memory>
    ensures { IfOk result (λ effects. effects
        ≡ Calls.member_effects asked.now person conference priority place kind) }
{
    let rows = asked.rows();
    let is_near = is_near(rows, &asked.caller(), person);
    let mut effects = Sequence::new(asked.allocator());
    match rows.membership(person, conference) {
        None => effects.push(Effect::MemberSet {
            person,
            conference,
            position: place,
            priority,
            added_by: asked.caller().person,
            added_at: asked.moment(),
            kind: if is_near { kind } else { kind | INVITATION },
        })?,
        Some(row) => {
            if is_near {
                effects.push(set_member(&row, priority, place, kind))?;
            }
        }
    }
    Ok(effects)
}

/// A membership that is there gets this priority, place and type.
fn set_member(row: &MembershipRow, priority: u8, place: u32, kind: u8) -> Effect
    ensures { result ≡ Calls.set_member row.now priority place kind }
{
    Effect::MemberSet {
        person: row.person,
        conference: row.conference,
        position: place,
        priority,
        added_by: row.added_by,
        added_at: row.added_at,
        kind,
    }
}

/// Call 102, set-membership-type.
pub fn set_membership_type(
    asked: &Asked<'_>,
    person: u32,
    conference: u32,
    kind: u8,
) -> Result<Decision, CallError>
    ensures { Meets (Calls.set_membership_type asked.now person conference kind) result }
{
    let caller = asked.caller();
    let rows = asked.rows();
    login_guard(&caller)?;
    rows.person_guard(person)?;
    conference_guard(rows, &caller, conference)?;
    row_guard(rows, &caller, person, conference)?;
    supervisor_guard(rows, &caller, person)?;
    secret_guard(rows, conference, kind)?;
    Ok(Decision {
        reply: Reply::Done,
        effects: type_effects(asked, person, conference, kind)?,
        changes: Sequence::new(asked.allocator()),
    })
}

/// A membership that is there gets another type.
fn type_effects(
    asked: &Asked<'_>,
    person: u32,
    conference: u32,
    kind: u8,
) -> Result<EffectList, Memory>
    ensures { IfOk result (λ effects. effects
        ≡ Calls.type_effects asked.now.db person conference kind) }
{
    let mut effects = Sequence::new(asked.allocator());
    if let Some(row) = asked.rows().membership(person, conference) {
        effects.push(set_member(&row, row.priority, row.position, kind))?;
    }
    Ok(effects)
}
