//! The call by which a conference goes, and with a letterbox its person.
ghost use Rattle.std.specs.Prelude.{◌≡◌, ◌==◌, ◌∷◌, [], ◌++◌, map, filter, IfOk, OnOk};
ghost use Rattle.std.specs.List.{flat_map, filter_map};
ghost use Rattle.kom_model.specs.Db.{locals_of, marks_of, memberships_at};
ghost use Rattle.kom_model.specs.calls.Call.{Meets};
ghost use Rattle.kom_model.specs.calls.Conferences as Calls;
ghost use Rattle.kom_model.specs.calls.Sessions.{all_left, seat_left};

use crate::owning::owner_guards;
use kom_model::CallError;
use kom_state::{Asked, StoredRows, push_count, push_items_gone};
use kom_types::{
    ChangeList, Counter, Decision, Effect, EffectList, Memory, Reply, Seat, Sequence, SessionChange,
};

/// Call 11, delete-conf. The time grows with the texts, the members and the aux-items of the
/// conference, with the marks and the memberships of its person, and with the sessions.
pub fn delete_conf(asked: &Asked<'_>, conference: u32) -> Result<Decision, CallError>
    ensures { Meets (Calls.delete_conf asked.now conference) result }
{
    owner_guards(asked.rows(), &asked.caller(), conference)?;
    Ok(Decision {
        reply: Reply::Done,
        effects: gone_conference(asked, conference)?,
        changes: left_by_deletion(asked, conference)?,
    })
}

/// What hangs on a conference goes before it.
fn gone_conference(asked: &Asked<'_>, number: u32) -> Result<EffectList, Memory>
    ensures { IfOk result (λ effects. effects ≡ Calls.gone_conference asked.now number) }
{
    let rows = asked.rows();
    let mut effects = Sequence::new(asked.allocator());
    push_presence(&mut effects, asked, number)?;
    push_recipients(&mut effects, rows, number)?;
    push_marks(&mut effects, rows, number)?;
    push_memberships(&mut effects, rows, number)?;
    push_items_gone(&mut effects, rows, false, number)?;
    push_person(&mut effects, rows, number)?;
    effects.push(Effect::ConfGone { number })?;
    Ok(effects)
}

/// The time present is counted of each session of a person.
fn push_presence(effects: &mut EffectList, asked: &Asked<'_>, person: u32) -> Result<(), Memory>
    ensures { OnOk result (effects.new ≡ effects.old ++ all_left asked.now person) }
{
    let sessions = asked.sessions();
    for place in 0..sessions.len() {
        if let Some(seat) = sessions.nth_seat(place) {
            push_left(effects, asked, person, seat)?;
        }
    }
    Ok(())
}

/// The time since the login, in seconds, is counted of a session, if it is of this person.
fn push_left(
    effects: &mut EffectList,
    asked: &Asked<'_>,
    person: u32,
    seat: &Seat,
) -> Result<(), Memory>
    ensures { OnOk result (effects.new ≡ effects.old ++ flat_map (seat_left asked.now)
        (filter (λ seat. seat.person == person) (seat.now ∷ []))) }
{
    if seat.person == person && person != 0 {
        let present = asked
            .moment()
            .seconds()
            .saturating_sub(seat.login.seconds());
        push_count(effects, person, Counter::TimePresent, present)?;
    }
    Ok(())
}

/// No text has the conference as a recipient any more.
fn push_recipients(
    effects: &mut EffectList,
    rows: &StoredRows,
    conference: u32,
) -> Result<(), Memory>
    ensures { OnOk result (effects.new ≡ effects.old
        ++ map (λ pair. Effect.RecipientGone pair.text conference)
        (locals_of rows.now.db conference)) }
{
    let Some(pairs) = rows.locals_from(conference, 0) else {
        return Ok(());
    };
    for pair in pairs {
        effects.push(Effect::RecipientGone {
            text: pair.text,
            conference,
        })?;
    }
    Ok(())
}

/// A person's marks go.
fn push_marks(effects: &mut EffectList, rows: &StoredRows, person: u32) -> Result<(), Memory>
    ensures { OnOk result (effects.new ≡ effects.old
        ++ map (λ row. Effect.MarkGone person row.text) (marks_of rows.now.db person)) }
{
    let marks = rows.marks_of(person)?;
    for mark in marks.as_slice() {
        effects.push(Effect::MarkGone {
            person,
            text: mark.text,
        })?;
    }
    Ok(())
}

/// The memberships in a conference go, and those of the person whose letterbox it is.
fn push_memberships(effects: &mut EffectList, rows: &StoredRows, number: u32) -> Result<(), Memory>
    ensures { OnOk result (effects.new ≡ effects.old
        ++ map (λ row. Effect.MemberGone row.person row.conference)
        (memberships_at rows.now.db number)) }
{
    let keys = rows.membership_keys_at(number)?;
    for (person, conference) in &keys {
        effects.push(Effect::MemberGone {
            person: *person,
            conference: *conference,
        })?;
    }
    Ok(())
}

/// The person goes whose letterbox goes.
fn push_person(effects: &mut EffectList, rows: &StoredRows, number: u32) -> Result<(), Memory>
    ensures { OnOk result (effects.new ≡ effects.old ++ Calls.gone_person rows.now.db number) }
{
    if rows.person(number).is_some() {
        effects.push(Effect::PersonGone { number })?;
    }
    Ok(())
}

/// The sessions of the person whose letterbox goes are logged out, and others that are in the
/// conference are in none then.
fn left_by_deletion(asked: &Asked<'_>, number: u32) -> Result<ChangeList, Memory>
    ensures { IfOk result (λ changes. changes
        ≡ filter_map (Calls.left_by_deletion number) asked.now.seats) }
{
    let sessions = asked.sessions();
    let mut changes = Sequence::new(asked.allocator());
    for place in 0..sessions.len() {
        if let Some(seat) = sessions.nth_seat(place) {
            push_change(&mut changes, number, seat)?;
        }
    }
    Ok(changes)
}

/// What becomes of a session, if anything does.
fn push_change(changes: &mut ChangeList, number: u32, seat: &Seat) -> Result<(), Memory>
    ensures { OnOk result (changes.new
        ≡ changes.old ++ filter_map (Calls.left_by_deletion number) (seat.now ∷ [])) }
{
    if seat.person == number {
        changes.push(SessionChange::Person(seat.number, 0, false))?;
    } else if seat.working == number {
        changes.push(SessionChange::Working(seat.number, 0))?;
    }
    Ok(())
}
