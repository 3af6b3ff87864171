//! What whoever is logged in leaves when it is logged out, and what is counted of a person.
ghost use Rattle.std.specs.Prelude.{◌≡◌, ◌++◌, IfOk, OnOk};
ghost use Rattle.kom_model.specs.calls.Sessions as Sessions;

use kom_state::Asked;
use kom_types::{ChangeList, Counter, Effect, EffectList, Memory, Seat, Sequence, SessionChange};

/// A counter of a person rises, unless by nothing.
pub(crate) fn count(
    effects: &mut EffectList,
    number: u32,
    counter: Counter,
    by: u64,
) -> Result<(), Memory>
    ensures { OnOk result (effects.new ≡ effects.old ++ Sessions.counts number counter by) }
{
    if by != 0 {
        effects.push(Effect::Counted {
            number,
            counter,
            by,
        })?;
    }
    Ok(())
}

/// The time since the login, in seconds, counts as time present of whoever is logged in.
pub(crate) fn leaving_effects(asked: &Asked<'_>) -> Result<EffectList, Memory>
    ensures { IfOk result (λ effects. effects ≡ Sessions.leaving_effects asked.now) }
{
    match asked.seat() {
        None => Ok(Sequence::new(asked.allocator())),
        Some(seat) => seat_left(asked, seat),
    }
}

/// The same of whoever is logged in at a seat.
pub(crate) fn seat_left(asked: &Asked<'_>, seat: &Seat) -> Result<EffectList, Memory>
    ensures { IfOk result (λ effects. effects ≡ Sessions.seat_left asked.now seat.now) }
{
    let mut effects = Sequence::new(asked.allocator());
    if seat.person != 0 {
        let now = asked.moment().seconds();
        let present = now.saturating_sub(seat.login.seconds());
        count(&mut effects, seat.person, Counter::TimePresent, present)?;
    }
    Ok(effects)
}

/// Whoever is logged in is logged out.
pub(crate) fn leaving_changes(asked: &Asked<'_>) -> Result<ChangeList, Memory>
    ensures { IfOk result (λ changes. changes ≡ Sessions.leaving_changes asked.now) }
{
    let mut changes = Sequence::new(asked.allocator());
    if asked.caller().person != 0 {
        changes.push(SessionChange::Person(asked.session(), 0, false))?;
    }
    Ok(changes)
}

/// Whoever is logged in at a seat is logged out.
pub(crate) fn seat_leaves(asked: &Asked<'_>, seat: &Seat) -> Result<ChangeList, Memory>
    ensures { IfOk result (λ changes. changes ≡ Sessions.seat_leaves seat.now) }
{
    let mut changes = Sequence::new(asked.allocator());
    if seat.person != 0 {
        changes.push(SessionChange::Person(seat.number, 0, false))?;
    }
    Ok(changes)
}
