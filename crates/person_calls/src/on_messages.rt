//! The call by which a message is sent to those who are logged in.
ghost use Rattle.std.specs.Prelude.{◌≡◌, ℕ, List, ◌==◌, ◌&&◌, not};
ghost use Rattle.kom_model.specs.Messages as Messages;
ghost use Rattle.kom_model.specs.calls.Call.{Meets};
ghost use Rattle.kom_model.specs.calls.Sessions as Sessions;

use access_rights::{conference_or_none_guard, hears, login_guard, size_guard, unless};
use kom_model::CallError;
use kom_state::{Asked, StoredRows};
use kom_types::limits::LONGEST_MESSAGE;
use kom_types::{Bytes, Decision, Reply, Seat, errors};

/// The number of the message that is sent.
const SEND_MESSAGE: u32 = 12;

/// Call 53, send-message: to a conference, or, with 0, to all. It is refused if nobody gets it.
pub fn send_message(asked: &Asked<'_>, recipient: u32, text: &Bytes) -> Result<Decision, CallError>
    ensures { Meets (Sessions.send_message_to asked.now recipient text.now) result }
{
    let caller = asked.caller();
    login_guard(&caller)?;
    size_guard(text.as_slice(), LONGEST_MESSAGE)?;
    conference_or_none_guard(asked.rows(), &caller, recipient)?;
    unless(
        is_sent(asked, recipient),
        errors::MESSAGE_NOT_SENT,
        recipient,
    )?;
    Ok(asked.answer(Reply::Done))
}

/// Whether somebody gets what is sent to a conference, or, with 0, to all. The time grows with the
/// sessions that accept such messages, up to the first of somebody who gets it.
fn is_sent(asked: &Asked<'_>, recipient: u32) -> bool
    ensures { (text : List ℕ) → result ≡ Sessions.is_sent asked.now recipient text }
{
    let rows = asked.rows();
    let sessions = asked.sessions();
    for place in 0..sessions.len() {
        let Some(seat) = sessions.nth_accepting(SEND_MESSAGE, place) else {
            return false;
        };
        if is_heard(rows, seat, recipient) {
            return true;
        }
    }
    false
}

/// Whether somebody is logged in at a seat who hears what is sent to a conference.
fn is_heard(rows: &StoredRows, seat: &Seat, recipient: u32) -> bool
    ensures { result ≡ (not (seat.now.person == 0)
        && Messages.hears rows.now.db seat.now.person recipient) }
{
    seat.person != 0 && hears(rows, seat.person, recipient)
}
