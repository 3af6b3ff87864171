ghost use Rattle.std.specs.Prelude.{◌≡◌, ◌^◌, map, filter, IfOk};
ghost use Rattle.kom_types.specs.Bits.{is_on};
ghost use Rattle.kom_model.specs.calls.Call.{Meets, answer};
ghost use Rattle.kom_model.specs.calls.Guards.{caller as caller_of};
ghost use Rattle.kom_model.specs.calls.Sessions as Sessions;

use access_rights::{session_guard, working_shown};
use kom_model::{CallError, Viewer};
use kom_state::Asked;
use kom_types::async_numbers::MESSAGE_NUMBERS;
use kom_types::bits::INVISIBLE_SESSION;
use kom_types::{
    Boxed, Bytes, Decision, DynamicSession, DynamicSessions, Memory, Moment, Numbers, Reply, Seat,
    Sequence, StaticSession,
};
use std::alloc::Global;

/// Call 56, who-am-i: the number of the caller's session.
pub fn who_am_i(asked: &Asked<'_>) -> Decision
    ensures { result ≡ (Sessions.who_am_i asked.now).rest }
{
    asked.answer(Reply::Number(asked.session()))
}

/// Call 81, query-async: the numbers of the messages that the caller's session accepts, rising.
pub fn query_async(asked: &Asked<'_>) -> Result<Decision, CallError>
    ensures { Meets (Sessions.query_async asked.now) result }
{
    let alloc = asked.allocator();
    let numbers = match asked.seat() {
        Some(seat) => with_bit(alloc, seat.accepted, &MESSAGE_NUMBERS)?,
        None => Sequence::new(alloc),
    };
    Ok(asked.answer(Reply::Numbers(Boxed::new(alloc, numbers)?)))
}

/// Those of some numbers whose bits are set.
fn with_bit(alloc: Global, bits: u32, numbers: &[u32]) -> Result<Numbers, Memory>
    ensures { IfOk result (λ those. those
        ≡ filter (λ number. is_on (2 ^ number) bits) numbers.now) }
{
    let those = numbers
        .iter()
        .copied()
        .filter(|number| has_bit(bits, *number))
        .collect(alloc)?;
    Ok(Sequence::of(those))
}

/// Whether the bit of a number is set.
fn has_bit(bits: u32, number: u32) -> bool
    ensures { result ≡ is_on (2 ^ number) bits }
{
    number < u32::BITS && bits & (1 << number) != 0
}

/// Call 70, get-client-name: empty if the client did not tell it.
pub fn get_client_name(asked: &Asked<'_>, session: u32) -> Result<Decision, CallError>
    ensures { Meets (Sessions.get_client_name asked.now session) result }
{
    session_guard(asked.sessions(), session)?;
    let client = match asked.sessions().seat(session) {
        Some(seat) => Bytes::copy_of(asked.allocator(), seat.client.as_slice())?,
        None => Bytes::new(asked.allocator()),
    };
    Ok(text(asked, client)?)
}

/// Call 71, get-client-version: empty if the client did not tell it.
pub fn get_client_version(asked: &Asked<'_>, session: u32) -> Result<Decision, CallError>
    ensures { Meets (Sessions.get_client_version asked.now session) result }
{
    session_guard(asked.sessions(), session)?;
    let version = match asked.sessions().seat(session) {
        Some(seat) => Bytes::copy_of(asked.allocator(), seat.version.as_slice())?,
        None => Bytes::new(asked.allocator()),
    };
    Ok(text(asked, version)?)
}

/// A call that is answered by a text.
fn text(asked: &Asked<'_>, bytes: Bytes) -> Result<Decision, Memory>
    ensures { IfOk result (λ decision. decision ≡ answer (Reply.Text bytes)) }
{
    let reply = Reply::Text(Boxed::new(asked.allocator(), bytes)?);
    Ok(asked.answer(reply))
}

/// Call 83, who-is-on-dynamic: the sessions that are asked for, visible ones, invisible ones or
/// both, and those alone that were idle for at most so many seconds, unless that is 0. The time
/// grows with all sessions.
pub fn who_is_on_dynamic(
    asked: &Asked<'_>,
    visible: bool,
    invisible: bool,
    most: u32,
) -> Result<Decision, CallError>
    ensures { Meets (Sessions.who_is_on_dynamic asked.now visible invisible most) result }
{
    let told = dynamic_sessions(asked, visible, invisible, most)?;
    let told = Boxed::new(asked.allocator(), told)?;
    Ok(asked.answer(Reply::DynamicSessions(told)))
}

/// What is told of the sessions that are asked for.
fn dynamic_sessions(
    asked: &Asked<'_>,
    visible: bool,
    invisible: bool,
    most: u32,
) -> Result<DynamicSessions, Memory>
    ensures { IfOk result (λ told. told ≡ map (Sessions.dynamic_of asked.now) (filter
        (Sessions.is_asked_for asked.now.moment visible invisible most) asked.now.seats)) }
{
    let caller = asked.caller();
    let moment = asked.moment();
    let sessions = asked.sessions();
    let mut told = Sequence::new(asked.allocator());
    for place in 0..sessions.len() {
        if let Some(seat) = sessions.nth_seat(place) {
            if is_asked_for(moment, visible, invisible, most, seat) {
                told.push(dynamic_of(asked, &caller, seat)?)?;
            }
        }
    }
    Ok(told)
}

/// Whether a session is asked for: no call has ended it, it is one of the visible or the invisible
/// ones that are wanted, and it was not idle for too long.
fn is_asked_for(moment: Moment, visible: bool, invisible: bool, most: u32, seat: &Seat) -> bool
    ensures { result ≡ Sessions.is_asked_for moment visible invisible most seat.now }
{
    let is_wanted = if is_invisible(seat) {
        invisible
    } else {
        visible
    };
    !seat.ended && is_wanted && (most == 0 || idle_of(moment, seat) <= u64::from(most))
}

/// Whether somebody is logged in invisibly.
fn is_invisible(seat: &Seat) -> bool
    ensures { result ≡ Sessions.is_invisible seat.now }
{
    seat.person != 0 && seat.flags & INVISIBLE_SESSION != 0
}

/// For how many seconds a person has done nothing.
fn idle_of(moment: Moment, seat: &Seat) -> u64
    ensures { result ≡ Sessions.idle_of moment seat.now }
{
    moment.seconds().saturating_sub(seat.active.seconds())
}

/// What changes in a session, as it is told to the caller.
fn dynamic_of(asked: &Asked<'_>, caller: &Viewer, seat: &Seat) -> Result<DynamicSession, Memory>
    requires { caller.now ≡ caller_of asked.now }
    ensures { IfOk result (λ told. told ≡ Sessions.dynamic_of asked.now seat.now) }
{
    let idle = idle_of(asked.moment(), seat);
    Ok(DynamicSession {
        session: seat.number,
        person: seat.person,
        working: working_shown(asked.rows(), caller, seat),
        idle: idle.min(u64::from(u32::MAX)) as u32,
        flags: seat.flags,
        doing: Bytes::copy_of(asked.allocator(), seat.doing.as_slice())?,
    })
}

/// Call 84, get-static-session-info.
pub fn get_static_session_info(asked: &Asked<'_>, session: u32) -> Result<Decision, CallError>
    ensures { Meets (Sessions.get_static_session_info asked.now session) result }
{
    session_guard(asked.sessions(), session)?;
    match asked.sessions().seat(session) {
        None => Ok(asked.answer(Reply::Done)),
        Some(seat) => {
            let alloc = asked.allocator();
            let told = Boxed::new(alloc, static_of(alloc, seat)?)?;
            Ok(asked.answer(Reply::StaticSession(told)))
        }
    }
}

/// What does not change in a session. This server asks no other one who its client is.
fn static_of(alloc: Global, seat: &Seat) -> Result<StaticSession, Memory>
    ensures { IfOk result (λ told. told ≡ Sessions.static_of seat.now) }
{
    Ok(StaticSession {
        user: Bytes::copy_of(alloc, seat.user.as_slice())?,
        host: Bytes::copy_of(alloc, seat.host.as_slice())?,
        ident_user: Bytes::new(alloc),
        connected: seat.connected,
    })
}
