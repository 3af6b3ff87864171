ghost use Rattle.std.specs.Prelude.{◌≡◌, ◌==◌, ◌&&◌, not, find, IfOk};
ghost use Rattle.kom_model.specs.Rights.{supervises as supervises_by};
ghost use Rattle.kom_model.specs.calls.Call.{Meets};
ghost use Rattle.kom_model.specs.calls.Memberships as Memberships;
ghost use Rattle.kom_model.specs.calls.Sessions as Sessions;
ghost use Rattle.kom_model.specs.calls.Sessions.{is_message as is_message_number};

use crate::leaving::{leaving_changes, leaving_effects, seat_leaves, seat_left};
use access_rights::{
    conference_guard, login_guard, member_guard, session_guard, size_guard, supervises, unless,
};
use kom_model::CallError;
use kom_state::{Asked, StoredRows};
use kom_types::async_numbers::MESSAGE_NUMBERS;
use kom_types::limits::LONGEST_NAME;
use kom_types::{
    Bytes, ClientVersion, Decision, Effect, LoginPassword, Memory, Numbers, Reply, Seat,
    SessionChange, errors,
};

/// Call 1, logout: whoever is logged in is logged out. It is done also if nobody is.
pub fn logout(asked: &Asked<'_>) -> Result<Decision, CallError>
    ensures { Meets (Sessions.logout asked.now) result }
{
    Ok(Decision {
        reply: Reply::Done,
        effects: leaving_effects(asked)?,
        changes: leaving_changes(asked)?,
    })
}

/// Call 2, change-conference: into a conference that the caller is a member of, or 0, into none.
pub fn change_conference(asked: &Asked<'_>, conference: u32) -> Result<Decision, CallError>
    ensures { Meets (Memberships.change_conference asked.now conference) result }
{
    let caller = asked.caller();
    login_guard(&caller)?;
    if conference != 0 {
        conference_guard(asked.rows(), &caller, conference)?;
        member_guard(asked.rows(), caller.person, conference)?;
    }
    Ok(asked.with_change(SessionChange::Working(asked.session(), conference))?)
}

/// Call 4, change-what-i-am-doing.
pub fn change_what_i_am_doing(asked: &Asked<'_>, doing: &Bytes) -> Result<Decision, CallError>
    ensures { Meets (Sessions.change_what_i_am_doing asked.now doing.now) result }
{
    size_guard(doing.as_slice(), LONGEST_NAME)?;
    let doing = Bytes::copy_of(asked.allocator(), doing.as_slice())?;
    Ok(asked.with_change(SessionChange::Doing(asked.session(), doing))?)
}

/// Call 42, enable: the session has this level of rights, of which 255 is the highest.
pub fn enable(asked: &Asked<'_>, level: u8) -> Result<Decision, CallError>
    ensures { Meets (Sessions.enable asked.now level) result }
{
    login_guard(&asked.caller())?;
    Ok(asked.with_change(SessionChange::Level(asked.session(), level))?)
}

/// Call 55, disconnect: whoever is logged in is logged out, and the session makes no call any more.
/// With 0 it is the caller's own.
pub fn disconnect(asked: &Asked<'_>, session: u32) -> Result<Decision, CallError>
    ensures { Meets (Sessions.disconnect asked.now session) result }
{
    let session = session_meant(asked, session);
    session_guard(asked.sessions(), session)?;
    unless(
        may_disconnect(asked, session),
        errors::PERMISSION_DENIED,
        session,
    )?;
    match asked.sessions().seat(session) {
        None => Ok(asked.answer(Reply::Done)),
        Some(seat) => Ok(ended(asked, seat)?),
    }
}

/// The session that a number means.
fn session_meant(asked: &Asked<'_>, number: u32) -> u32
    ensures { result ≡ Sessions.session_meant asked.now number }
{
    if number == 0 { asked.session() } else { number }
}

/// Whether the caller may end a session: its own, and one of a person that it supervises; a strong
/// one all.
fn may_disconnect(asked: &Asked<'_>, session: u32) -> bool
    ensures { result ≡ Sessions.may_disconnect asked.now session }
{
    let caller = asked.caller();
    if session == asked.session() || caller.strong {
        return true;
    }
    match asked.sessions().seat(session) {
        None => false,
        Some(seat) => supervises_at(asked.rows(), caller.person, seat),
    }
}

/// Whether somebody is logged in at a seat that this person supervises.
fn supervises_at(rows: &StoredRows, person: u32, seat: &Seat) -> bool
    ensures { result ≡ (not (seat.now.person == 0)
        && supervises_by rows.now.db person seat.now.person) }
{
    seat.person != 0 && supervises(rows, person, seat.person)
}

/// What becomes of a session that is ended.
fn ended(asked: &Asked<'_>, seat: &Seat) -> Result<Decision, Memory>
    ensures { IfOk result (λ decision. decision ≡ Sessions.end_session asked.now seat.now) }
{
    let mut changes = seat_leaves(asked, seat)?;
    changes.push(SessionChange::Ended(seat.number))?;
    Ok(Decision {
        reply: Reply::Done,
        effects: seat_left(asked, seat)?,
        changes,
    })
}

/// Call 62, login: whoever is logged in is logged out first.
pub fn login(
    asked: &Asked<'_>,
    person: u32,
    password: &LoginPassword,
    invisible: bool,
) -> Result<Decision, CallError>
    ensures { Meets (Sessions.login asked.now person password.now invisible) result }
{
    let rows = asked.rows();
    rows.person_guard(person)?;
    rows.login_password_guard(&asked.caller(), person, password)?;
    let mut effects = leaving_effects(asked)?;
    effects.push(Effect::LoggedIn {
        number: person,
        at: asked.moment(),
        user: user_of(asked)?,
    })?;
    let mut changes = leaving_changes(asked)?;
    changes.push(SessionChange::Person(asked.session(), person, invisible))?;
    Ok(Decision {
        reply: Reply::Done,
        effects,
        changes,
    })
}

/// The user name of the caller's greeting.
fn user_of(asked: &Asked<'_>) -> Result<Bytes, Memory>
    ensures { IfOk result (λ user. user ≡ Sessions.user_of asked.now) }
{
    match asked.seat() {
        None => Ok(Bytes::new(asked.allocator())),
        Some(seat) => Bytes::copy_of(asked.allocator(), seat.user.as_slice()),
    }
}

/// Call 69, set-client-version: a client tells it once.
pub fn set_client_version(asked: &Asked<'_>, given: &ClientVersion) -> Result<Decision, CallError>
    ensures { Meets (Sessions.set_client_version asked.now given.now) result }
{
    size_guard(given.name.as_slice(), LONGEST_NAME)?;
    size_guard(given.version.as_slice(), LONGEST_NAME)?;
    unless(!has_told(asked), errors::CLIENT_IS_CRAZY, 0)?;
    let name = Bytes::copy_of(asked.allocator(), given.name.as_slice())?;
    let version = Bytes::copy_of(asked.allocator(), given.version.as_slice())?;
    Ok(asked.with_change(SessionChange::Client(asked.session(), name, version))?)
}

/// Whether the caller's client has told what it is.
fn has_told(asked: &Asked<'_>) -> bool
    ensures { result ≡ Sessions.has_told asked.now }
{
    match asked.seat() {
        None => false,
        Some(seat) => seat.client_set,
    }
}

/// Call 80, accept-async: the session accepts the messages of these numbers. One that is of no
/// message is refused, and the others are accepted all the same.
pub fn accept_async(asked: &Asked<'_>, numbers: &Numbers) -> Result<Decision, CallError>
    ensures { Meets (Sessions.accept_async asked.now numbers.now) result }
{
    let numbers = numbers.as_slice();
    let change = SessionChange::Accept(asked.session(), bits_of(numbers));
    let mut decision = asked.with_change(change)?;
    if let Some(number) = first_other(numbers) {
        decision.reply = Reply::Refused(errors::UNKNOWN_ASYNC, number);
    }
    Ok(decision)
}

/// The numbers of messages among these, as a bit for each.
#[tactic(auto, using(crate::proofs::Messages::bits_set, crate::proofs::Messages::bits_passed))]
fn bits_of(numbers: &[u32]) -> u32
    ensures { result ≡ Sessions.accepted_bits numbers.now }
{
    let mut bits = 0;
    for number in numbers {
        if is_message(*number) {
            bits |= 1 << *number;
        }
    }
    bits
}

/// The first number that is of no message.
fn first_other(numbers: &[u32]) -> Option<u32>
    ensures { result ≡ find (λ number. not (is_message_number number)) numbers.now }
{
    numbers.iter().copied().find(|number| !is_message(*number))
}

fn is_message(number: u32) -> bool
    ensures { result ≡ is_message_number number }
{
    MESSAGE_NUMBERS.contains(&number)
}

/// Call 82, user-active.
pub fn user_active(asked: &Asked<'_>) -> Result<Decision, CallError>
    ensures { Meets (Sessions.user_active asked.now) result }
{
    Ok(asked.with_change(SessionChange::Active(asked.session()))?)
}
