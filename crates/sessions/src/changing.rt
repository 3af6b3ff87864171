ghost use Rattle.std.specs.Prelude.{◌≡◌, true};
ghost use Rattle.kom_types.specs.Sessions.{changed_session, changed_seat, with_person};
ghost use Rattle.kom_types.specs.Sessions.{with_invisible, with_active};

use kom_types::bits::{
    ALL_BUT_ACTIVE_AND_ABSENT, ALL_BUT_INVISIBLE, INVISIBLE_SESSION, USER_ACTIVE_USED,
};
use kom_types::{Bytes, Moment, Seat, SessionChange};

/// The session whose number stands first in a change, or 0 where it is of none.
pub(crate) fn session_of(change: &SessionChange) -> u32
    ensures { result ≡ changed_session change.now }
{
    match change {
        SessionChange::Person(session, _, _)
        | SessionChange::Level(session, _)
        | SessionChange::Working(session, _)
        | SessionChange::Doing(session, _)
        | SessionChange::Client(session, _, _)
        | SessionChange::Accept(session, _)
        | SessionChange::Active(session)
        | SessionChange::Ended(session) => *session,
        SessionChange::Stop => 0,
    }
}

/// Makes a change on the seat of its session, at this moment.
pub(crate) fn change_seat(seat: &mut Seat, change: SessionChange, at: Moment)
    ensures { seat.new ≡ changed_seat change at seat.old }
{
    match change {
        SessionChange::Person(_, person, invisible) => set_person(seat, person, invisible, at),
        SessionChange::Level(_, level) => set_level(seat, level),
        SessionChange::Working(_, conference) => set_working(seat, conference),
        SessionChange::Doing(_, doing) => set_doing(seat, doing),
        SessionChange::Client(_, client, version) => set_client(seat, client, version),
        SessionChange::Accept(_, accepted) => set_accepted(seat, accepted),
        SessionChange::Active(_) => set_active(seat, at),
        SessionChange::Ended(_) => set_ended(seat),
        SessionChange::Stop => {}
    }
}

/// Logs a person in, or, at person 0, whoever is logged in out.
fn set_person(seat: &mut Seat, person: u32, invisible: bool, at: Moment)
    ensures { seat.new ≡ with_person person invisible at seat.old }
{
    seat.person = person;
    seat.level = 0;
    seat.working = 0;
    seat.flags = flags_of_login(seat.flags, invisible);
    if person != 0 {
        seat.login = at;
        seat.active = at;
    }
}

/// The flags, with the flag invisible on or off.
fn flags_of_login(flags: u8, invisible: bool) -> u8
    ensures { result ≡ with_invisible invisible flags }
{
    let highest = if invisible { INVISIBLE_SESSION } else { 0 };
    flags & ALL_BUT_INVISIBLE | highest
}

fn set_level(seat: &mut Seat, level: u8)
    ensures { seat.new ≡ record seat.old { level = level } }
{
    seat.level = level;
}

fn set_working(seat: &mut Seat, conference: u32)
    ensures { seat.new ≡ record seat.old { working = conference } }
{
    seat.working = conference;
}

fn set_doing(seat: &mut Seat, doing: Bytes)
    ensures { seat.new ≡ record seat.old { doing = doing } }
{
    seat.doing = doing;
}

fn set_client(seat: &mut Seat, client: Bytes, version: Bytes)
    ensures { seat.new ≡ record seat.old { client_set = true; client = client; version = version } }
{
    seat.client_set = true;
    seat.client = client;
    seat.version = version;
}

fn set_accepted(seat: &mut Seat, accepted: u32)
    ensures { seat.new ≡ record seat.old { accepted = accepted } }
{
    seat.accepted = accepted;
}

/// The person is active: the flag user-active-used is on, and the flag user-absent off.
fn set_active(seat: &mut Seat, at: Moment)
    ensures { seat.new ≡ record seat.old { active = at; flags = with_active seat.old.flags } }
{
    seat.active = at;
    seat.flags = flags_of_active(seat.flags);
}

/// The flags, with the flag user-active-used on and the flag user-absent off.
fn flags_of_active(flags: u8) -> u8
    ensures { result ≡ with_active flags }
{
    flags & ALL_BUT_ACTIVE_AND_ABSENT | USER_ACTIVE_USED
}

fn set_ended(seat: &mut Seat)
    ensures { seat.new ≡ record seat.old { ended = true } }
{
    seat.ended = true;
}
