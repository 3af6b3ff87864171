ghost use Rattle.std.specs.Prelude.{◌≡◌, ℕ, ◌+◌, ◌≤◌, ◌<◌, ◌↔◌, min, Ok, IsSome, IfSome, pos, ◌≤ℤ◌};
ghost use Rattle.kom_types.specs.declared.limits.TheConstants.{LAST_MOMENT};

use crate::limits::LAST_MOMENT;
use jiff_core::civil::Date;
use std::marker::Model;

/// Seconds since the beginning of 1970 in UTC, at most 253402300799.
#[derive(Debug, PartialEq, Eq)]
pub struct Moment(pub u64);

impl Model for Moment {
    ghost Value = { ℕ };

    ghost view = { λ m. m.0 };

    ghost invariant = { λ m. m.0 ≤ LAST_MOMENT };

    ghost inverse = { λ n. record { 0 = n } };
}

impl Clone for Moment {
    fn clone(&self) -> Result<Moment, std::alloc::AllocError>
        ensures { result ≡ Ok self.now }
    {
        Ok(*self)
    }
}

impl Copy for Moment {}

impl Moment {
    /// The moment of that many seconds, or the last moment where there are more.
    pub fn at_most(seconds: u64) -> Moment
        ensures { result ≡ min seconds LAST_MOMENT }
    {
        Moment(seconds.min(LAST_MOMENT))
    }

    /// The moment of that many seconds, where there is one.
    pub fn new(seconds: u64) -> Option<Moment>
        ensures some { IsSome result ↔ (seconds ≤ LAST_MOMENT) }
        ensures value { IfSome result (λ m. m ≡ seconds) }
    {
        if seconds <= LAST_MOMENT {
            Some(Moment(seconds))
        } else {
            None
        }
    }

    /// The seconds since the beginning of 1970.
    pub fn seconds(self) -> u64
        ensures value { result ≡ self }
        ensures bound { result ≤ LAST_MOMENT }
    {
        self.0
    }
}

/// A moment by the calendar, in UTC. (Protocol A, "Time".)
#[derive(Clone, Copy, Debug, PartialEq, Eq)]
pub struct Time {
    pub seconds: u8,
    pub minutes: u8,
    pub hours: u8,
    /// From 1 on.
    pub day: u8,
    /// From 0 on.
    pub month: u8,
    /// Since 1900.
    pub year: u32,
    /// Sunday is 0.
    pub weekday: u8,
    /// From 0 on.
    pub yearday: u16,
    /// Whether summer time is in use: never, in UTC.
    pub dst: bool,
}

impl Time {
    ghost use Rattle.kom_types.specs.Times.{time_of};

    /// The calendar time of a moment, in UTC. Takes no memory.
    pub fn of(moment: Moment) -> Time
        ensures { result ≡ time_of moment }
    {
        let seconds = moment.seconds();
        let days = (seconds / 86_400) as u32;
        let second = (seconds % 86_400) as u32;
        let date = Date::from_days_since_min(days + DAYS_TO_1970);
        Time {
            seconds: (second % 60) as u8,
            minutes: (second / 60 % 60) as u8,
            hours: (second / 3600) as u8,
            day: date.day,
            month: date.month - 1,
            year: years_since_1900(date.year),
            weekday: ((days + 4) % 7) as u8,
            yearday: date.day_of_year() - 1,
            dst: false,
        }
    }
}

// The days from the first date of `jiff`, at the beginning of the year -9999, to that of 1970.
const DAYS_TO_1970: u32 = 4_371_587;

fn years_since_1900(year: i16) -> u32
    requires { pos 1900 ≤ℤ year }
    ensures { pos (result + 1900) ≡ year }
{
    year as u32 - 1900
}
