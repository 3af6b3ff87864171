ghost use Rattle.std.specs.Prelude.{◌≡◌, ◌≤◌, ◌-◌, false};
ghost use Rattle.kom_records.specs.Times as time;
ghost use Rattle.kom_records.specs.Telling.{ReadsAs};
ghost use Rattle.kom_records.specs.Times.{days_of_years, is_told, moment_of};

use crate::fault::ReadFault;
use crate::tokens::Tokens;
use jiff_core::civil::Date;
use kom_types::{Moment, Time};

/// The numbers of a calendar time, as a line has them.
#[derive(Clone, Copy, Debug)]
pub(crate) struct TimeParts {
    seconds: u32,
    minutes: u32,
    hours: u32,
    day: u32,
    month: u32,
    year: u32,
    weekday: u32,
    yearday: u32,
    summer: u32,
}

// The days from the first date of `jiff`, at the beginning of the year -9999, to that of 1970.
const DAYS_TO_1970: u32 = 4_371_587;

impl Tokens<'_> {
    /// Takes a time.
    pub(crate) fn time(&mut self) -> Result<Moment, ReadFault>
        ensures { ReadsAs false (time.time self.old) result self.new }
    {
        let parts = self.time_parts()?;
        moment_of(&parts).ok_or(ReadFault::Departs)
    }

    /// Takes the numbers of a time.
    fn time_parts(&mut self) -> Result<TimeParts, ReadFault>
        ensures { ReadsAs false (time.time_parts self.old) result self.new }
    {
        let seconds = self.number()?;
        let minutes = self.number()?;
        let hours = self.number()?;
        let day = self.number()?;
        let month = self.number()?;
        let year = self.number()?;
        let weekday = self.number()?;
        let yearday = self.number()?;
        let summer = self.number()?;
        Ok(TimeParts {
            seconds,
            minutes,
            hours,
            day,
            month,
            year,
            weekday,
            yearday,
            summer,
        })
    }
}

/// The moment that is told so.
fn moment_of(parts: &TimeParts) -> Option<Moment>
    ensures { result ≡ moment_of parts.now }
{
    if parts.year < 70 || parts.year > 8099 {
        return None;
    }
    let days = days_before(parts.year) + u64::from(parts.yearday);
    let seconds = days * 86_400
        + u64::from(parts.hours) * 3600
        + u64::from(parts.minutes) * 60
        + u64::from(parts.seconds);
    let moment = Moment::new(seconds)?;
    if is_told(parts, Time::of(moment)) {
        Some(moment)
    } else {
        None
    }
}

/// The days from the beginning of 1970 to that of a year, which is counted from 1900 on.
fn days_before(year: u32) -> u64
    requires from { 70 ≤ year }
    requires to { year ≤ 8099 }
    ensures value { result ≡ days_of_years 1970 (year - 70) }
    ensures bound { result ≤ 2932896 }
{
    let first = Date::constrain((year + 1900) as i16, 1, 1);
    u64::from(first.days_since_min() - DAYS_TO_1970)
}

/// Whether the numbers are those of a calendar time, which is never a summer time.
fn is_told(parts: &TimeParts, time: Time) -> bool
    ensures { result ≡ is_told parts.now time }
{
    parts.seconds == u32::from(time.seconds)
        && parts.minutes == u32::from(time.minutes)
        && parts.hours == u32::from(time.hours)
        && parts.day == u32::from(time.day)
        && parts.month == u32::from(time.month)
        && parts.year == time.year
        && parts.weekday == u32::from(time.weekday)
        && parts.yearday == u32::from(time.yearday)
        && parts.summer == 0
}
