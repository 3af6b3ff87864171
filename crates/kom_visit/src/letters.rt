//! What bytes of the server are as text, before a screen makes it harmless.

use kom_letters::{Charset, decode};
use kom_types::{Moment, Time};
use std::alloc::{AllocError, Global};

/// Bytes as UTF-8.
pub(crate) fn text_of(alloc: Global, bytes: &[u8], charset: Charset) -> Result<String, AllocError> {
    let letters = decode(alloc, bytes, charset)?;
    letters.as_slice().iter().copied().collect(alloc)
}

/// How far a zone of times is from UTC.
#[derive(Clone, Copy, Debug)]
pub struct Zone {
    pub is_east: bool,
    pub minutes: u16,
}

/// A moment in a zone.
pub(crate) fn time_of(alloc: Global, moment: Moment, zone: Zone) -> Result<String, AllocError> {
    let seconds = u64::from(zone.minutes) * 60;
    let there = if zone.is_east {
        moment.seconds().saturating_add(seconds)
    } else {
        moment.seconds().saturating_sub(seconds)
    };
    let time = Time::of(Moment::at_most(there));
    let year = time.year.saturating_add(1900);
    let month = time.month.saturating_add(1);
    let day = time.day;
    let hours = time.hours;
    let minutes = time.minutes;
    format!(in alloc; "{year}-{month:02}-{day:02} {hours:02}:{minutes:02}")
}
