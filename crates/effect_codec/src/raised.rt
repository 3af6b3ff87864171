// Counters that are raised, as bytes.
ghost use Rattle.std.specs.Prelude.{◌≡◌, ◌+◌, ◌≤◌, ◌++◌, vec_len, vec_capacity};
ghost use Rattle.effect_codec.specs.Parts as parts;
ghost use Rattle.effect_codec.specs.Parts.{GivesRaised, coded_raised, IsRaisedInRange};

use crate::fields::{put_amount, put_byte, put_numbers};
use crate::reader::{amount_of, byte_of, number_of, rest_of};
use kom_types::{Raised, RaisedCounter};

pub(crate) const RAISED: u8 = 25;

pub(crate) const RAISED_LEN: usize = 14;

/// The bytes begin with no counter that is raised, whatever may follow them.
#[derive(Clone, Copy, Debug, PartialEq, Eq)]
pub struct NotRaised;

/// The raised counter that the bytes begin with, which has 14 bytes; or none yet, where more bytes
/// have to come. It takes no memory.
pub fn read_raised(bytes: &[u8]) -> Result<Option<Raised>, NotRaised>
    ensures { GivesRaised bytes.now result }
{
    if bytes.is_empty() {
        return Ok(None);
    }
    if byte_of(bytes, 0) != RAISED {
        return Err(NotRaised);
    }
    if bytes.len() == 1 {
        return Ok(None);
    }
    let Some(counter) = raised_counter(byte_of(bytes, 1)) else {
        return Err(NotRaised);
    };
    if bytes.len() < RAISED_LEN {
        return Ok(None);
    }
    Ok(Some(Raised {
        counter,
        object: number_of(rest_of(bytes, 2)),
        next: amount_of(rest_of(bytes, 6)),
    }))
}

/// Puts the bytes of a raised counter at the end. Takes no memory.
pub(crate) fn append_raised(out: &mut Vec<u8>, given: Raised)
    requires { vec_len out.old + 14 ≤ vec_capacity out.old }
    ensures items { out.new.items ≡ out.old.items ++ coded_raised given }
    ensures capacity { vec_capacity out.old ≤ vec_capacity out.new }
    ensures range { IsRaisedInRange given }
{
    put_byte(out, RAISED);
    put_byte(out, raised_number(given.counter));
    put_numbers(out, &[given.object]);
    put_amount(out, given.next);
}

fn raised_number(counter: RaisedCounter) -> u8
    ensures { result ≡ parts.raised_number counter }
{
    match counter {
        RaisedCounter::Conferences => 1,
        RaisedCounter::Texts => 2,
        RaisedCounter::Locals => 3,
        RaisedCounter::Created => 4,
        RaisedCounter::TextItems => 5,
        RaisedCounter::ConferenceItems => 6,
        RaisedCounter::Sessions => 7,
    }
}

fn raised_counter(number: u8) -> Option<RaisedCounter>
    ensures { result ≡ parts.raised_counter number }
{
    match number {
        1 => Some(RaisedCounter::Conferences),
        2 => Some(RaisedCounter::Texts),
        3 => Some(RaisedCounter::Locals),
        4 => Some(RaisedCounter::Created),
        5 => Some(RaisedCounter::TextItems),
        6 => Some(RaisedCounter::ConferenceItems),
        7 => Some(RaisedCounter::Sessions),
        _ => None,
    }
}
