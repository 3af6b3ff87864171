//! What replies tell. One of another kind tells nothing, as one that did not come.
ghost use Rattle.std.specs.Prelude.{◌≡◌};
ghost use Rattle.kom_sweep.specs.Replies.{number_in, stat_in, conference_in, person_in};
ghost use Rattle.kom_sweep.specs.Replies.{refusal_in, is_refused, is_short, is_last_conference};
ghost use Rattle.kom_sweep.specs.Walks.{number_above};

use kom_types::{Boxed, Conference, Person, Reply, TextStat, errors};

/// What a reply tells of a walk: the next number, if it is greater than another, and whether it
/// says that there is no further conference.
#[derive(Clone, Copy)]
pub(crate) struct Next {
    pub number: Option<u32>,
    pub is_last: bool,
}

pub(crate) fn next_in(reply: Option<Reply>, at: u32) -> Next
    ensures number { result.number ≡ number_above at (number_in reply) }
    ensures is_last { result.is_last ≡ is_last_conference reply }
{
    Next {
        number: above(number_in(&reply), at),
        is_last: is_last_conference(&reply),
    }
}

fn number_in(reply: &Option<Reply>) -> Option<u32>
    ensures { result ≡ number_in reply.now }
{
    match reply {
        Some(Reply::Number(number)) => Some(*number),
        _ => None,
    }
}

/// A number, if it is greater than another.
fn above(number: Option<u32>, at: u32) -> Option<u32>
    ensures { result ≡ number_above at number }
{
    match number {
        Some(number) if at < number => Some(number),
        _ => None,
    }
}

/// Lets a reply go.
pub(crate) fn forget(reply: Option<Reply>) {
    drop(reply);
}

pub(crate) fn stat_in(reply: Option<Reply>) -> Option<Boxed<TextStat>>
    ensures { result ≡ stat_in reply }
{
    match reply {
        Some(Reply::TextStat(stat)) => Some(stat),
        _ => None,
    }
}

pub(crate) fn conference_in(reply: Option<Reply>) -> Option<Boxed<Conference>>
    ensures { result ≡ conference_in reply }
{
    match reply {
        Some(Reply::Conference(conference)) => Some(conference),
        _ => None,
    }
}

pub(crate) fn person_in(reply: Option<Reply>) -> Option<Boxed<Person>>
    ensures { result ≡ person_in reply }
{
    match reply {
        Some(Reply::Person(person)) => Some(person),
        _ => None,
    }
}

/// The code and the status of a refusal.
pub(crate) fn refusal_of(reply: Option<Reply>) -> Option<(u32, u32)>
    ensures { result ≡ refusal_in reply }
{
    refusal_in(&reply)
}

pub(crate) fn is_refused(reply: Option<Reply>) -> bool
    ensures { result ≡ is_refused reply }
{
    refusal_in(&reply).is_some()
}

fn refusal_in(reply: &Option<Reply>) -> Option<(u32, u32)>
    ensures { result ≡ refusal_in reply.now }
{
    match reply {
        Some(Reply::Refused(code, status)) => Some((*code, *status)),
        _ => None,
    }
}

/// Whether memory ran out for the call.
pub(crate) fn is_short(reply: &Option<Reply>) -> bool
    ensures { result ≡ is_short reply.now }
{
    match refusal_in(reply) {
        Some((code, _)) => code == errors::OUT_OF_MEMORY,
        None => false,
    }
}

/// Whether there is no further conference.
fn is_last_conference(reply: &Option<Reply>) -> bool
    ensures { result ≡ is_last_conference reply.now }
{
    match refusal_in(reply) {
        Some((code, _)) => code == errors::UNDEFINED_CONFERENCE,
        None => false,
    }
}
