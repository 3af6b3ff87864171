ghost use Rattle.std.specs.Prelude.{◌≡◌, ◌↔◌, option_copied, IsTrue};
ghost use Rattle.noninterference.specs.respect.Hidden.{may_be_hidden, may_differ, text_of_act};
ghost use Rattle.noninterference.specs.respect.Hidden.{are_as_long, AreAlike, MayDiffer};
ghost use Rattle.noninterference.specs.respect.Hidden.{text_of_call};
ghost use Rattle.noninterference.specs.Hiding.{AreSameAlong, StandAlike};

use crate::group::Group;
use kom_model::{ASKING_NUMBERS, HIDING_NUMBERS};
use kom_types::{Act, Call, Entry, NewText, lines_of};

/// A call that asks, that the reader refused, or one of the eleven whose change may be hidden.
fn may_be_hidden(call: &Call) -> bool
    ensures { result ≡ may_be_hidden call.now }
{
    let number = call.number();
    matches!(call, Call::Refused(_, _))
        || ASKING_NUMBERS.contains(&number)
        || HIDING_NUMBERS.contains(&number)
}

/// Whether an act of a session outside the group may be another in another world.
fn may_differ(group: &Group, act: &Act) -> bool
    ensures { result ≡ may_differ group.now act.now }
{
    match act {
        Act::Connect { .. } => false,
        Act::Call { session, call, .. } => !group.has_session(*session) && may_be_hidden(call),
        Act::Broken { .. } => false,
        Act::Drain { session } => !group.has_session(*session),
        Act::Flush => false,
        Act::Close { .. } => false,
    }
}

/// The text that a call makes, with an author.
fn text_of_call(call: &Call) -> Option<&NewText>
    ensures { option_copied result ≡ text_of_call call.now }
{
    match call {
        Call::CreateText(given) => Some(given.get()),
        _ => None,
    }
}

/// The text that an act makes, with an author.
fn text_of_act(act: &Act) -> Option<&NewText>
    ensures { option_copied result ≡ text_of_act act.now }
{
    match act {
        Act::Connect { .. } => None,
        Act::Call { call, .. } => text_of_call(call),
        Act::Broken { .. } => None,
        Act::Drain { .. } => None,
        Act::Flush => None,
        Act::Close { .. } => None,
    }
}

/// Two acts that make texts make texts as long, in bytes and in lines; and one that makes a text
/// stands against no other act.
fn are_as_long(one: &Act, other: &Act) -> bool
    ensures { result ≡ are_as_long (text_of_act one.now) (text_of_act other.now) }
{
    match text_of_act(one) {
        None => text_of_act(other).is_none(),
        Some(given) => match text_of_act(other) {
            None => false,
            Some(other_given) => {
                given.body.len() == other_given.body.len()
                    && lines_of(given.body.as_slice()) == lines_of(other_given.body.as_slice())
            }
        },
    }
}

/// Whether two acts of sessions outside the group may stand at one place.
fn may_both_differ(group: &Group, one: &Act, other: &Act) -> bool
    ensures { IsTrue result ↔ MayDiffer group.now one.now other.now }
{
    may_differ(group, one) && may_differ(group, other) && are_as_long(one, other)
}

/// Whether two entries may stand at one place.
fn may_stand(group: &Group, one: &Entry, other: &Entry) -> bool
    ensures { IsTrue result ↔ StandAlike group.now one.now other.now }
{
    if one.moment.seconds() != other.moment.seconds() {
        return false;
    }
    one.is_same(other) || may_both_differ(group, &one.act, &other.act)
}

/// Whether two lists of entries are as long and may stand beside each other, place by place.
fn are_alike(group: &Group, ones: &[Entry], others: &[Entry]) -> bool
    ensures { IsTrue result ↔ AreAlike group.now ones.now others.now }
{
    if ones.len() != others.len() {
        return false;
    }
    for place in 0..ones.len() {
        if !may_stand(group, &ones[place], &others[place]) {
            return false;
        }
    }
    true
}

/// Whether two lists of entries are those of two worlds that a group cannot tell apart: they are
/// as long, with equal moments, and differ in what sessions outside the group ask, drain, or
/// change in hiding, alone. Whether they are quiet in given states is not looked at.
pub fn two_worlds(group: &Group, ones: &[Entry], others: &[Entry]) -> bool
    ensures alike { IsTrue result ↔ AreAlike group.now ones.now others.now }
    ensures same { IsTrue result → AreSameAlong group.now ones.now others.now }
{
    are_alike(group, ones, others)
}
