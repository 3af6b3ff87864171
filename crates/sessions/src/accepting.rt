ghost use Rattle.std.specs.Prelude.{◌≡◌, ℕ, ◌+◌, ◌^◌, ◌<◌, ◌≤◌, [], true, false, nat_eq};
ghost use Rattle.std.specs.Prelude.{length, position, slice_get, nat_lt, OnOk, IsTrue};
ghost use Rattle.std.specs.Set.{is_member};
ghost use Rattle.kom_types.specs.Bits.{is_on};
ghost use Rattle.row_slots.specs.Lists.{list_of, room_of, HasOnlyChanged};
ghost use Rattle.sessions.specs.Accepting.{HasRoom, place_among, after_move, MayMove};

use kom_types::Memory;
use row_slots::Lists;
use std::alloc::Global;

/// How many messages there may be: each has a bit.
const MESSAGES: u32 = 32;

/// The numbers of the sessions that accept a message, rising, for each message.
#[derive(Drop)]
pub(crate) struct Accepting {
    lists: Lists,
}

impl Accepting {
    pub(crate) fn new(alloc: Global) -> Accepting
        ensures { (message : ℕ) → list_of result.lists message ≡ [] }
    {
        Accepting {
            lists: Lists::new(alloc),
        }
    }

    /// The number at a place among those of the sessions that accept a message.
    pub(crate) fn nth(&self, message: u32, place: usize) -> Option<u32>
        ensures { result ≡ slice_get (list_of self.now.lists message) place }
    {
        self.lists.list(message).get(place).copied()
    }

    /// Makes room for so many sessions in each list.
    pub(crate) fn reserve(&mut self, sessions: usize) -> Result<(), Memory>
        ensures lists { (message : ℕ)
            → list_of self.new.lists message ≡ list_of self.old.lists message }
        ensures ok { OnOk result (HasRoom self.new.lists sessions) }
        ensures room { (count : ℕ) → HasRoom self.old.lists count → HasRoom self.new.lists count }
    {
        for message in 0..MESSAGES {
            self.reserve_in(message, sessions)?;
        }
        Ok(())
    }

    /// Makes room for so many sessions in the list of a message.
    fn reserve_in(&mut self, message: u32, sessions: usize) -> Result<(), Memory>
        ensures lists { (other : ℕ)
            → list_of self.new.lists other ≡ list_of self.old.lists other }
        ensures ok { OnOk result (sessions
            ≤ length (list_of self.new.lists message) + room_of self.new.lists message) }
        ensures room { (other : ℕ)
            → room_of self.old.lists other ≤ room_of self.new.lists other }
    {
        let count = self.lists.list(message).len();
        self.lists.reserve(message, sessions.saturating_sub(count))?;
        Ok(())
    }

    /// A session that accepted the messages of these bits accepts those of other ones. Takes no
    /// memory.
    pub(crate) fn change(&mut self, session: u32, was: u32, is: u32)
        requires { (message : ℕ) → message < 32
            → MayMove self.old.lists session message
            (is_on (2 ^ message) was) (is_on (2 ^ message) is) }
        ensures lists { (message : ℕ) → message < 32 → list_of self.new.lists message
            ≡ after_move session (is_on (2 ^ message) was) (is_on (2 ^ message) is)
            (list_of self.old.lists message) }
        ensures room { (count : ℕ) → HasRoom self.old.lists count → HasRoom self.new.lists count }
    {
        for message in 0..MESSAGES {
            self.change_in(
                message,
                session,
                has_bit(was, message),
                has_bit(is, message),
            );
        }
    }

    /// The same of one message.
    #[tactic(auto, using(crate::proofs::Moved::insert_placed, crate::proofs::Moved::room_left))]
    fn change_in(&mut self, message: u32, session: u32, was: bool, is: bool)
        requires { MayMove self.old.lists session message was is }
        ensures list { list_of self.new.lists message
            ≡ after_move session was is (list_of self.old.lists message) }
        ensures room { length (list_of self.old.lists message) + room_of self.old.lists message
            ≤ length (list_of self.new.lists message) + room_of self.new.lists message }
        ensures others { HasOnlyChanged self.old.lists self.new.lists message }
    {
        if was == is {
            return;
        }
        if is {
            let place = self.place_of(message, session);
            self.lists.insert(message, place, session);
        } else {
            self.lists.remove(message, session);
        }
    }

    /// The place of a session among those that accept a message: before the first of a greater
    /// number.
    fn place_of(&self, message: u32, session: u32) -> usize
        ensures { result ≡ place_among session (list_of self.now.lists message) }
    {
        let list = self.lists.list(message);
        match first_above(list, session) {
            Some(place) => place,
            None => list.len(),
        }
    }
}

/// The place of the first number that is greater.
fn first_above(list: &[u32], session: u32) -> Option<usize>
    ensures { result ≡ position (nat_lt session) list.now }
{
    list.iter().position(|other| session < *other)
}

/// Whether the bit of a message is on.
fn has_bit(bits: u32, message: u32) -> bool
    requires { message < 32 }
    ensures { result ≡ is_on (2 ^ message) bits }
{
    bits & (1 << message) != 0
}
