ghost use Rattle.std.specs.Prelude.{◌≡◌, ◌<◌, ℕ, Option, List, Some, true, length};
ghost use Rattle.slab.specs.Slab.{HasRoomFor};
ghost use Rattle.kom_links.specs.declared.gate.Next.TheVariants as next;
ghost use Rattle.kom_links.specs.DeskCalls.{DeskView, AsksStopped};
ghost use Rattle.kom_links.specs.Doors.{GateView, Admits};
ghost use Rattle.kom_hub.specs.declared.guest.Guest.{Guest as OneOf};
ghost use Rattle.kom_hub.specs.Seats.{IsHeard};
ghost use Rattle.kom_hub.specs.Crowds.{guests, IsKept, Stands, CanGo, Carries, CarriesTo};
ghost use Rattle.kom_hub.specs.Crowds.{HalfStands, HearsNews};

use crate::guest::{Converse, Guest, Turn};
use crate::news::News;
use kom_links::{Clock, Desk, Gate, Link};
use kom_types::NotMade;
use slab::Slab;

/// How many guests a worker has at most.
pub const MOST_GUESTS: usize = 1_024;

/// The guest at a key, if there is one, takes a turn.
pub fn turn_at<T: Converse, K: Desk, L: Link, C: Clock>(
    crowd: &mut Slab<Guest<T, L>>,
    key: usize,
    turn: Turn,
    desk: &mut K,
    clock: &mut C,
    buffer: &mut [u8],
)
    requires room { 0 < length buffer.old }
    requires can { CanGo T.kept T.talks L.view (K.view desk.old) (C.gave clock.old) crowd.old }
    ensures room { 0 < length buffer.new }
    ensures stands { Carries T.kept T.talks L.view (K.view desk.old) (C.gave clock.old) crowd.old
        (K.view desk.new) (C.gave clock.new) crowd.new }
    ensures on { K.goes_on desk.old desk.new }
{
    let Some(guest) = crowd.get_mut(key) else {
        return;
    };
    guest.take_turn(turn, desk, clock, buffer);
}

/// A guest from whose seat nothing was connected comes in. Returns its key.
pub fn admit<T: Converse, L: Link>(crowd: &mut Slab<Guest<T, L>>, guest: Guest<T, L>) -> usize
    requires room { HasRoomFor crowd.old 1 }
    requires nobody { guest.place.session ≡ 0 }
    requires heard { (desk : DeskView) → IsHeard desk guest.place }
    ensures key { result ≡ crowd.old.vacant_key }
    ensures stands { (begun : Option (List ℕ)) (desk : DeskView) (gave : Option (List ℕ))
        (before after : GateView L) (link : L) → IsKept T.kept T.talks L.view desk guest
        → Admits before (next.Link link) after
        → Stands T.kept T.talks L.view begun desk gave crowd.old before
        → Stands T.kept T.talks L.view begun desk gave crowd.new after }
{
    crowd.insert_reserved(guest)
}

/// Whether there is a guest at a key, and it is over.
pub fn is_over_at<T: Converse, L: Link>(crowd: &Slab<Guest<T, L>>, key: usize) -> bool
    ensures { result ≡ true → (guest : OneOf T L) × (guests crowd.now key ≡ Some guest)
        × T.done guest.talk }
{
    match crowd.get(key) {
        Some(guest) => guest.talk.is_over(),
        None => false,
    }
}

/// The guest at a key, which is over, leaves, and its link is given back.
pub fn leave<T: Converse, K: Desk, G: Gate, C: Clock>(
    crowd: &mut Slab<Guest<T, G::Link>>,
    key: usize,
    desk: &mut K,
    gate: &mut G,
    clock: &mut C,
)
    requires over { (guest : OneOf T G.Link) × (guests crowd.old key ≡ Some guest)
        × T.done guest.talk }
    requires can { CanGo T.kept T.talks G.Link.view (K.view desk.old) (C.gave clock.old)
        crowd.old }
    ensures stands { CarriesTo T.kept T.talks G.Link.view (K.view desk.old) (C.gave clock.old)
        crowd.old (G.view gate.old) (K.view desk.new) (C.gave clock.new) crowd.new
        (G.view gate.new) }
    ensures ended { (G.view gate.new).ended ≡ (G.view gate.old).ended }
    ensures on { K.goes_on desk.old desk.new }
{
    let guest = crowd.remove(key);
    let (link, served) = guest.close(desk, clock);
    gate.give_back(link, served);
}

/// The guest at a key, if there is one, is told of what the desk was asked for all.
pub fn tell_at<T: Converse, L: Link>(
    crowd: &mut Slab<Guest<T, L>>,
    key: usize,
    number: u64,
    news: News,
)
    ensures { (begun : Option (List ℕ)) (before after : DeskView) (gave : Option (List ℕ))
        (gate : GateView L) → HearsNews news before after
        → HalfStands T.kept T.talks L.view begun number before after gave crowd.old gate
        → HalfStands T.kept T.talks L.view begun number before after gave crowd.new gate }
{
    let Some(guest) = crowd.get_mut(key) else {
        return;
    };
    guest.tell(number, news);
}

/// The guests at some keys are told of what the desk was asked for all.
pub fn tell_some<T: Converse, L: Link>(
    crowd: &mut Slab<Guest<T, L>>,
    keys: &[usize],
    number: u64,
    news: News,
)
    ensures { (begun : Option (List ℕ)) (before after : DeskView) (gave : Option (List ℕ))
        (gate : GateView L) → HearsNews news before after
        → HalfStands T.kept T.talks L.view begun number before after gave crowd.old gate
        → HalfStands T.kept T.talks L.view begun number before after gave crowd.new gate }
{
    for place in 0..keys.len() {
        tell_at(crowd, keys[place], number, news);
    }
}

/// The guests at all keys below one are told of what the desk was asked for all.
pub fn tell_all<T: Converse, L: Link>(
    crowd: &mut Slab<Guest<T, L>>,
    keys: usize,
    number: u64,
    news: News,
)
    ensures { (begun : Option (List ℕ)) (before after : DeskView) (gave : Option (List ℕ))
        (gate : GateView L) → HearsNews news before after
        → HalfStands T.kept T.talks L.view begun number before after gave crowd.old gate
        → HalfStands T.kept T.talks L.view begun number before after gave crowd.new gate }
{
    for key in 0..keys {
        tell_at(crowd, key, number, news);
    }
}

/// Makes one flush for all, and tells the guests at some keys what it was answered.
pub fn flush_for<T: Converse, K: Desk, L: Link, C: Clock>(
    crowd: &mut Slab<Guest<T, L>>,
    keys: &[usize],
    number: u64,
    desk: &mut K,
    clock: &mut C,
)
    ensures stands { Carries T.kept T.talks L.view (K.view desk.old) (C.gave clock.old) crowd.old
        (K.view desk.new) (C.gave clock.new) crowd.new }
    ensures on { K.goes_on desk.old desk.new }
{
    let answer = desk.flush(clock.now());
    tell_some(crowd, keys, number, News::Flushed(answer));
}

/// Asks once for all whether the server is stopped, and if so, or if it cannot be asked, tells all
/// guests below a key. Returns the answer.
pub fn ask_for<T: Converse, K: Desk, L: Link>(
    crowd: &mut Slab<Guest<T, L>>,
    keys: usize,
    number: u64,
    desk: &mut K,
) -> Result<bool, NotMade>
    ensures stands { (gave : Option (List ℕ)) → Carries T.kept T.talks L.view
        (K.view desk.old) gave crowd.old (K.view desk.new) gave crowd.new }
    ensures asks { AsksStopped (K.view desk.old) result (K.view desk.new) }
    ensures on { K.goes_on desk.old desk.new }
{
    let answer = desk.stopped();
    if answer == Ok(false) {
        return answer;
    }
    tell_all(crowd, keys, number, News::Asked(answer));
    answer
}

/// The guest at a key, if there is one, gives up.
pub fn give_up_at<T: Converse, L: Link>(crowd: &mut Slab<Guest<T, L>>, key: usize)
    ensures { (desk : DeskView) (gave : Option (List ℕ))
        → Carries T.kept T.talks L.view desk gave crowd.old desk gave crowd.new }
{
    let Some(guest) = crowd.get_mut(key) else {
        return;
    };
    guest.give_up();
}
