ghost use Rattle.std.specs.Prelude.{◌≡◌, ◌≢◌, ◌<◌, ℕ, ⊤, true, length};
ghost use Rattle.kom_links.specs.declared.served.Served.{Served as ServedLink};
ghost use Rattle.kom_links.specs.DeskCalls.{DeskView, Flushes, AsksStopped};
ghost use Rattle.kom_links.specs.Outside.{LinkView, IsFresh};
ghost use Rattle.kom_hub.specs.Seats.{seat_view, IsHeard, Leaves};
ghost use Rattle.kom_hub.specs.Passing.{Passes, IsTimed, IsSeatOf, IsBlank};
ghost use Rattle.kom_hub.specs.Crowds.{IsKept, IsGuest, IsClosed, IsTold, HearsNews};

use crate::news::News;
use crate::place::Place;
use crate::seat::Seat;
use kom_links::{Clock, Deed, Desk, Link, Served, SessionEnd};
use kom_types::NotMade;
use std::alloc::Global;

/// A conversation with a client, over any desk, link and clock. No step waits.
pub trait Converse: Drop {
    /// It was served so far, by what is seen of its desk and its link.
    ghost kept: { Self → DeskView → LinkView → Type 0 };

    /// A link was served so.
    ghost talks: { DeskView → LinkView → ServedLink → Type 0 };

    /// It can be told of a flush.
    ghost hears: { Self → Type 0 };

    /// It can be told whether the desk is stopped.
    ghost heeds: { Self → Type 0 };

    /// It is over.
    ghost done: { Self → Type 0 };

    /// A conversation over a link on which nothing was done yet, and a desk that shows nothing.
    fn begin<L: Link>(alloc: Global, link: &L) -> Self
        ensures { (desk : DeskView) → IsBlank desk → IsFresh (L.view link.now)
            → kept result desk (L.view link.now) };

    /// Writes what was kept, reads once if something may be there, and makes some calls.
    fn collect<K: Desk, L: Link, C: Clock>(
        &mut self,
        desk: &mut K,
        link: &mut L,
        clock: &mut C,
        buffer: &mut [u8],
    )
        requires kept { kept self.old (K.view desk.old) (L.view link.old) }
        requires room { 0 < length buffer.old }
        ensures kept { kept self.new (K.view desk.new) (L.view link.new) }
        ensures timed { IsTimed (K.view desk.old) (C.gave clock.old) (K.view desk.new)
            (C.gave clock.new) }
        ensures on { K.goes_on desk.old desk.new };

    /// Makes some calls.
    fn act<K: Desk, L: Link, C: Clock>(&mut self, desk: &mut K, link: &L, clock: &mut C)
        requires { kept self.old (K.view desk.old) (L.view link.now) }
        ensures kept { kept self.new (K.view desk.new) (L.view link.now) }
        ensures timed { IsTimed (K.view desk.old) (C.gave clock.old) (K.view desk.new)
            (C.gave clock.new) }
        ensures on { K.goes_on desk.old desk.new };

    /// Takes what waits for its session until nothing does, or a block is printed.
    fn drain<K: Desk, L: Link, C: Clock>(&mut self, desk: &mut K, link: &L, clock: &mut C)
        requires { kept self.old (K.view desk.old) (L.view link.now) }
        ensures kept { kept self.new (K.view desk.new) (L.view link.now) }
        ensures timed { IsTimed (K.view desk.old) (C.gave clock.old) (K.view desk.new)
            (C.gave clock.new) }
        ensures on { K.goes_on desk.old desk.new };

    /// Takes what waits for its session, and writes it, until nothing does or the link takes
    /// nothing.
    fn deliver<K: Desk, L: Link, C: Clock>(&mut self, desk: &mut K, link: &mut L, clock: &mut C)
        requires { kept self.old (K.view desk.old) (L.view link.old) }
        ensures kept { kept self.new (K.view desk.new) (L.view link.new) }
        ensures timed { IsTimed (K.view desk.old) (C.gave clock.old) (K.view desk.new)
            (C.gave clock.new) }
        ensures on { K.goes_on desk.old desk.new };

    /// Closes its session. Returns how it ended, in the session that its desk shows.
    fn close<K: Desk, L: Link, C: Clock>(self, desk: &mut K, link: &L, clock: &mut C) -> SessionEnd
        requires kept { kept self (K.view desk.old) (L.view link.now) }
        requires done { done self }
        ensures talks { (session : ℕ) → IsSeatOf session (K.view desk.new).mine
            → talks (K.view desk.new) (L.view link.now)
            (record { session = session; end = result }) }
        ensures timed { IsTimed (K.view desk.old) (C.gave clock.old) (K.view desk.new)
            (C.gave clock.new) }
        ensures on { K.goes_on desk.old desk.new };

    /// Whether it can be told of a flush.
    fn may_flush(&self) -> bool
        ensures { result ≡ true → hears self.now };

    /// Whether it can be told whether the desk is stopped.
    fn may_ask(&self) -> bool
        ensures { result ≡ true → heeds self.now };

    /// A flush was made, or refused.
    fn flushed(&mut self, answer: Result<(), NotMade>)
        requires { hears self.old }
        ensures { (old new : DeskView) (link : LinkView) (moment : ℕ)
            → Flushes {X = ⊤} old moment answer new → kept self.old old link
            → kept self.new new link };

    /// The desk was asked whether it is stopped.
    fn asked(&mut self, answer: Result<bool, NotMade>)
        requires { heeds self.old }
        ensures { (old new : DeskView) (link : LinkView) → AsksStopped old answer new
            → kept self.old old link → kept self.new new link };

    /// Memory ran out, or nothing can be waited for.
    fn give_up(&mut self)
        ensures over { done self.new }
        ensures kept { (desk : DeskView) (link : LinkView) → kept self.old desk link
            → kept self.new desk link };

    /// Something may be there to be read.
    fn be_ready(&mut self)
        ensures { (desk : DeskView) (link : LinkView) → kept self.old desk link
            → kept self.new desk link };

    fn is_over(&self) -> bool
        ensures { result ≡ true → done self.now };

    /// Whether something printed is yet to be written.
    fn has_unwritten(&self) -> bool;

    /// Whether it is to be flushed before it goes on.
    fn owes_flush(&self) -> bool;

    /// Whether it could go on without being told of anything new.
    fn has_more(&self) -> bool;

    ghost kept_on: { (talk : Self) (old new : DeskView) (link : LinkView) → Passes old new
        → kept talk old link → kept talk new link };

    ghost talks_on: { (old new : DeskView) (link : LinkView) (served : ServedLink)
        → Passes old new → talks old link served → talks new link served };
}

/// One link of many.
#[derive(Drop)]
pub struct Guest<T, L> {
    pub talk: T,
    pub link: L,
    pub place: Place,
    /// The number of what it was last told of.
    pub told: u64,
    /// It has a turn in the next round, or in this one.
    pub is_listed: bool,
}

/// What a guest does in a turn.
#[derive(Clone, Copy)]
pub enum Turn {
    Collect,
    Act,
    Drain,
    Deliver,
}

impl<T: Converse, L: Link> Guest<T, L> {
    /// A guest at a link on which nothing was done yet, from whose seat nothing was connected.
    pub fn new(alloc: Global, link: L) -> Guest<T, L>
        requires { IsFresh (L.view link) }
        ensures nobody { result.place.session ≡ 0 }
        ensures heard { (desk : DeskView) → IsHeard desk result.place }
        ensures kept { (desk : DeskView) → IsKept T.kept T.talks L.view desk result }
    {
        let talk = T::begin(alloc, &link);
        Guest {
            talk,
            link,
            place: Place::new(),
            told: 0,
            is_listed: false,
        }
    }

    /// It takes a turn at the desk, from its seat.
    pub fn take_turn<K: Desk, C: Clock>(
        &mut self,
        turn: Turn,
        desk: &mut K,
        clock: &mut C,
        buffer: &mut [u8],
    )
        requires kept { IsKept T.kept T.talks L.view (K.view desk.old) self.old }
        requires room { 0 < length buffer.old }
        ensures served { IsKept T.kept T.talks L.view (K.view desk.new) self.new }
        ensures leaves { Leaves self.old.place (K.view desk.old) self.new.place (K.view desk.new) }
        ensures timed { IsTimed (seat_view self.old.place (K.view desk.old)) (C.gave clock.old)
            (seat_view self.new.place (K.view desk.new)) (C.gave clock.new) }
        ensures room { 0 < length buffer.new }
        ensures on { K.goes_on desk.old desk.new }
    {
        let mut seat = Seat {
            desk,
            place: &mut self.place,
        };
        match turn {
            Turn::Collect => self.talk.collect(&mut seat, &mut self.link, clock, buffer),
            Turn::Act => self.talk.act(&mut seat, &self.link, clock),
            Turn::Drain => self.talk.drain(&mut seat, &self.link, clock),
            Turn::Deliver => self.talk.deliver(&mut seat, &mut self.link, clock),
        }
    }

    /// Closes its session. Returns its link, with how it was served.
    pub fn close<K: Desk, C: Clock>(self, desk: &mut K, clock: &mut C) -> (L, Served)
        requires guest { IsGuest T.kept T.talks L.view (K.view desk.old) self }
        requires done { T.done self.talk }
        ensures closed { IsClosed T.kept T.talks L.view (K.view desk.old) (C.gave clock.old) self
            (K.view desk.new) (C.gave clock.new) result }
        ensures on { K.goes_on desk.old desk.new }
    {
        let Guest {
            talk,
            link,
            mut place,
            told: _,
            is_listed: _,
        } = self;
        let end = close_talk(talk, &link, &mut place, desk, clock);
        let session = place.session;
        (link, Served { session, end })
    }

    /// It is told of what the desk was asked for all, once by this number, where it can be told.
    pub fn tell(&mut self, number: u64, news: News)
        ensures { (before after : DeskView) → HearsNews news before after
            → IsTold T.kept T.talks L.view number before after self.old self.new }
    {
        if self.told == number {
            return;
        }
        match news {
            News::Flushed(answer) => self.tell_flushed(number, answer),
            News::Asked(answer) => self.tell_stopped(number, answer),
        }
    }

    /// It is told what a flush of all was answered.
    fn tell_flushed(&mut self, number: u64, answer: Result<(), NotMade>)
        requires { self.old.told ≢ number }
        ensures { (before after : DeskView) (moment : ℕ)
            → Flushes {X = ⊤} before moment answer after
            → IsTold T.kept T.talks L.view number before after self.old self.new }
    {
        if self.place.session == 0 || !self.talk.may_flush() {
            return;
        }
        self.place.tell(Deed::Flush, answer);
        self.talk.flushed(answer);
        self.told = number;
    }

    /// It is told whether the server is stopped.
    fn tell_stopped(&mut self, number: u64, answer: Result<bool, NotMade>)
        requires { self.old.told ≢ number }
        ensures { (before after : DeskView) → AsksStopped before answer after
            → IsTold T.kept T.talks L.view number before after self.old self.new }
    {
        if !self.talk.may_ask() {
            return;
        }
        self.place.asked(answer);
        self.talk.asked(answer);
        self.told = number;
    }

    /// It is listed for the next round. Returns whether it was not yet.
    pub(crate) fn list(&mut self) -> bool
        ensures kept { (desk : DeskView) → IsGuest T.kept T.talks L.view desk self.old
            → IsGuest T.kept T.talks L.view desk self.new }
        ensures place { self.new.place ≡ self.old.place }
    {
        let is_new = !self.is_listed;
        self.is_listed = true;
        is_new
    }

    /// Something may be there to be read.
    pub(crate) fn ready(&mut self)
        ensures kept { (desk : DeskView) → IsGuest T.kept T.talks L.view desk self.old
            → IsGuest T.kept T.talks L.view desk self.new }
        ensures place { self.new.place ≡ self.old.place }
    {
        self.talk.be_ready();
    }

    /// Its turn is over. Returns whether it has one in the next round.
    pub(crate) fn rest(&mut self) -> bool
        ensures kept { (desk : DeskView) → IsGuest T.kept T.talks L.view desk self.old
            → IsGuest T.kept T.talks L.view desk self.new }
        ensures place { self.new.place ≡ self.old.place }
    {
        let has_more = self.talk.has_more() || self.talk.owes_flush();
        self.is_listed = has_more;
        has_more
    }

    /// Memory ran out, or nothing can be waited for.
    pub fn give_up(&mut self)
        ensures kept { (desk : DeskView) → IsGuest T.kept T.talks L.view desk self.old
            → IsGuest T.kept T.talks L.view desk self.new }
        ensures place { self.new.place ≡ self.old.place }
        ensures over { T.done self.new.talk }
    {
        self.talk.give_up();
    }
}

/// Closes the session of a place. Returns how its conversation ended.
fn close_talk<T: Converse, L: Link, K: Desk, C: Clock>(
    talk: T,
    link: &L,
    place: &mut Place,
    desk: &mut K,
    clock: &mut C,
) -> SessionEnd
    requires kept { T.kept talk (seat_view place.old (K.view desk.old)) (L.view link.now) }
    requires done { T.done talk }
    ensures talks { (session : ℕ)
        → IsSeatOf session (seat_view place.new (K.view desk.new)).mine
        → T.talks (seat_view place.new (K.view desk.new)) (L.view link.now)
        (record { session = session; end = result }) }
    ensures leaves { Leaves place.old (K.view desk.old) place.new (K.view desk.new) }
    ensures timed { IsTimed (seat_view place.old (K.view desk.old)) (C.gave clock.old)
        (seat_view place.new (K.view desk.new)) (C.gave clock.new) }
    ensures on { K.goes_on desk.old desk.new }
{
    let mut seat = Seat { desk, place };
    talk.close(&mut seat, link, clock)
}
