ghost use Rattle.std.specs.Prelude.{◌≡◌, ℕ, List, [], true, Option, Ok, IfOk, IfSome};
ghost use Rattle.slab.specs.Slab.{slab_len};
ghost use Rattle.kom_links.specs.DeskCalls.{DeskView};
ghost use Rattle.kom_links.specs.Doors.{GateView, IsNewGate, IsLeft};
ghost use Rattle.kom_hub.specs.Hub.{AllGivenBack, IsServedCrowd, IsWhy, SaidStopped};
ghost use Rattle.kom_hub.specs.Hub.{IsEmptyHub, CanServe, Goes, GoesAlone};

use crate::crowd::{MOST_GUESTS, admit, ask_for, flush_for};
use crate::guest::{Converse, Guest, Turn};
use crate::rounds::{
    collect_some, give_up_all, go_on_some, list_at, list_going, list_silent, owe_flush, ready_at,
    turn_some,
};
use indexmap::IndexMap;
use kom_links::{Clock, Link, NewsDesk, Next, PolledGate, has_risen};
use kom_types::{Memory, NotMade};
use slab::Slab;
use std::alloc::Global;
use std::sync::Wait;

/// How many are let in in one round.
const ARRIVALS: usize = 16;

/// How many batches of calls are made in one round before what they gave is written.
const BATCHES: usize = 4;

/// How many bytes are read at a time, at most.
const PIECE: usize = 8_192;

/// In each round of this number, and in each in which nothing came, those are looked at whose links
/// may have been silent, or taken nothing, for too long. Each look of this number is at all guests.
const LOOKS: u32 = 60;

/// Why a hub ended.
#[derive(Clone, Copy, Debug, PartialEq, Eq)]
pub enum HubEnd {
    /// The gate has ended.
    Ended,
    /// The server was stopped.
    Stopped,
    /// The gate failed.
    GateFault,
}

/// A worker that serves many links at a time over one desk, in rounds with one flush for all.
pub struct Hub<T: Converse, L: Link> {
    pub(crate) alloc: Global,
    pub(crate) guests: Slab<Guest<T, L>>,
    // The keys of the guests that have a session.
    pub(crate) sessions: IndexMap<u32, usize>,
    // Whose turn the next round has, and this one.
    pub(crate) listed: Vec<usize>,
    pub(crate) turns: Vec<usize>,
    pub(crate) buffer: Vec<u8>,
    // How much news there was when it was last looked at.
    pub(crate) news: u64,
    // The number of what was last told to all.
    pub(crate) number: u64,
    pub(crate) rounds: u32,
    pub(crate) looks: u32,
    // Another worker rang since the news was looked at, or a guest left.
    pub(crate) is_rung: bool,
    pub(crate) has_left: bool,
    // As many were let in as may be in one round: somebody more may have come.
    pub(crate) is_sought: bool,
    pub(crate) is_stopped: bool,
    pub(crate) has_ended: bool,
}

// A call of its own, so that whoever lets a hub go has one step to prove.
impl<T: Converse, L: Link> Drop for Hub<T, L> {
    fn drop(self) {
        let Hub {
            alloc: _,
            guests,
            sessions,
            listed,
            turns,
            buffer,
            news: _,
            number: _,
            rounds: _,
            looks: _,
            is_rung: _,
            has_left: _,
            is_sought: _,
            is_stopped: _,
            has_ended: _,
        } = self;
        drop((guests, sessions, listed));
        drop((turns, buffer));
    }
}

impl<T: Converse, L: Link> Hub<T, L> {
    /// A hub in which nobody is. All room that it takes is taken here.
    pub fn new(alloc: Global) -> Result<Hub<T, L>, Memory>
        ensures { IfOk result (λ hub. IsEmptyHub hub) }
    {
        Ok(Hub {
            alloc,
            guests: Slab::with_capacity(alloc, MOST_GUESTS)?,
            sessions: IndexMap::with_capacity(alloc, MOST_GUESTS)?,
            listed: Vec::with_capacity(alloc, MOST_GUESTS)?,
            turns: Vec::with_capacity(alloc, MOST_GUESTS)?,
            buffer: vec![in alloc; 0u8; PIECE]?,
            news: 0,
            number: 0,
            rounds: 0,
            looks: 0,
            is_rung: false,
            has_left: false,
            is_sought: false,
            is_stopped: false,
            has_ended: false,
        })
    }

    /// Serves the links at a gate, many at a time, until the gate has ended or failed, or the
    /// server is stopped, and nobody is left.
    pub fn serve<R: Wait, K: NewsDesk, G: PolledGate<Link = L>, C: Clock>(
        &mut self,
        rt: &R,
        desk: &mut K,
        gate: &mut G,
        clock: &mut C,
    ) -> HubEnd
        requires empty { IsEmptyHub self.old }
        requires new { (K.view desk.old).mine ≡ [] }
        requires gate { IsNewGate (G.view gate.old) }
        ensures back { AllGivenBack (G.view gate.new) }
        ensures served { IsServedCrowd T.talks L.view (C.gave clock.old) (K.view desk.new)
            (C.gave clock.new) (G.view gate.new).returned }
        ensures why { IsWhy result (K.view desk.new) (G.view gate.new) }
        ensures on { K.goes_on desk.old desk.new }
    {
        for _ in rt.forever() {
            if let Some(end) = self.ask(desk, gate) {
                return end;
            }
            self.round(desk, gate, clock);
        }
        unreachable!()
    }

    /// Asks once for all whether the server is stopped. Returns why the hub ends, if it does: then
    /// nobody is left.
    fn ask<K: NewsDesk, G: PolledGate<Link = L>>(
        &mut self,
        desk: &mut K,
        gate: &mut G,
    ) -> Option<HubEnd>
        requires can { (gave : Option (List ℕ)) × CanServe T.kept T.talks L.view self.old
            (K.view desk.old) gave (G.view gate.old) }
        ensures goes { (gave : Option (List ℕ)) → Goes T.kept T.talks L.view
            self.old (K.view desk.old) gave (G.view gate.old)
            self.new (K.view desk.new) gave (G.view gate.new) }
        ensures nobody { IfSome result (λ end. slab_len self.new.guests ≡ 0) }
        ensures why { IfSome result (λ end. IsWhy end (K.view desk.new) (G.view gate.new)) }
        ensures on { K.goes_on desk.old desk.new }
    {
        self.number = self.number.wrapping_add(1);
        let answer = ask_for(&mut self.guests, MOST_GUESTS, self.number, desk);
        if self.guests.is_empty() {
            return self.end(gate, answer);
        }
        if answer != Ok(false) {
            self.heed(gate, answer);
        }
        None
    }

    /// Why a hub in which nobody is ends, if it does.
    fn end<G: PolledGate<Link = L>>(
        &self,
        gate: &G,
        answer: Result<bool, NotMade>,
    ) -> Option<HubEnd>
        requires ended { self.now.has_ended ≡ true → (G.view gate.now).ended ≡ true }
        ensures { (desk : DeskView) → (answer ≡ Ok true → SaidStopped desk)
            → IfSome result (λ end. IsWhy end desk (G.view gate.now)) }
    {
        match answer {
            Ok(true) => Some(HubEnd::Stopped),
            Ok(false) | Err(_) => self.end_of_gate(gate),
        }
    }

    /// Why a hub in which nobody is ends by its gate, if it does.
    fn end_of_gate<G: PolledGate<Link = L>>(&self, gate: &G) -> Option<HubEnd>
        requires ended { self.now.has_ended ≡ true → (G.view gate.now).ended ≡ true }
        ensures { (desk : DeskView) → IfSome result (λ end. IsWhy end desk (G.view gate.now)) }
    {
        if self.has_ended {
            return Some(HubEnd::Ended);
        }
        if gate.faults() != 0 {
            return Some(HubEnd::GateFault);
        }
        None
    }

    /// All were told that the server is stopped, or cannot be asked: those that have something to
    /// do for it have a turn. A stop is told to the other workers, once.
    fn heed<G: PolledGate<Link = L>>(&mut self, gate: &mut G, answer: Result<bool, NotMade>)
        ensures { GoesAlone T.kept T.talks L.view self.old (G.view gate.old)
            self.new (G.view gate.new) }
    {
        list_going(&mut self.guests, MOST_GUESTS, &mut self.listed);
        let was_stopped = self.is_stopped;
        self.is_stopped = answer == Ok(true);
        ring_if(gate, self.is_stopped && !was_stopped);
    }

    /// One round: who may be ready is found, some are let in, and all that are listed take turns.
    fn round<K: NewsDesk, G: PolledGate<Link = L>, C: Clock>(
        &mut self,
        desk: &mut K,
        gate: &mut G,
        clock: &mut C,
    )
        requires can { CanServe T.kept T.talks L.view self.old (K.view desk.old) (C.gave clock.old)
            (G.view gate.old) }
        ensures goes { Goes T.kept T.talks L.view
            self.old (K.view desk.old) (C.gave clock.old) (G.view gate.old)
            self.new (K.view desk.new) (C.gave clock.new) (G.view gate.new) }
        ensures on { K.goes_on desk.old desk.new }
    {
        self.wait(gate);
        self.let_some_in(gate);
        self.take_turns(desk, gate, clock);
    }

    /// Waits where nobody has a turn, and lists those that may be ready.
    fn wait<G: PolledGate<Link = L>>(&mut self, gate: &mut G)
        ensures { GoesAlone T.kept T.talks L.view self.old (G.view gate.old)
            self.new (G.view gate.new) }
    {
        let has_turns = !self.listed.is_empty();
        let is_busy = has_turns || self.is_rung || self.has_left || self.is_sought;
        self.wait_once(gate, is_busy);
        let came = self.list_ready(gate);
        let rang = gate.was_rung();
        self.is_rung = rang || self.is_rung;
        self.look(is_busy || came || rang);
    }

    /// Waits once. Where nothing can be waited for, all give up.
    fn wait_once<G: PolledGate<Link = L>>(&mut self, gate: &mut G, is_busy: bool)
        ensures { GoesAlone T.kept T.talks L.view self.old (G.view gate.old)
            self.new (G.view gate.new) }
    {
        let faults = gate.faults();
        gate.wait(is_busy);
        if has_risen(faults, gate.faults()) {
            give_up_all(&mut self.guests, MOST_GUESTS, &mut self.listed);
        }
    }

    /// Lists those that may be ready. Returns whether there was one.
    fn list_ready<G: PolledGate<Link = L>>(&mut self, gate: &mut G) -> bool
        ensures { GoesAlone T.kept T.talks L.view self.old (G.view gate.old)
            self.new (G.view gate.new) }
    {
        for count in 0..MOST_GUESTS {
            let Some(key) = gate.next_ready() else {
                return 0 < count;
            };
            ready_at(&mut self.guests, key);
            list_at(&mut self.guests, key, &mut self.listed);
        }
        true
    }

    /// Looks at those whose links may have been silent, or taken nothing, for too long; seldom
    /// where there is something to do.
    fn look(&mut self, is_busy: bool)
        ensures { (gate : GateView L) → GoesAlone T.kept T.talks L.view self.old gate
            self.new gate }
    {
        self.rounds = self.rounds.wrapping_add(1);
        if is_busy && self.rounds % LOOKS != 0 {
            return;
        }
        self.looks = self.looks.wrapping_add(1);
        let all = self.looks % LOOKS == 0;
        list_silent(&mut self.guests, MOST_GUESTS, all, &mut self.listed);
    }

    /// Lets some in, unless the server is stopped or the gate has ended or failed.
    fn let_some_in<G: PolledGate<Link = L>>(&mut self, gate: &mut G)
        requires can { (desk : DeskView) × (gave : Option (List ℕ)) × CanServe T.kept T.talks L.view
            self.old desk gave (G.view gate.old) }
        ensures { GoesAlone T.kept T.talks L.view self.old (G.view gate.old)
            self.new (G.view gate.new) }
    {
        self.is_sought = false;
        if self.is_stopped || self.has_ended || gate.faults() != 0 {
            return;
        }
        for _ in 0..ARRIVALS {
            if !self.let_one_in(gate) {
                return;
            }
        }
        self.is_sought = true;
    }

    /// Lets one in, if somebody has come and there is room. Returns whether it did.
    fn let_one_in<G: PolledGate<Link = L>>(&mut self, gate: &mut G) -> bool
        requires can { (desk : DeskView) × (gave : Option (List ℕ)) × CanServe T.kept T.talks L.view
            self.old desk gave (G.view gate.old) }
        ensures { GoesAlone T.kept T.talks L.view self.old (G.view gate.old)
            self.new (G.view gate.new) }
    {
        if MOST_GUESTS <= self.guests.len() {
            return false;
        }
        let key = self.guests.vacant_key();
        match gate.let_in(key) {
            Next::Link(link) => {
                let guest = Guest::new(self.alloc, link);
                let key = admit(&mut self.guests, guest);
                list_at(&mut self.guests, key, &mut self.listed);
                true
            }
            Next::NotYet => false,
            Next::Ended => {
                self.has_ended = true;
                false
            }
            Next::Failed => false,
        }
    }

    /// All that are listed take their turns: they are read and make calls, which are settled, and
    /// some more; then what they were given is written, and who is over leaves.
    fn take_turns<K: NewsDesk, G: PolledGate<Link = L>, C: Clock>(
        &mut self,
        desk: &mut K,
        gate: &mut G,
        clock: &mut C,
    )
        requires can { CanServe T.kept T.talks L.view self.old (K.view desk.old) (C.gave clock.old)
            (G.view gate.old) }
        ensures goes { Goes T.kept T.talks L.view
            self.old (K.view desk.old) (C.gave clock.old) (G.view gate.old)
            self.new (K.view desk.new) (C.gave clock.new) (G.view gate.new) }
        ensures on { K.goes_on desk.old desk.new }
    {
        self.collect(desk, clock);
        self.settle(desk, gate, clock);
        self.act_more(desk, gate, clock);
        self.turn(Turn::Deliver, desk, clock);
        self.go_on(desk, gate, clock);
    }

    /// Those that are listed have this round's turns. They are read, and make some calls.
    fn collect<K: NewsDesk, C: Clock>(&mut self, desk: &mut K, clock: &mut C)
        requires can { (gate : GateView L) × CanServe T.kept T.talks L.view self.old
            (K.view desk.old) (C.gave clock.old) gate }
        ensures goes { (gate : GateView L) → Goes T.kept T.talks L.view
            self.old (K.view desk.old) (C.gave clock.old) gate
            self.new (K.view desk.new) (C.gave clock.new) gate }
        ensures on { K.goes_on desk.old desk.new }
    {
        self.turns.clear();
        std::mem::swap(&mut self.turns, &mut self.listed);
        collect_some(
            &mut self.guests,
            &mut self.sessions,
            self.turns.as_slice(),
            desk,
            clock,
            self.buffer.as_mut_slice(),
        );
    }

    /// Each in turn takes one.
    fn turn<K: NewsDesk, C: Clock>(&mut self, turn: Turn, desk: &mut K, clock: &mut C)
        requires can { (gate : GateView L) × CanServe T.kept T.talks L.view self.old
            (K.view desk.old) (C.gave clock.old) gate }
        ensures goes { (gate : GateView L) → Goes T.kept T.talks L.view
            self.old (K.view desk.old) (C.gave clock.old) gate
            self.new (K.view desk.new) (C.gave clock.new) gate }
        ensures on { K.goes_on desk.old desk.new }
    {
        turn_some(
            &mut self.guests,
            self.turns.as_slice(),
            turn,
            desk,
            clock,
            self.buffer.as_mut_slice(),
        );
    }

    /// Some more calls are made and settled, while there are any.
    fn act_more<K: NewsDesk, G: PolledGate<Link = L>, C: Clock>(
        &mut self,
        desk: &mut K,
        gate: &mut G,
        clock: &mut C,
    )
        requires can { CanServe T.kept T.talks L.view self.old (K.view desk.old) (C.gave clock.old)
            (G.view gate.old) }
        ensures goes { Goes T.kept T.talks L.view
            self.old (K.view desk.old) (C.gave clock.old) (G.view gate.old)
            self.new (K.view desk.new) (C.gave clock.new) (G.view gate.new) }
        ensures on { K.goes_on desk.old desk.new }
    {
        for _ in 1..BATCHES {
            self.turn(Turn::Act, desk, clock);
            if !owe_flush(&self.guests, self.turns.as_slice()) {
                return;
            }
            self.settle(desk, gate, clock);
        }
    }

    /// What was done is settled: one flush for all is told to each in turn that owes one, and to
    /// whom something came unasked, and each of these is drained. An idle guest costs nothing.
    fn settle<K: NewsDesk, G: PolledGate<Link = L>, C: Clock>(
        &mut self,
        desk: &mut K,
        gate: &mut G,
        clock: &mut C,
    )
        requires can { CanServe T.kept T.talks L.view self.old (K.view desk.old) (C.gave clock.old)
            (G.view gate.old) }
        ensures goes { Goes T.kept T.talks L.view
            self.old (K.view desk.old) (C.gave clock.old) (G.view gate.old)
            self.new (K.view desk.new) (C.gave clock.new) (G.view gate.new) }
        ensures on { K.goes_on desk.old desk.new }
    {
        let owes = owe_flush(&self.guests, self.turns.as_slice());
        let has_acted = owes || self.has_left;
        if !has_acted && !self.is_rung {
            return;
        }
        let has_news = self.list_news(desk);
        if !owes && !has_news {
            return;
        }
        self.flush(desk, clock);
        ring_if(gate, has_acted && has_news);
        self.turn(Turn::Drain, desk, clock);
    }

    /// Makes one flush for all, and tells it to each in turn.
    fn flush<K: NewsDesk, C: Clock>(&mut self, desk: &mut K, clock: &mut C)
        ensures goes { (gate : GateView L) → Goes T.kept T.talks L.view
            self.old (K.view desk.old) (C.gave clock.old) gate
            self.new (K.view desk.new) (C.gave clock.new) gate }
        ensures on { K.goes_on desk.old desk.new }
    {
        self.number = self.number.wrapping_add(1);
        flush_for(
            &mut self.guests,
            self.turns.as_slice(),
            self.number,
            desk,
            clock,
        );
    }

    /// Gives those a turn in this round to whom something came unasked. Returns whether something
    /// came to anybody.
    fn list_news<K: NewsDesk>(&mut self, desk: &mut K) -> bool
        ensures goes { (gave : Option (List ℕ)) (gate : GateView L) → Goes T.kept T.talks L.view
            self.old (K.view desk.old) gave gate self.new (K.view desk.new) gave gate }
        ensures on { K.goes_on desk.old desk.new }
    {
        self.is_rung = false;
        self.has_left = false;
        let since = self.news;
        let news = desk.news();
        if news == since {
            return false;
        }
        self.news = news;
        self.list_news_since(desk, since);
        true
    }

    fn list_news_since<K: NewsDesk>(&mut self, desk: &mut K, since: u64)
        ensures goes { (gave : Option (List ℕ)) (gate : GateView L) → Goes T.kept T.talks L.view
            self.old (K.view desk.old) gave gate self.new (K.view desk.new) gave gate }
        ensures on { K.goes_on desk.old desk.new }
    {
        let mut above = 0;
        for _ in 0..MOST_GUESTS {
            let Some(session) = desk.next_news(above, since) else {
                return;
            };
            above = session;
            self.list_session(session);
        }
    }

    /// The guest of a session, if there is one, has a turn in this round.
    fn list_session(&mut self, session: u32)
        ensures { (gate : GateView L) → GoesAlone T.kept T.talks L.view self.old gate
            self.new gate }
    {
        if let Some(key) = self.sessions.get(&session).copied() {
            list_at(&mut self.guests, key, &mut self.turns);
        }
    }

    /// Those in turn leave where they are over, and are listed where they have more to do.
    fn go_on<K: NewsDesk, G: PolledGate<Link = L>, C: Clock>(
        &mut self,
        desk: &mut K,
        gate: &mut G,
        clock: &mut C,
    )
        requires can { CanServe T.kept T.talks L.view self.old (K.view desk.old) (C.gave clock.old)
            (G.view gate.old) }
        ensures goes { Goes T.kept T.talks L.view
            self.old (K.view desk.old) (C.gave clock.old) (G.view gate.old)
            self.new (K.view desk.new) (C.gave clock.new) (G.view gate.new) }
        ensures on { K.goes_on desk.old desk.new }
    {
        let has_left = go_on_some(
            &mut self.guests,
            &mut self.sessions,
            self.turns.as_slice(),
            &mut self.listed,
            desk,
            gate,
            clock,
        );
        self.has_left = has_left || self.has_left;
    }
}

/// Rings for the other workers, if so.
fn ring_if<G: PolledGate>(gate: &mut G, rings: bool)
    ensures { IsLeft (G.view gate.old) (G.view gate.new) }
{
    if rings {
        gate.ring();
    }
}
