ghost use Rattle.kom_session.specs.Known.{known_by};
ghost use Rattle.kom_session.specs.Kept.{IsDone, IsOn, MayFlush, MayAsk};
ghost use Rattle.kom_talk.specs.Conversations.{IsKeptUp, IsServedLink};
ghost use Rattle.kom_talk.specs.Going.{kept_on, talks_on};

use kom_hub::Converse;
use kom_links::{Clock, Desk, Link, SessionEnd, has_risen};
use kom_session::{Machine, Wants};
use kom_types::NotMade;
use std::alloc::Global;

/// A conversation with a client, served by a machine. A turn in which nothing is to be done calls
/// neither its link nor its desk.
#[derive(Drop)]
pub struct Conversation {
    pub(crate) machine: Machine,
    // Something may be there to be read.
    pub(crate) can_read: bool,
    // The link may take something.
    pub(crate) can_write: bool,
}

impl Converse for Conversation {
    ghost kept = { λ talk desk link. IsKeptUp talk desk link };

    ghost talks = { λ desk link served. IsServedLink desk link served };

    ghost hears = { λ talk. IsOn (known_by talk.machine).stage × MayFlush (known_by talk.machine) };

    ghost heeds = { λ talk. IsOn (known_by talk.machine).stage × MayAsk (known_by talk.machine) };

    ghost done = { λ talk. IsDone (known_by talk.machine).stage };

    ghost kept_on = { λ talk old new link passes kept. kept_on talk old new link passes kept };

    ghost talks_on = { λ old new link served passes is. talks_on old new link served passes is };

    fn begin<L: Link>(alloc: Global, _link: &L) -> Conversation {
        Conversation {
            machine: Machine::new(alloc),
            can_read: true,
            can_write: true,
        }
    }

    fn collect<K: Desk, L: Link, C: Clock>(
        &mut self,
        desk: &mut K,
        link: &mut L,
        clock: &mut C,
        buffer: &mut [u8],
    ) {
        self.take_in(desk, link, clock, buffer);
    }

    fn act<K: Desk, L: Link, C: Clock>(&mut self, desk: &mut K, link: &L, clock: &mut C) {
        self.call_some(desk, link, clock);
    }

    fn drain<K: Desk, L: Link, C: Clock>(&mut self, desk: &mut K, link: &L, clock: &mut C) {
        self.drain_some(desk, link, clock);
    }

    fn deliver<K: Desk, L: Link, C: Clock>(&mut self, desk: &mut K, link: &mut L, clock: &mut C) {
        self.send_some(desk, link, clock);
    }

    fn close<K: Desk, L: Link, C: Clock>(
        self,
        desk: &mut K,
        link: &L,
        clock: &mut C,
    ) -> SessionEnd {
        let Conversation {
            mut machine,
            can_read: _,
            can_write: _,
        } = self;
        let served = machine.close(desk, clock, has_risen(0, link.faults()));
        served.end
    }

    fn may_flush(&self) -> bool {
        self.machine.may_flush()
    }

    fn may_ask(&self) -> bool {
        self.machine.may_ask()
    }

    fn flushed(&mut self, answer: Result<(), NotMade>) {
        self.machine.flushed(answer);
    }

    fn asked(&mut self, answer: Result<bool, NotMade>) {
        self.machine.asked(answer);
    }

    fn give_up(&mut self) {
        if !self.machine.is_over() {
            self.machine.out_of_memory();
        }
    }

    fn be_ready(&mut self) {
        self.can_read = true;
        self.can_write = true;
    }

    fn is_over(&self) -> bool {
        self.machine.is_over()
    }

    fn has_unwritten(&self) -> bool {
        !self.machine.unwritten().is_empty()
    }

    fn owes_flush(&self) -> bool {
        self.machine.owes_flush()
    }

    fn has_more(&self) -> bool {
        match self.machine.wants() {
            Wants::Read => self.can_read,
            Wants::Write => self.can_write,
            Wants::Act | Wants::Flush | Wants::Drain | Wants::End => true,
        }
    }
}
