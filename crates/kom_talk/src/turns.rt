//! What a conversation does in a turn.
ghost use Rattle.std.specs.Prelude.{◌<◌, ℕ, List, Option, length};
ghost use Rattle.kom_links.specs.DeskCalls.{DeskView};
ghost use Rattle.kom_session.specs.Known.{Seen, known_by, sight};
ghost use Rattle.kom_session.specs.Kept.{IsKept, Goes, IsOn, MayRead};
ghost use Rattle.kom_talk.specs.Conversations.{at};

use crate::conversation::Conversation;
use kom_links::{Clock, Desk, Got, Link, Took};
use kom_session::Wants;

/// How many calls are made in a turn, at most.
const CALLS: u32 = 4;

/// How many steps are made in a turn to take what waits and to write it, at most.
const STEPS: u32 = 64;

impl Conversation {
    /// Writes what was kept. Unless some of it is left, reads once if something may be there, and
    /// makes some calls.
    pub(crate) fn take_in<K: Desk, L: Link, C: Clock>(
        &mut self,
        desk: &mut K,
        link: &mut L,
        clock: &mut C,
        buffer: &mut [u8],
    )
        requires room { 0 < length buffer.old }
        requires can { (start : Seen) × IsKept start (known_by self.old.machine)
            (sight (K.view desk.old) (L.view link.old) (C.gave clock.old)) }
        ensures goes { Goes (at self.old (K.view desk.old) (L.view link.old) (C.gave clock.old))
            (at self.new (K.view desk.new) (L.view link.new) (C.gave clock.new)) }
        ensures on { K.goes_on desk.old desk.new }
    {
        if !self.write_kept(link) {
            return;
        }
        self.read_ready(link, buffer);
        self.call_some(desk, &*link, clock);
    }

    /// Makes some calls.
    pub(crate) fn call_some<K: Desk, L: Link, C: Clock>(
        &mut self,
        desk: &mut K,
        link: &L,
        clock: &mut C,
    )
        requires can { (start : Seen) × IsKept start (known_by self.old.machine)
            (sight (K.view desk.old) (L.view link.now) (C.gave clock.old)) }
        ensures goes { Goes (at self.old (K.view desk.old) (L.view link.now) (C.gave clock.old))
            (at self.new (K.view desk.new) (L.view link.now) (C.gave clock.new)) }
        ensures on { K.goes_on desk.old desk.new }
    {
        for _ in 0..CALLS {
            if !self.machine.may_act() {
                return;
            }
            self.machine.act(desk, link.host(), clock);
        }
    }

    /// Takes what waits for the session until nothing does, or a block is printed.
    pub(crate) fn drain_some<K: Desk, L: Link, C: Clock>(
        &mut self,
        desk: &mut K,
        link: &L,
        clock: &mut C,
    )
        requires can { (start : Seen) × IsKept start (known_by self.old.machine)
            (sight (K.view desk.old) (L.view link.now) (C.gave clock.old)) }
        ensures goes { Goes (at self.old (K.view desk.old) (L.view link.now) (C.gave clock.old))
            (at self.new (K.view desk.new) (L.view link.now) (C.gave clock.new)) }
        ensures on { K.goes_on desk.old desk.new }
    {
        for _ in 0..STEPS {
            if !self.machine.may_drain() {
                return;
            }
            self.machine.drain(desk, clock);
        }
    }

    /// Takes what waits for the session, and writes it, until nothing does or the link takes
    /// nothing.
    pub(crate) fn send_some<K: Desk, L: Link, C: Clock>(
        &mut self,
        desk: &mut K,
        link: &mut L,
        clock: &mut C,
    )
        requires can { (start : Seen) × IsKept start (known_by self.old.machine)
            (sight (K.view desk.old) (L.view link.old) (C.gave clock.old)) }
        ensures goes { Goes (at self.old (K.view desk.old) (L.view link.old) (C.gave clock.old))
            (at self.new (K.view desk.new) (L.view link.new) (C.gave clock.new)) }
        ensures on { K.goes_on desk.old desk.new }
    {
        for _ in 0..STEPS {
            self.drain_some(desk, &*link, clock);
            if !self.can_write || self.machine.wants() != Wants::Write {
                return;
            }
            self.write_once(link);
        }
    }

    /// Writes once if something was kept. Returns whether nothing of it is left.
    fn write_kept<L: Link>(&mut self, link: &mut L) -> bool
        ensures goes { (desk : DeskView) (gave : Option (List ℕ)) → Goes
            (at self.old desk (L.view link.old) gave) (at self.new desk (L.view link.new) gave) }
    {
        if self.machine.wants() == Wants::Write {
            self.write_once(link);
            return self.machine.wants() != Wants::Write;
        }
        true
    }

    /// Reads once, where something may be there and nothing else is left to be done.
    fn read_ready<L: Link>(&mut self, link: &mut L, buffer: &mut [u8])
        requires room { 0 < length buffer.old }
        ensures goes { (desk : DeskView) (gave : Option (List ℕ)) → Goes
            (at self.old desk (L.view link.old) gave) (at self.new desk (L.view link.new) gave) }
    {
        if !self.can_read || self.machine.wants() != Wants::Read {
            return;
        }
        self.read_once(link, buffer);
    }

    /// Reads once. A read that does not fill the buffer took all that was there.
    fn read_once<L: Link>(&mut self, link: &mut L, buffer: &mut [u8])
        requires room { 0 < length buffer.old }
        requires may { MayRead (known_by self.old.machine) }
        ensures goes { (desk : DeskView) (gave : Option (List ℕ)) → Goes
            (at self.old desk (L.view link.old) gave) (at self.new desk (L.view link.new) gave) }
    {
        match link.read(buffer) {
            Got::Some(count) => {
                self.can_read = count == buffer.len();
                self.machine.fed(&buffer[..count]);
            }
            Got::NotYet => {
                self.can_read = false;
                self.machine.waited();
            }
            Got::End => self.machine.ended(),
            Got::Failed => self.machine.unread(),
        }
    }

    /// Writes once, if the link may take something.
    fn write_once<L: Link>(&mut self, link: &mut L)
        requires on { IsOn (known_by self.old.machine).stage }
        ensures goes { (desk : DeskView) (gave : Option (List ℕ)) → Goes
            (at self.old desk (L.view link.old) gave) (at self.new desk (L.view link.new) gave) }
    {
        if !self.can_write {
            return;
        }
        if self.machine.unwritten().is_empty() {
            self.machine.rest();
            return;
        }
        match link.write(self.machine.unwritten()) {
            Took::Some(count) => self.machine.wrote(count),
            Took::NotYet => {
                self.can_write = false;
                self.machine.wrote(0);
            }
            Took::Failed => self.machine.unwritable(),
        }
    }
}
