ghost use Rattle.std.specs.Prelude.{slice_get, ◌≡◌, ◌<◌, ◌==◌, ◌^◌, ◌-◌, ◌++◌, ◌∷◌, [], not, false};
ghost use Rattle.std.specs.Prelude.{filter, find, length, take, option_copied, IfSome, OnOk, OnErr};
ghost use Rattle.std.specs.Prelude.{IsSome, Some, min, map};
ghost use Rattle.kom_types.specs.Bits.{is_on};
ghost use Rattle.kom_types.specs.Printing.{print_of};
ghost use Rattle.kom_types.specs.Sessions.{is_session, waiting_limits, queue, drained_count};
ghost use Rattle.kom_types.specs.Sessions.{after_drain, changed_session, is_stop, after_change};
ghost use Rattle.sessions.specs.Rows.{AllBelow, IsRising, with_row, takes};

use crate::accepting::Accepting;
use crate::changing::session_of;
use crate::row::SessionRow;
use arrayvec::ArrayVec;
use indexmap::IndexMap;
use kom_types::{Item, Memory, Moment, Seat, SessionChange};
use std::alloc::Global;
use std::marker::Model;

/// The rows of the sessions, in the order of their numbers.
pub struct Sessions {
    /// Each under its number.
    rows: IndexMap<u32, SessionRow>,
    /// The sessions that accept each message.
    accepting: Accepting,
    /// How often something came to a session unasked: a message, its end, or more than may wait.
    news: u64,
}

// A call of its own, so that whoever lets the sessions go has one step to prove and not one for
// each part.
impl Drop for Sessions {
    fn drop(self) {
        let Sessions {
            rows,
            accepting,
            news: _,
        } = self;
        drop((rows, accepting));
    }
}

impl Model for Sessions {
    ghost use Rattle.std.specs.Prelude.{List};
    ghost use Rattle.indexmap.specs.IndexMap.{values};
    ghost use Rattle.kom_types.specs.Sessions.{Session};
    ghost use Rattle.sessions.specs.Accepting.{IsAccepting};
    ghost use Rattle.sessions.specs.Rows.{IsRising, AreNumbered};

    ghost Value = { List Session };

    ghost view = { λ s. values s.rows };

    ghost invariant = { λ s. IsRising (values s.rows)
        × IsAccepting s.accepting.lists (values s.rows) × AreNumbered s.rows };
}

impl Sessions {
    pub fn new(alloc: Global) -> Sessions
        ensures { result ≡ [] }
    {
        Sessions {
            rows: IndexMap::new(alloc),
            accepting: Accepting::new(alloc),
            news: 0,
        }
    }

    pub fn len(&self) -> usize
        ensures len { result ≡ length self.now }
        ensures rising { IsRising self.now }
    {
        self.rows.len()
    }

    /// Adds a row after the others, whose numbers are below its own. The session accepts no message
    /// yet.
    pub fn connect(&mut self, row: SessionRow) -> Result<(), Memory>
        requires below { AllBelow row.seat.number self.old }
        requires silent { row.seat.accepted ≡ 0 }
        ensures ok { OnOk result (self.new ≡ self.old ++ row ∷ []) }
        ensures err { OnErr result (self.new ≡ self.old) }
    {
        let number = row.seat().number;
        let count = self.rows.len();
        self.accepting.reserve(count + 1)?;
        self.rows.insert(number, row)?;
        Ok(())
    }

    /// The row of a session, if it is there.
    pub fn get(&self, session: u32) -> Option<&SessionRow>
        ensures { option_copied result ≡ find (is_session session) self.now }
    {
        match self.guessed(session) {
            Some(row) => Some(row),
            None => self.rows.get(&session),
        }
    }

    /// The row of a session, if it stands where it does while none between the first one and it is
    /// gone. It is sought by its number elsewhere, which takes twice as long.
    #[inline(always)]
    fn guessed(&self, session: u32) -> Option<&SessionRow>
        ensures { IfSome result (λ row. find (is_session session) self.now ≡ Some row.now) }
    {
        let (first, _) = self.rows.get_index(0)?;
        let place = session.wrapping_sub(*first) as usize;
        let (number, row) = self.rows.get_index(place)?;
        if *number == session { Some(row) } else { None }
    }

    /// All that a call may read of a session, if it is there.
    pub fn seat(&self, session: u32) -> Option<&Seat>
        ensures { option_copied result
            ≡ find (λ seat. seat.number == session) (map (λ row. row.seat) self.now) }
    {
        Some(self.get(session)?.seat())
    }

    /// All that a call may read of the session at a place, in the order of their numbers.
    pub fn nth_seat(&self, place: usize) -> Option<&Seat>
        ensures { option_copied result ≡ slice_get (map (λ row. row.seat) self.now) place }
    {
        let (_, row) = self.rows.get_index(place)?;
        Some(row.seat())
    }

    /// All that a call may read of the session at a place among those that accept a message, in the
    /// order of their numbers. Other sessions cost nothing.
    pub fn nth_accepting(&self, message: u32, place: usize) -> Option<&Seat>
        requires { message < 32 }
        ensures { option_copied result ≡ slice_get (filter
            (λ seat. is_on (2 ^ message) seat.accepted) (map (λ row. row.seat) self.now)) place }
    {
        let session = self.accepting.nth(message, place)?;
        self.seat(session)
    }

    /// Takes the row of a session out, if it is there.
    pub fn close(&mut self, session: u32) -> Option<SessionRow>
        ensures row { result ≡ find (is_session session) self.old }
        ensures rest { self.new ≡ filter (λ row. not (is_session session row)) self.old }
    {
        let row = self.rows.shift_remove(&session)?;
        self.accepting.change(session, row.seat().accepted, 0);
        Some(row)
    }

    /// Queues an item that prints to so many bytes for a session, by the entry at this place in the
    /// history, and says whether it waits now. Takes no memory.
    pub fn queue(&mut self, session: u32, item: Item, len: u64, entry: u64) -> bool
        requires there { IsSome (find (is_session session) self.old) }
        requires len { len ≡ min (length (print_of item)) (2 ^ 64 - 1) }
        ensures taken { IfSome (find (is_session session) self.old)
            (λ row. result ≡ takes item row) }
        ensures rows { self.new ≡ with_row session (queue waiting_limits entry item) self.old }
    {
        let row = self.rows.get_mut(&session).unwrap();
        row.queue(item, len, entry, &mut self.news)
    }

    /// Moves the first items that wait for a session, 64 at most, of entries below this one into an
    /// array. Takes no memory.
    pub fn drain_into(&mut self, session: u32, below: u64, into: &mut ArrayVec<Item, 64>)
        requires there { IsSome (find (is_session session) self.old) }
        requires empty { into.old.items ≡ [] }
        ensures given { IfSome (find (is_session session) self.old) (λ row. into.new.items
            ≡ map (λ one. one.item) (take (drained_count below row.waiting) row.waiting)) }
        ensures rest { self.new ≡ with_row session (after_drain below) self.old }
    {
        let row = self.rows.get_mut(&session).unwrap();
        row.drain_into(below, into);
    }

    /// Makes a change of a session, at this moment. Takes no memory.
    pub fn change(&mut self, change: SessionChange, at: Moment)
        requires of_session { is_stop change ≡ false }
        requires there { IsSome (find (is_session (changed_session change)) self.old) }
        ensures { self.new ≡ with_row (changed_session change) (after_change change at) self.old }
    {
        let session = session_of(&change);
        let row = self.rows.get_mut(&session).unwrap();
        let was = row.seat().accepted;
        row.change(change, at, &mut self.news);
        let is = row.seat().accepted;
        self.accepting.change(session, was, is);
    }

    /// How often something came to a session unasked: a message, its end, or more than may wait.
    pub fn news(&self) -> u64 {
        self.news
    }

    /// The first session of a pass, above this number, to which something came unasked after this
    /// count of news. Who walks on from the one found looks at none below it again.
    pub fn next_news(&self, pass: u32, above: u32, since: u64) -> Option<u32>
        ensures { IfSome result (λ session. above < session) }
    {
        let first = self.rows.get_index_of(&above).unwrap_or(0);
        for place in first..self.rows.len() {
            let (_, row) = self.rows.get_index(place)?;
            let number = row.seat().number;
            if number > above && row.seat().pass == pass && row.has_news(since) {
                return Some(number);
            }
        }
        None
    }
}
