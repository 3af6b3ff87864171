ghost use Rattle.std.specs.Prelude.{◌≡◌, ◌^◌, ◌-◌, [], length, min, map, take, IfOk, IsTrue, ◌↔◌};
ghost use Rattle.kom_types.specs.Printing.{print_of};
ghost use Rattle.kom_types.specs.Sessions.{waiting_limits, fresh_seat, fresh_session, queue};
ghost use Rattle.kom_types.specs.Sessions.{drained_count, after_drain, after_change};
ghost use Rattle.sessions.specs.Rows.{takes};

use crate::changing::change_seat;
use crate::outbox::Outbox;
use arrayvec::ArrayVec;
use kom_types::{Bytes, Item, Memory, Moment, Seat, SessionChange};
use std::alloc::Global;
use std::marker::Model;

/// The row of a session: its seat, what waits for it, and whether more would have waited than may.
pub struct SessionRow {
    seat: Seat,
    outbox: Outbox,
    overrun: bool,
    /// Its count of news when something last came to it unasked.
    news: u64,
}

// A call of its own, so that whoever lets a row go has one step to prove and not one for each part.
impl Drop for SessionRow {
    fn drop(self) {
        let SessionRow {
            seat,
            outbox,
            overrun: _,
            news: _,
        } = self;
        drop((seat, outbox));
    }
}

impl Model for SessionRow {
    ghost use Rattle.kom_types.specs.Sessions.{Session};

    ghost Value = { Session };

    ghost view = { λ row. record { seat = row.seat; waiting = row.outbox; overrun = row.overrun } };
}

impl SessionRow {
    /// The row of a session that begins at this moment.
    pub fn new(
        alloc: Global,
        number: u32,
        pass: u32,
        user: &Bytes,
        host: &Bytes,
        at: Moment,
    ) -> Result<SessionRow, Memory>
        ensures { IfOk result (λ row. row ≡ fresh_session number pass user.now host.now at) }
    {
        Ok(SessionRow {
            seat: seat_of(alloc, number, pass, user, host, at)?,
            outbox: Outbox::new(alloc)?,
            overrun: false,
            news: 0,
        })
    }

    /// All that a call may read of the session.
    pub fn seat(&self) -> &Seat
        ensures { result.now ≡ self.now.seat }
    {
        &self.seat
    }

    /// Whether more would have waited than may.
    pub fn is_overrun(&self) -> bool
        ensures { result ≡ self.now.overrun }
    {
        self.overrun
    }

    /// Whether nothing waits.
    pub fn is_drained(&self) -> bool
        ensures { IsTrue result ↔ (self.now.waiting ≡ []) }
    {
        self.outbox.is_empty()
    }

    /// Whether something came to it unasked, or it was ended, after this count of news.
    pub(crate) fn has_news(&self, since: u64) -> bool {
        self.news > since
    }

    /// Queues an item that prints to so many bytes, and says whether it waits now. A message, and
    /// the first item that may not wait, raise this count of news, and the row keeps the new count.
    pub(crate) fn queue(&mut self, item: Item, len: u64, entry: u64, news: &mut u64) -> bool
        requires { len ≡ min (length (print_of item)) (2 ^ 64 - 1) }
        ensures taken { result ≡ takes item self.old }
        ensures row { self.new ≡ queue waiting_limits entry item self.old }
    {
        if self.overrun {
            return false;
        }
        let is_message = is_message(&item);
        let taken = self.outbox.queue(item, len, entry);
        self.overrun = !taken;
        if is_message || !taken {
            self.news = raised(news);
        }
        taken
    }

    /// Moves the first items, 64 at most, of entries below this one into an array.
    pub(crate) fn drain_into(&mut self, below: u64, into: &mut ArrayVec<Item, 64>)
        requires { into.old.items ≡ [] }
        ensures given { into.new.items
            ≡ map (λ one. one.item) (take (drained_count below self.old.waiting) self.old.waiting) }
        ensures rest { self.new ≡ after_drain below self.old }
    {
        self.outbox.drain_into(below, into);
    }

    /// Makes a change of the session, at this moment. Its end raises this count of news, and the
    /// row keeps the new count.
    pub(crate) fn change(&mut self, change: SessionChange, at: Moment, news: &mut u64)
        ensures { self.new ≡ after_change change at self.old }
    {
        if is_end(&change) {
            self.news = raised(news);
        }
        change_seat(&mut self.seat, change, at);
    }
}

/// Raises a count of news, and returns it.
fn raised(news: &mut u64) -> u64 {
    *news = news.wrapping_add(1);
    *news
}

/// Whether a session is told an item without having asked.
fn is_message(item: &Item) -> bool {
    matches!(item, Item::Message(_))
}

/// Whether a change ends its session.
fn is_end(change: &SessionChange) -> bool {
    matches!(change, SessionChange::Ended(_))
}

/// The seat of a session that begins at this moment.
fn seat_of(
    alloc: Global,
    number: u32,
    pass: u32,
    user: &Bytes,
    host: &Bytes,
    at: Moment,
) -> Result<Seat, Memory>
    ensures { IfOk result (λ seat. seat ≡ fresh_seat number pass user.now host.now at) }
{
    Ok(Seat {
        number,
        pass,
        user: Bytes::copy_of(alloc, user.as_slice())?,
        host: Bytes::copy_of(alloc, host.as_slice())?,
        connected: at,
        login: Moment(0),
        active: at,
        person: 0,
        level: 0,
        working: 0,
        doing: Bytes::new(alloc),
        client_set: false,
        client: Bytes::new(alloc),
        version: Bytes::new(alloc),
        accepted: 0,
        flags: 0,
        ended: false,
    })
}
