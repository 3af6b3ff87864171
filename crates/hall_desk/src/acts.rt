ghost use Rattle.std.specs.Prelude.{◌≡◌, ◌<◌, ◌^◌, ◌||◌, List, IfSome};
ghost use Rattle.kom_types.specs.declared.acts.Record.{Record as Logged};
ghost use Rattle.kom_model.specs.State.{State as Server};
ghost use Rattle.kom_model.specs.Legal.{HasUser, IsByOwner};
ghost use Rattle.kom_model.specs.Out.{taken_by};
ghost use Rattle.hall_desk.specs.Acts.{Comes, IsLed};

use arrayvec::ArrayVec;
use kom_state_lock::Booked;
use kom_types::{Entry, Item, NotMade};

/// A server that a hall keeps: it makes acts, and each entry of its history has the record of one.
pub trait Acts: Booked {
    /// The record of an entry of the history.
    ghost made: { Self.Entry → Logged };

    /// The server as plain rows.
    ghost server: { Self → Server };

    /// Makes the act of an entry, and puts the items that a drain takes into an array, in place of
    /// what stood there; or returns why the act is not made. A flush that the store refuses is made
    /// as a short one.
    fn make(
        &mut self,
        entry: &Entry,
        items: &mut ArrayVec<Item, 64>,
    ) -> Result<Self::Entry, NotMade>
        requires room { (server self.old).entries < 2 ^ 62 }
        requires own { IsByOwner (server self.old) entry.now }
        requires user { HasUser entry.now.act }
        ensures comes { Comes Self.follows Self.stays made server self.old entry.now self.new
            result }
        ensures taken { items.new.items ≡ taken_by (server self.old) entry.now.act };

    /// Whether the server was shut down or its store refused a flush.
    fn stopped(&self) -> bool
        ensures { result ≡ ((server self.now).stopped || (server self.now).store_refused) };

    /// How often something came to a session of the server unasked. A wrong answer costs time, and
    /// no clause hangs on it.
    fn news(&self) -> u64;

    /// The first session of a pass, above this number, to which something came so after this count
    /// of news.
    fn next_news(&self, pass: u32, above: u32, since: u64) -> Option<u32>
        ensures { IfSome result (λ session. above < session) };

    /// The session of an entry's record.
    fn session(entry: &Self::Entry) -> u32
        ensures { result ≡ (made entry.now).session };

    /// Whether an entry's record is short.
    fn is_short(entry: &Self::Entry) -> bool
        ensures { result ≡ (made entry.now).short };

    /// An entry names the pass that its record names.
    ghost names: { (entry : Self.Entry) → Self.pass_of entry ≡ (made entry).entry.pass };

    /// A history leads where its records do.
    ghost leads: { (opening : Self) (history : List Self.Entry) (value : Self)
        → Self.led opening history value → IsLed made server opening history value };
}
