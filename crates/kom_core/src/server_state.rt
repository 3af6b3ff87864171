ghost use Rattle.std.specs.Prelude.{◌≡◌, ◌+◌, ◌^◌, ◌<◌, ◌||◌, [], max, true};
ghost use Rattle.kom_model.specs.State.{IsSound, opening_state};
ghost use Rattle.kom_types.specs.declared.acts.Act.TheVariants as act;
ghost use Rattle.kom_model.specs.After.{after};
ghost use Rattle.kom_model.specs.Out.{taken_by};
ghost use Rattle.kom_state.specs.Keepers.{append_pending};
ghost use Rattle.kom_core.specs.Deciding.{asked_by};
ghost use Rattle.kom_core.specs.Keeping.{kept_by};
ghost use Rattle.kom_core.specs.Steps.{Steps, count_entry};

mod acting;
mod calling;
mod news;
mod queueing;
mod reading;
mod refusing;

use crate::asking::Asking;
use arrayvec::ArrayVec;
use kom_state::{Asked, Keeper};
use kom_types::{Entry, Item, Made, Memory, Moment, NotMade};
use sessions::Sessions;
use std::alloc::Global;
use std::marker::Model;

/// The server: its stored rows, its sessions, how many were connected, the stable number, how many
/// entries its history has, the moment of the last one, whether it was shut down, and whether its
/// store refused a flush.
pub(crate) struct ServerState {
    rows: kom_state::StoredRows,
    sessions: Sessions,
    connects: u32,
    stable: u64,
    entries: u64,
    moment: Moment,
    stopped: bool,
    store_refused: bool,
    alloc: Global,
}

// A call of its own, so that whoever lets a server go has one step to prove and not one for each
// part.
impl Drop for ServerState {
    fn drop(self) {
        let ServerState {
            rows,
            sessions,
            connects: _,
            stable: _,
            entries: _,
            moment: _,
            stopped: _,
            store_refused: _,
            alloc: _,
        } = self;
        drop((rows, sessions));
    }
}

impl Model for ServerState {
    ghost use Rattle.kom_model.specs.State.{State as Server};

    ghost Value = { Server };

    ghost view = { λ s. record {
      db = s.rows.db;
      sessions = s.sessions;
      connects = s.connects;
      stable = s.stable;
      entries = s.entries;
      moment = s.moment;
      stopped = s.stopped;
      store_refused = s.store_refused;
    } };
}

impl ServerState {
    /// A server before its first entry, with these stored rows.
    pub(crate) fn opening(alloc: Global, rows: kom_state::StoredRows) -> ServerState
        ensures { result ≡ opening_state rows.db }
    {
        ServerState {
            rows,
            sessions: Sessions::new(alloc),
            connects: 0,
            stable: 0,
            entries: 0,
            moment: Moment(0),
            stopped: false,
            store_refused: false,
            alloc,
        }
    }

    /// All that a call may read.
    fn asked(&self, asking: &Asking<'_>) -> Asked<'_>
        ensures { result ≡ asked_by self.now asking.now }
    {
        let moment = later(self.moment, asking.moment);
        Asked::new(
            &self.rows,
            &self.sessions,
            moment,
            asking.session,
            asking.reference,
        )
    }

    /// Whether it was shut down or its store refused a flush.
    pub(crate) fn is_stopped(&self) -> bool
        ensures { result ≡ (self.now.stopped || self.now.store_refused) }
    {
        self.stopped || self.store_refused
    }

    /// Makes the act of an entry, or returns why it is not made. A drain moves its items into an
    /// array, and a keeper gets the effects of a call.
    #[tactic(auto, using(crate::proofs::Keeping::none_appended))]
    pub(crate) fn make<K: Keeper>(
        &mut self,
        entry: &Entry,
        items: &mut ArrayVec<Item, 64>,
        keeper: &mut K,
    ) -> Result<Made, NotMade>
        requires sound { IsSound self.old }
        requires room { self.old.entries < 2 ^ 62 }
        requires none { items.old.items ≡ [] }
        ensures steps { Steps self.old entry.now self.new result }
        ensures kept { K.pending keeper.new
            ≡ append_pending (kept_by self.old result) (K.pending keeper.old) }
        ensures rest { K.stays keeper.old keeper.new }
        ensures given { items.new.items ≡ taken_by self.old entry.now.act }
    {
        if let Some(why) = self.refusal(&entry.act) {
            return Err(why);
        }
        match self.change(entry, items, keeper) {
            Ok((session, short)) => {
                self.advance(entry.moment);
                Ok(Made::of(entry, session, short))
            }
            Err(Memory) => Err(NotMade::Memory),
        }
    }

    /// Makes the entry of a flush that the store refused.
    pub(crate) fn refuse_flush(&mut self, entry: &Entry) -> Made
        requires room { self.old.entries < 2 ^ 62 }
        requires flush { entry.now.act ≡ act.Flush }
        ensures made { result ≡ record { entry = entry.now; session = 0; short = true } }
        ensures state { self.new ≡ after self.old result }
    {
        self.mark();
        self.advance(entry.moment);
        Made::of(entry, 0, true)
    }

    /// The store has refused a flush.
    fn mark(&mut self)
        ensures { self.new ≡ record self.old { store_refused = true } }
    {
        self.store_refused = true;
    }

    /// Counts an entry that was made.
    fn advance(&mut self, moment: Moment)
        requires { self.old.entries < 2 ^ 62 }
        ensures { self.new ≡ count_entry moment self.old }
    {
        self.entries += 1;
        self.moment = later(self.moment, moment);
    }
}

/// The later of two moments.
fn later(one: Moment, other: Moment) -> Moment
    ensures { result ≡ max one other }
{
    if one.seconds() < other.seconds() {
        other
    } else {
        one
    }
}
