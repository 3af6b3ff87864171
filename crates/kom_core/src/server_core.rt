ghost use Rattle.std.specs.Prelude.{◌≡◌, ◌+◌, ◌^◌, ◌<◌, ◌≤◌, ◌||◌, List, None, Result, Err, IfOk};
ghost use Rattle.std.specs.Prelude.{true};
ghost use Rattle.kom_types.specs.declared.acts.Act.{Act as What};
ghost use Rattle.kom_types.specs.declared.acts.Record.{Record as Logged};
ghost use Rattle.kom_types.specs.declared.answers.NotMade.{NotMade as Reason};
ghost use Rattle.kom_types.specs.declared.items.Item.{Item as Taken};
ghost use Rattle.kom_model.specs.Effects.{IsProtected};
ghost use Rattle.kom_model.specs.Initial.{initial};
ghost use Rattle.kom_model.specs.State.{IsSound, opening_state};
ghost use Rattle.kom_model.specs.Whole.{IsWhole};
ghost use Rattle.kom_model.specs.After.{after};
ghost use Rattle.kom_model.specs.Legal.{HasUser};
ghost use Rattle.kom_model.specs.Out.{taken_by};
ghost use Rattle.kom_model.specs.Refusal.{refusal_of};
ghost use Rattle.kom_types.specs.declared.acts.Act.TheVariants as act;
ghost use Rattle.kom_state.specs.Keepers.{append_pending};
ghost use Rattle.kom_core.specs.Keeping.{kept_by};
ghost use Rattle.kom_core.specs.Acts.{CoreComes, IsAnswer, IsAnswered, answer_to as answer_of};
ghost use Rattle.kom_core.specs.Worlds.{IsConsistent, RespectsGroups};

mod news;
mod reading;

use crate::server_state::ServerState;
use arrayvec::ArrayVec;
use kom_state::{Keeper, Unkept};
use kom_types::{Act, Answer, Entry, Item, Made, Memory, Moment, NotMade, Record};
use std::alloc::Global;
use std::marker::Model;

/// The state of the server, and the record of its last act until that is handed out.
pub struct Core {
    server: ServerState,
    last: Option<Record>,
}

// A call of its own, as for the state.
impl Drop for Core {
    fn drop(self) {
        let Core { server, last } = self;
        drop((server, last));
    }
}

impl Model for Core {
    ghost use Rattle.kom_model.specs.State.{IsSound};
    ghost use Rattle.kom_core.specs.Acts.{Held};

    ghost Value = { Held };

    ghost view = { λ core. record { state = core.server; last = core.last } };

    ghost invariant = { λ core. IsSound core.server };
}

impl Core {
    /// A core before its first act, of a new server whose administrator has this password.
    pub fn fresh(alloc: Global, password: &[u8], moment: Moment) -> Result<Core, Memory>
        ensures value { IfOk result (λ core. core
            ≡ record { state = opening_state (initial password.now moment); last = None }) }
        ensures sound { IfOk result (λ core. IsSound core.state) }
    {
        let rows = kom_state::StoredRows::initial(alloc, password, moment)?;
        Ok(Core::of(alloc, rows))
    }

    /// A core before its first act, with these stored rows.
    pub fn of(alloc: Global, rows: kom_state::StoredRows) -> Core
        requires protected { IsProtected rows.db }
        requires whole { IsWhole rows.db }
        ensures value { result ≡ record { state = opening_state rows.db; last = None } }
        ensures sound { IsSound result.state }
    {
        Core {
            server: ServerState::opening(alloc, rows),
            last: None,
        }
    }

    /// Makes the act of an entry, whose record `last` then hands out, or returns why it is not
    /// made.
    pub fn act(&mut self, entry: Entry) -> Result<Answer, Memory>
        requires room { self.old.state.entries < 2 ^ 62 }
        requires user { HasUser entry.act }
        ensures answered { (came : Result Logged Reason)
            × IsAnswered self.old.state entry self.new result came
            × IsConsistent self.old.state entry self.new.state came
            × RespectsGroups self.old.state entry self.new.state came }
        ensures counted { self.new.state.entries ≤ self.old.state.entries + 1 }
        ensures was_sound { IsSound self.old.state }
        ensures sound { IsSound self.new.state }
    {
        self.act_kept(entry, &mut Unkept)
    }

    /// Makes the act of an entry as `act` does, and gives a keeper each effect of a call as it is
    /// made.
    pub fn act_kept<K: Keeper>(&mut self, entry: Entry, keeper: &mut K) -> Result<Answer, Memory>
        requires room { self.old.state.entries < 2 ^ 62 }
        requires user { HasUser entry.act }
        ensures answered { (came : Result Logged Reason)
            × IsAnswered self.old.state entry self.new result came
            × IsConsistent self.old.state entry self.new.state came
            × RespectsGroups self.old.state entry self.new.state came
            × (K.pending keeper.new ≡ append_pending (kept_by self.old.state came)
            (K.pending keeper.old)) }
        ensures rest { K.stays keeper.old keeper.new }
        ensures counted { self.new.state.entries ≤ self.old.state.entries + 1 }
        ensures was_sound { IsSound self.old.state }
        ensures sound { IsSound self.new.state }
    {
        let mut items = ArrayVec::new();
        match self.make_kept(&entry, &mut items, keeper) {
            Ok(made) => {
                let answer = answer_to(&entry.act, made.session(), items);
                self.put_last(Some(made.with_entry(entry)));
                Ok(answer)
            }
            Err(why) => {
                drop((entry, items));
                self.put_last(None);
                answer_why(why)
            }
        }
    }

    /// The record is to be handed out, if there is one.
    fn put_last(&mut self, last: Option<Record>)
        ensures { self.new ≡ record self.old { last = last } }
    {
        self.last = last;
    }

    /// Makes the act of an entry, or returns why it is not made. The items that a drain takes stand
    /// in an array of the caller's then, in place of what stood there; at any other act that is
    /// empty. A keeper gets each effect of a call as it is made. Room for all of them is taken
    /// before; where memory for it runs out, the call is answered so, and nothing is kept. What
    /// `last` hands out stays.
    pub fn make_kept<K: Keeper>(
        &mut self,
        entry: &Entry,
        items: &mut ArrayVec<Item, 64>,
        keeper: &mut K,
    ) -> Result<Made, NotMade>
        requires room { self.old.state.entries < 2 ^ 62 }
        requires user { HasUser entry.now.act }
        ensures comes { CoreComes self.old.state entry.now self.new.state result }
        ensures consistent { IsConsistent self.old.state entry.now self.new.state result }
        ensures respects { RespectsGroups self.old.state entry.now self.new.state result }
        ensures given { items.new.items ≡ taken_by self.old.state entry.now.act }
        ensures kept { K.pending keeper.new
            ≡ append_pending (kept_by self.old.state result) (K.pending keeper.old) }
        ensures rest { K.stays keeper.old keeper.new }
        ensures last { self.new.last ≡ self.old.last }
        ensures counted { self.new.state.entries ≤ self.old.state.entries + 1 }
        ensures was_sound { IsSound self.old.state }
        ensures sound { IsSound self.new.state }
    {
        items.clear();
        self.server.make(entry, items, keeper)
    }

    /// Makes the entry of a flush that the store refused, after which no act is made but a Close.
    /// It takes no memory. What `last` hands out stays.
    pub fn refuse_flush(&mut self, entry: &Entry) -> Made
        requires room { self.old.state.entries < 2 ^ 62 }
        requires flush { entry.now.act ≡ act.Flush }
        requires possible { refusal_of self.old.state act.Flush ≡ None }
        ensures made { result ≡ record { entry = entry.now; session = 0; short = true } }
        ensures state { self.new.state ≡ after self.old.state result }
        ensures last { self.new.last ≡ self.old.last }
        ensures sound { IsSound self.new.state }
    {
        self.server.refuse_flush(entry)
    }

    /// Whether the server was shut down or its store refused a flush.
    pub fn stopped(&self) -> bool
        ensures { result ≡ (self.now.state.stopped || self.now.state.store_refused) }
    {
        self.server.is_stopped()
    }

    /// Hands out the record of the last act, once.
    pub fn last(&mut self) -> Option<Record>
        ensures handed { result ≡ self.old.last }
        ensures left { self.new ≡ record self.old { last = None } }
        ensures sound { IsSound self.new.state }
    {
        self.last.take()
    }
}

/// The answer to an act that was made, with the items that it took.
fn answer_to(what: &Act, session: u32, items: ArrayVec<Item, 64>) -> Answer
    ensures { result ≡ answer_of what.now session items }
{
    match what {
        Act::Connect { .. } => Answer::Connected(session),
        Act::Drain { .. } => Answer::Items(items),
        Act::Call { .. } | Act::Broken { .. } | Act::Flush | Act::Close { .. } => Answer::Taken,
    }
}

/// The answer to an act that was not made.
fn answer_why(why: NotMade) -> Result<Answer, Memory>
    ensures { (what : What) (items : List Taken) → IsAnswer what (Err why) items result }
{
    match why {
        NotMade::Gone(why) => Ok(Answer::Gone(why)),
        NotMade::Full(number) => Ok(Answer::Full(number)),
        NotMade::Memory => Err(Memory),
    }
}
