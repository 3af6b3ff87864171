ghost use Rattle.std.specs.Prelude.{◌≡◌, ℕ, [], ◌∷◌, Some, None, IfOk, IsOk, OnOk, OnErr};
ghost use Rattle.std.specs.Prelude.{if◌then◌else◌, IsTrue};
ghost use Rattle.kom_state.specs.Room.{IsOrderly};
ghost use Rattle.kom_model.specs.Effects.{apply_all, all_fit};
ghost use Rattle.kom_model.specs.State.{IsSound};
ghost use Rattle.kom_types.specs.Sessions.{waiting_limits};
ghost use Rattle.kom_model.specs.After.{make_change, make_changes, queue_all, reply_to};
ghost use Rattle.kom_core.specs.Deciding.{IsFirm, IsLong, ComesTo, effects_by};
ghost use Rattle.kom_state.specs.Keepers.{append_pending};
ghost use Rattle.kom_core.specs.Steps.{CarriesOut, Answers, IsOf};

use super::{ServerState, later};
use crate::asking::Asking;
use crate::decide::decide;
use async_fanout::{Delivery, fan_out};
use kom_state::Keeper;
use kom_types::{
    ChangeList, Decision, EffectList, Item, Memory, Moment, Reply, SessionChange, errors,
};

impl ServerState {
    /// Carries out a call, sends its messages, and queues its reply; where memory ran out before,
    /// only the reply that says so. Whether it did is returned. A keeper gets the effects.
    #[tactic(auto, using(crate::proofs::Keeping::none_appended))]
    pub(super) fn call<K: Keeper>(&mut self, asking: &Asking<'_>, keeper: &mut K) -> bool
        requires sound { IsSound self.old }
        ensures answers { Answers self.old asking.now result self.new }
        ensures kept { K.pending keeper.new
            ≡ append_pending (if result then [] else effects_by self.old asking.now)
            (K.pending keeper.old) }
        ensures rest { K.stays keeper.old keeper.new }
    {
        match self.carry_out(asking, keeper) {
            Ok((body, len, messages)) => {
                self.queue_all(messages);
                self.answer(asking, body, len);
                false
            }
            Err(Memory) => {
                let reference = asking.reference;
                let body = Reply::Refused(errors::OUT_OF_MEMORY, 0);
                self.queue(asking.session, Item::Reply { reference, body });
                true
            }
        }
    }

    /// Queues the reply to a call, which prints to this many bytes.
    fn answer(&mut self, asking: &Asking<'_>, body: Reply, len: u64)
        requires { IsLong asking.now.reference body len }
        ensures { self.new ≡ queue_all waiting_limits
            (reply_to asking.now.session asking.now.reference body ∷ []) self.old }
    {
        let reference = asking.reference;
        self.queue_measured(asking.session, Item::Reply { reference, body }, len);
    }

    /// Makes what a call changes, and returns its reply, how many bytes that prints to, and the
    /// messages that it sends. A keeper gets its effects. Where memory runs out, nothing is changed
    /// or kept.
    #[tactic(auto, using(crate::proofs::Keeping::decided_effects))]
    fn carry_out<K: Keeper>(
        &mut self,
        asking: &Asking<'_>,
        keeper: &mut K,
    ) -> Result<(Reply, u64, Vec<Delivery>), Memory>
        requires sound { IsSound self.old }
        ensures ok { IfOk result (λ all.
            CarriesOut self.old asking.now all.0 all.2.items self.new) }
        ensures len { IfOk result (λ all. IsLong asking.now.reference all.0 all.1) }
        ensures kept { OnOk result (K.pending keeper.new
            ≡ append_pending (effects_by self.old asking.now) (K.pending keeper.old)) }
        ensures err { OnErr result (self.new ≡ self.old) }
        ensures unkept { OnErr result (K.pending keeper.new ≡ K.pending keeper.old) }
        ensures rest { K.stays keeper.old keeper.new }
        ensures firm { IsFirm self.old asking.now → IsOk result }
    {
        let (decision, len, messages) = self.comes_to(asking)?;
        let Decision {
            reply,
            effects,
            changes,
        } = decision;
        self.apply(effects, keeper)?;
        self.make_changes(changes, later(self.moment, asking.moment));
        Ok((reply, len, messages))
    }

    /// What a call comes to, how many bytes its reply prints to, and the messages that it sends.
    /// Nothing is changed yet.
    fn comes_to(&self, asking: &Asking<'_>) -> Result<(Decision, u64, Vec<Delivery>), Memory>
        ensures comes_to { IfOk result (λ all. ComesTo self.now asking.now all.0 all.2.items) }
        ensures len { IfOk result (λ all. IsLong asking.now.reference all.0.reply all.1) }
        ensures firm { IsFirm self.now asking.now → IsOk result }
    {
        let asked = self.asked(asking);
        let came = decide(&asked, asking.reference, asking.call)?;
        let messages = fan_out(&asked, asking.call, &came.decision)?;
        Ok((came.decision, came.len, messages))
    }

    /// Makes effects, of which each fits after those before it, on the stored rows, in order, and
    /// gives each to a keeper first. Where memory for any of them runs out, none is made or kept.
    #[tactic(auto, using(crate::proofs::Keeping::none_appended))]
    fn apply<K: Keeper>(&mut self, effects: EffectList, keeper: &mut K) -> Result<(), Memory>
        requires orderly { IsOrderly effects }
        requires fit { IsTrue (all_fit effects self.old.db) }
        ensures ok { OnOk result (
            self.new ≡ record self.old { db = apply_all effects self.old.db }) }
        ensures kept { OnOk result (
            K.pending keeper.new ≡ append_pending effects (K.pending keeper.old)) }
        ensures err { OnErr result (self.new ≡ self.old) }
        ensures unkept { OnErr result (K.pending keeper.new ≡ K.pending keeper.old) }
        ensures rest { K.stays keeper.old keeper.new }
        ensures none { effects ≡ [] → IsOk result }
    {
        if effects.is_empty() {
            return Ok(());
        }
        self.rows.reserve(effects.as_slice())?;
        keeper.reserve(effects.as_slice())?;
        self.rows.apply_all(effects, keeper);
        Ok(())
    }

    /// Makes the changes of sessions, in order.
    fn make_changes(&mut self, changes: ChangeList, moment: Moment)
        ensures { self.new ≡ make_changes moment changes self.old }
    {
        for change in changes.into_vec() {
            self.make_change(change, moment);
        }
    }

    fn make_change(&mut self, change: SessionChange, moment: Moment)
        ensures { self.new ≡ make_change moment change self.old }
    {
        match changed_session(&change) {
            Some(session) => self.change_session(session, change, moment),
            None => self.stop(change),
        }
    }

    /// Makes a change of a session, if that is there.
    fn change_session(&mut self, session: u32, change: SessionChange, moment: Moment)
        requires { IsOf (Some session) change }
        ensures { self.new ≡ make_change moment change self.old }
    {
        if self.sessions.get(session).is_some() {
            self.sessions.change(change, moment);
        }
    }

    /// Makes the change that shuts the server down.
    fn stop(&mut self, _change: SessionChange)
        requires { IsOf None _change }
        ensures { (moment : ℕ) → self.new ≡ make_change moment _change self.old }
    {
        self.stopped = true;
    }
}

/// The session that a change is of; a stop is of none.
fn changed_session(change: &SessionChange) -> Option<u32>
    ensures { IsOf result change.now }
{
    match change {
        SessionChange::Person(session, _, _) => Some(*session),
        SessionChange::Level(session, _) => Some(*session),
        SessionChange::Working(session, _) => Some(*session),
        SessionChange::Doing(session, _) => Some(*session),
        SessionChange::Client(session, _, _) => Some(*session),
        SessionChange::Accept(session, _) => Some(*session),
        SessionChange::Active(session) => Some(*session),
        SessionChange::Ended(session) => Some(*session),
        SessionChange::Stop => None,
    }
}
