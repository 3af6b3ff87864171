ghost use Rattle.std.specs.Prelude.{◌≡◌, ◌+◌, false, [], None, IfOk, OnErr};
ghost use Rattle.kom_types.specs.declared.acts.Act.TheVariants as act;
ghost use Rattle.kom_model.specs.State.{IsSound};
ghost use Rattle.kom_model.specs.Refusal.{refusal_of};
ghost use Rattle.kom_model.specs.Making.{IsConnect};
ghost use Rattle.kom_model.specs.After.{after_sending};
ghost use Rattle.kom_model.specs.Out.{given_from, taken_by};
ghost use Rattle.kom_model.specs.Kept.{kept_of};
ghost use Rattle.kom_state.specs.Keepers.{append_pending};
ghost use Rattle.kom_core.specs.Steps.{Changes, ChangesBy, greeting_entry, made_of};

use super::{ServerState, later};
use crate::asking::Asking;
use arrayvec::ArrayVec;
use kom_state::Keeper;
use kom_types::{Act, Bytes, Entry, Item, Memory, Moment};
use sessions::SessionRow;

impl ServerState {
    /// Makes the act of an entry that nothing refuses, but for the count of entries and the moment.
    /// Returns the session of its record, and whether that is short. A keeper gets the effects of a
    /// call. Memory runs out at a Connect alone.
    #[tactic(auto, using(crate::proofs::Keeping::kept_call))]
    pub(super) fn change<K: Keeper>(
        &mut self,
        entry: &Entry,
        items: &mut ArrayVec<Item, 64>,
        keeper: &mut K,
    ) -> Result<(u32, bool), Memory>
        requires sound { IsSound self.old }
        requires possible { refusal_of self.old entry.now.act ≡ None }
        requires none { items.old.items ≡ [] }
        ensures step { IfOk result (λ both. Changes self.old entry.now self.new both.0 both.1) }
        ensures kept { IfOk result (λ both. K.pending keeper.new ≡ append_pending
            (kept_of self.old (made_of self.old entry.now both.1)) (K.pending keeper.old)) }
        ensures err { OnErr result (self.new ≡ self.old) }
        ensures unkept { OnErr result (K.pending keeper.new ≡ K.pending keeper.old) }
        ensures rest { K.stays keeper.old keeper.new }
        ensures connects { OnErr result (IsConnect entry.now.act) }
        ensures given { items.new.items ≡ taken_by self.old entry.now.act }
    {
        match &entry.act {
            Act::Connect { user, host } => {
                let number = self.connect(entry.pass, entry.moment, user, host)?;
                Ok((number, false))
            }
            Act::Call {
                session,
                reference,
                call,
            } => {
                let asking = Asking {
                    session: *session,
                    reference: *reference,
                    moment: entry.moment,
                    call,
                };
                let short = self.call(&asking, keeper);
                Ok((*session, short))
            }
            Act::Broken { session } => {
                self.queue(*session, Item::Fault);
                Ok((*session, false))
            }
            Act::Drain { session } => {
                self.drain(*session, items);
                Ok((*session, false))
            }
            Act::Flush => {
                self.flush();
                Ok((0, false))
            }
            Act::Close { session } => {
                self.close(*session);
                Ok((*session, false))
            }
        }
    }

    /// Begins a session, for which the greeting's answer waits, and returns its number.
    fn connect(
        &mut self,
        pass: u32,
        moment: Moment,
        user: &Bytes,
        host: &Bytes,
    ) -> Result<u32, Memory>
        requires sound { IsSound self.old }
        requires possible { refusal_of self.old (act.Connect user.now host.now) ≡ None }
        ensures number { IfOk result (λ number. number ≡ self.old.connects + 1) }
        ensures step { IfOk result (λ number. self.new ≡ after_sending self.old
            (made_of self.old (greeting_entry pass moment user.now host.now) false)) }
        ensures err { OnErr result (self.new ≡ self.old) }
    {
        let number = self.connects + 1;
        let connected = later(self.moment, moment);
        let row = SessionRow::new(self.alloc, number, pass, user, host, connected)?;
        self.sessions.connect(row)?;
        self.connects = number;
        self.queue(number, Item::Hello);
        Ok(number)
    }

    /// Moves the first items that wait for a session, 64 at most, of entries below the stable
    /// number, into an array.
    fn drain(&mut self, session: u32, items: &mut ArrayVec<Item, 64>)
        requires possible { refusal_of self.old (act.Drain session) ≡ None }
        requires none { items.old.items ≡ [] }
        ensures step { ChangesBy self.old (act.Drain session) self.new }
        ensures given { items.new.items ≡ given_from session self.old }
    {
        self.sessions.drain_into(session, self.stable, items);
    }

    /// Makes all entries so far stable.
    fn flush(&mut self)
        ensures { ChangesBy self.old act.Flush self.new }
    {
        self.stable = self.entries;
    }

    /// Ends a session.
    fn close(&mut self, session: u32)
        ensures { ChangesBy self.old (act.Close session) self.new }
    {
        self.sessions.close(session);
    }
}
