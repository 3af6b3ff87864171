ghost use Rattle.std.specs.Prelude.{◌≡◌, [], ◌∷◌, ◌++◌, map, option_copied, IfOk};
ghost use Rattle.kom_model.specs.Viewers.{viewer_of};
ghost use Rattle.kom_model.specs.calls.Call.{seat_of, answer, done_with};
ghost use Rattle.kom_model.specs.calls.Guards.{caller as caller_of};
ghost use Rattle.kom_model.specs.calls.Sessions.{counts};

use crate::stored_rows::StoredRows;
use kom_model::Viewer;
use kom_types::{
    Counter, Decision, Effect, EffectList, Memory, Moment, Reply, Seat, Sequence, SessionChange,
};
use sessions::Sessions;
use std::alloc::Global;
use std::marker::Model;

/// All that a call may read: the stored rows, the sessions, the moment of its entry, and the
/// caller's session.
#[derive(Drop)]
pub struct Asked<'a> {
    rows: &'a StoredRows,
    sessions: &'a Sessions,
    moment: Moment,
    session: u32,
    reference: u32,
}

impl<'a> Model for Asked<'a> {
    ghost use Rattle.std.specs.Prelude.{map};
    ghost use Rattle.kom_model.specs.calls.Call.{Asked as Question};

    ghost Value = { Question };

    ghost view = { λ asked. record {
      db = asked.rows.now.db;
      seats = map (λ row. row.seat) asked.sessions.now;
      moment = asked.moment;
      session = asked.session;
      reference = asked.reference;
    } };
}

impl<'a> Asked<'a> {
    /// The digits of the reference count in the length of the reply's line.
    pub fn new(
        rows: &'a StoredRows,
        sessions: &'a Sessions,
        moment: Moment,
        session: u32,
        reference: u32,
    ) -> Asked<'a>
        ensures { result ≡ record {
          db = rows.now.db;
          seats = map (λ row. row.seat) sessions.now;
          moment = moment;
          session = session;
          reference = reference;
        } }
    {
        Asked {
            rows,
            sessions,
            moment,
            session,
            reference,
        }
    }

    /// The stored rows.
    pub fn rows(&self) -> &StoredRows
        ensures { result.now.db ≡ self.now.db }
    {
        self.rows
    }

    /// The rows of all sessions, of which a call may read the seats.
    pub fn sessions(&self) -> &Sessions
        ensures { map (λ row. row.seat) result.now ≡ self.now.seats }
    {
        self.sessions
    }

    /// The moment of the call's entry.
    pub fn moment(&self) -> Moment
        ensures { result ≡ self.now.moment }
    {
        self.moment
    }

    /// The number of the caller's session, which may not be there.
    pub fn session(&self) -> u32
        ensures { result ≡ self.now.session }
    {
        self.session
    }

    /// Where a decision's memory comes from.
    pub fn allocator(&self) -> Global {
        let rows = self.rows;
        rows.alloc
    }

    /// The seat of the caller's session, if that is there.
    pub fn seat(&self) -> Option<&Seat>
        ensures { option_copied result ≡ seat_of self.now }
    {
        self.sessions.seat(self.session)
    }

    /// A call that changes nothing is answered so.
    pub fn answer(&self, reply: Reply) -> Decision
        ensures { result ≡ answer reply }
    {
        let alloc = self.allocator();
        Decision {
            reply,
            effects: Sequence::new(alloc),
            changes: Sequence::new(alloc),
        }
    }

    /// A good reply without a result, with one effect on the stored rows.
    pub fn with_effect(&self, effect: Effect) -> Result<Decision, Memory>
        ensures { IfOk result (λ decision. decision ≡ done_with (effect ∷ []) []) }
    {
        let alloc = self.allocator();
        let mut effects = Sequence::new(alloc);
        effects.push(effect)?;
        Ok(Decision {
            reply: Reply::Done,
            effects,
            changes: Sequence::new(alloc),
        })
    }

    /// A good reply without a result, with one change of a session.
    pub fn with_change(&self, change: SessionChange) -> Result<Decision, Memory>
        ensures { IfOk result (λ decision. decision ≡ done_with [] (change ∷ [])) }
    {
        let alloc = self.allocator();
        let mut changes = Sequence::new(alloc);
        changes.push(change)?;
        Ok(Decision {
            reply: Reply::Done,
            effects: Sequence::new(alloc),
            changes,
        })
    }

    /// Who calls: nobody, if the session is not there.
    pub fn caller(&self) -> Viewer
        ensures { result ≡ caller_of self.now }
    {
        match self.seat() {
            None => Viewer {
                person: 0,
                strong: false,
            },
            Some(seat) => self.viewer(seat),
        }
    }

    /// Who looks from a seat.
    pub fn viewer(&self, seat: &Seat) -> Viewer
        ensures { result ≡ viewer_of self.now.db seat.now }
    {
        Viewer {
            person: seat.person,
            strong: seat.level == u8::MAX && self.rows.has_might(seat.person),
        }
    }
}

/// Adds to effects that a counter of a person rises, unless by nothing.
pub fn push_count(
    effects: &mut EffectList,
    person: u32,
    counter: Counter,
    by: u64,
) -> Result<(), Memory>
    ensures { IfOk result (λ done. effects.new ≡ effects.old ++ counts person counter by) }
{
    if by > 0 {
        effects.push(Effect::Counted {
            number: person,
            counter,
            by,
        })?;
    }
    Ok(())
}
