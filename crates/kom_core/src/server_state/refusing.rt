ghost use Rattle.std.specs.Prelude.{◌≡◌};
ghost use Rattle.kom_model.specs.State.{session_of};
ghost use Rattle.kom_model.specs.Refusal.{refusal_of, call_refused, drain_refused, close_refused};
ghost use Rattle.kom_model.specs.Refusal.{connect_refused, unless_store_refused};

use super::ServerState;
use kom_types::limits::MOST_SESSIONS;
use kom_types::{Act, NotMade, Why};

impl ServerState {
    /// Why an act is not made, if it is not.
    pub(super) fn refusal(&self, act: &Act) -> Option<NotMade>
        ensures { result ≡ refusal_of self.now act.now }
    {
        match act {
            Act::Connect { .. } => self.unless_store_refused(self.connect_refusal()),
            Act::Call { session, .. } => self.unless_store_refused(self.call_refusal(*session)),
            Act::Broken { session } => self.unless_store_refused(self.call_refusal(*session)),
            Act::Drain { session } => self.unless_store_refused(self.drain_refusal(*session)),
            Act::Flush => self.unless_store_refused(None),
            Act::Close { session } => self.close_refusal(*session),
        }
    }

    /// Once the store has refused a flush, the server is stopped, whatever else refuses an act.
    fn unless_store_refused(&self, refusal: Option<NotMade>) -> Option<NotMade>
        ensures { result ≡ unless_store_refused self.now.store_refused refusal }
    {
        if self.store_refused {
            Some(NotMade::Gone(Why::Stopped))
        } else {
            refusal
        }
    }

    fn connect_refusal(&self) -> Option<NotMade>
        ensures { result ≡ connect_refused self.now.stopped self.now.connects }
    {
        if self.stopped {
            Some(NotMade::Gone(Why::Stopped))
        } else if self.connects < MOST_SESSIONS {
            None
        } else {
            Some(NotMade::Full(u64::from(self.connects)))
        }
    }

    fn call_refusal(&self, session: u32) -> Option<NotMade>
        ensures { result ≡ call_refused self.now.stopped (session_of session self.now) }
    {
        match self.sessions.get(session) {
            None => Some(NotMade::Gone(Why::Absent)),
            Some(row) => {
                if row.seat().ended {
                    Some(NotMade::Gone(Why::Dropped))
                } else if row.is_overrun() {
                    Some(NotMade::Gone(Why::Overrun))
                } else if self.stopped {
                    Some(NotMade::Gone(Why::Stopped))
                } else {
                    None
                }
            }
        }
    }

    fn drain_refusal(&self, session: u32) -> Option<NotMade>
        ensures { result ≡ drain_refused (session_of session self.now) }
    {
        match self.sessions.get(session) {
            None => Some(NotMade::Gone(Why::Absent)),
            Some(row) => {
                if row.seat().ended && row.is_drained() {
                    Some(NotMade::Gone(Why::Dropped))
                } else if row.is_overrun() {
                    Some(NotMade::Gone(Why::Overrun))
                } else {
                    None
                }
            }
        }
    }

    fn close_refusal(&self, session: u32) -> Option<NotMade>
        ensures { result ≡ close_refused (session_of session self.now) }
    {
        match self.sessions.get(session) {
            None => Some(NotMade::Gone(Why::Absent)),
            Some(_) => None,
        }
    }
}
