ghost use Rattle.std.specs.Prelude.{◌≤◌, ◌<◌, length, IfSome};
ghost use Rattle.kom_types.specs.declared.items.Item.{Item as Taken};
ghost use Rattle.kom_types.specs.declared.acts.Act.TheVariants as act;
ghost use Rattle.kom_types.specs.declared.limits.TheConstants.{LONGEST_USER_NAME};
ghost use Rattle.kom_links.specs.Records.{IsOpen};
ghost use Rattle.kom_links.specs.DeskCalls.{DeskView, Connects, Acts, Calls, Drains, Flushes};
ghost use Rattle.kom_links.specs.DeskCalls.{Closes, AsksStopped, IsLookedAt};

use arrayvec::ArrayVec;
use kom_types::{Call, Item, Moment, NotMade};

/// Where one pass hands in the acts of the sessions that it serves. Each call but `stopped` makes
/// one act, at the moment that it is handed. What it answers is logged, for clauses alone.
pub trait Desk {
    ghost view: { Self → DeskView };

    /// It goes on from before as the same desk, over the same server. No call puts another in its
    /// place.
    ghost goes_on: { Self → Self → Type 0 };

    /// Begins a session for the user of a greeting, and returns its number.
    fn connect(&mut self, moment: Moment, user: &[u8], host: &[u8]) -> Result<u32, NotMade>
        requires { length user.now ≤ LONGEST_USER_NAME }
        ensures connects { Connects (view self.old) moment user.now host.now result
            (view self.new) }
        ensures on { goes_on self.old self.new };

    /// Makes a call for a session.
    fn call(
        &mut self,
        moment: Moment,
        session: u32,
        reference: u32,
        call: Call,
    ) -> Result<(), NotMade>
        requires { IsOpen session (view self.old).mine }
        ensures calls { Calls (view self.old) moment (act.Call session reference call) session
            result (view self.new) }
        ensures on { goes_on self.old self.new };

    /// Says that a session's stream is at fault.
    fn broken(&mut self, moment: Moment, session: u32) -> Result<(), NotMade>
        requires { IsOpen session (view self.old).mine }
        ensures acts { Acts (view self.old) moment (act.Broken session) session result
            (view self.new) }
        ensures on { goes_on self.old self.new };

    /// Takes items that wait for a session, in place of what stood in the array.
    fn drain_into(
        &mut self,
        moment: Moment,
        session: u32,
        into: &mut ArrayVec<Item, 64>,
    ) -> Result<(), NotMade>
        requires { IsOpen session (view self.old).mine }
        ensures drains { Drains (view self.old) moment session into.new.items result
            (view self.new) }
        ensures on { goes_on self.old self.new };

    /// Makes stable what was done so far.
    fn flush(&mut self, moment: Moment) -> Result<(), NotMade>
        ensures flushes { Flushes (view self.old) moment result (view self.new) }
        ensures on { goes_on self.old self.new };

    /// Ends a session.
    fn close(&mut self, moment: Moment, session: u32) -> Result<(), NotMade>
        requires { IsOpen session (view self.old).mine }
        ensures closes { Closes (view self.old) moment session result (view self.new) }
        ensures on { goes_on self.old self.new };

    /// Whether the server was shut down or its store refused a flush.
    fn stopped(&mut self) -> Result<bool, NotMade>
        ensures asks { AsksStopped (view self.old) result (view self.new) }
        ensures on { goes_on self.old self.new };

    ghost goes_on_itself: { (desk : Self) → goes_on desk desk };

    ghost goes_on_further: { (first second third : Self) → goes_on first second
        → goes_on second third → goes_on first third };
}

/// A desk that tells to which sessions something came unasked: a message, their end by a call of
/// another, or more than may wait. A wrong answer costs time, and no clause hangs on it.
pub trait NewsDesk: Desk {
    /// How often something came so to a session of the server.
    fn news(&mut self) -> u64
        ensures looked { IsLookedAt (Self.view self.old) (Self.view self.new) }
        ensures on { Self.goes_on self.old self.new };

    /// The first session of this pass, above this number, to which something came so after this
    /// count of news.
    fn next_news(&mut self, above: u32, since: u64) -> Option<u32>
        ensures above { IfSome result (λ session. above < session) }
        ensures looked { IsLookedAt (Self.view self.old) (Self.view self.new) }
        ensures on { Self.goes_on self.old self.new };
}
