//! The acts of a machine, each made at a desk that it is handed.
ghost use Rattle.std.specs.Prelude.{◌≡◌, ◌≢◌, ◌≤◌, ◌++◌, ℕ, List, [], length, Some, None, Err};
ghost use Rattle.kom_types.specs.declared.items.Item.TheVariants as item;
ghost use Rattle.kom_types.specs.declared.limits.TheConstants.{LONGEST_USER_NAME};
ghost use Rattle.kom_types.specs.Printing.{print_of};
ghost use Rattle.kom_types.specs.Reading.{reading_of};
ghost use Rattle.kom_types.specs.Stream.{Line as StreamLine};
ghost use Rattle.kom_framing.specs.declared.units.Unit.TheVariants as unit;
ghost use Rattle.kom_calls.specs.Lines.{TellsReading};
ghost use Rattle.kom_links.specs.Records.{IsOpen};
ghost use Rattle.kom_links.specs.Answers.{Answer};
ghost use Rattle.kom_session.specs.declared.phase.Stage.TheVariants as stage;
ghost use Rattle.kom_session.specs.Known.{known_by, sight, state, HasRoom, phase_after};
ghost use Rattle.kom_session.specs.Kept.{CanGo, MayAct, MayDrain, IsDone, IsOn, IfMade};
ghost use Rattle.kom_session.specs.Kept.{IfClosed, AddsClose, IfHeld, IsTaking, IsGreeted};
ghost use Rattle.kom_session.specs.Kept.{IsFaulty};

use crate::ending::end_of;
use crate::machine::Machine;
use crate::phase::{Phase, Stage, with_line};
use kom_calls::{CallFault, read_call};
use kom_framing::{Line, Unit};
use kom_links::{Clock, Desk, Served, SessionEnd};
use kom_types::{Bytes, Call, Item, NotMade, Why, errors};

impl Machine {
    /// Calls the next unit that is complete, for a peer at this host; or, where none is, tells that
    /// the stream is at fault.
    pub fn act<K: Desk, C: Clock>(&mut self, desk: &mut K, host: &[u8], clock: &mut C)
        requires may { MayAct (known_by self.old) }
        requires can { CanGo (known_by self.old) (K.view desk.old) (C.gave clock.old) }
        ensures made { IfMade host.now (known_by self.old) (K.view desk.old) (C.gave clock.old)
            (known_by self.new) (K.view desk.new) (C.gave clock.new) }
        ensures on { K.goes_on desk.old desk.new }
    {
        self.act_next(desk, host, clock);
        self.rest();
    }

    /// Makes the act of the next unit, or of the stream's fault.
    fn act_next<K: Desk, C: Clock>(&mut self, desk: &mut K, host: &[u8], clock: &mut C)
        requires may { MayAct (known_by self.old) }
        requires can { CanGo (known_by self.old) (K.view desk.old) (C.gave clock.old) }
        ensures made { IfMade host.now (known_by self.old) (K.view desk.old) (C.gave clock.old)
            (known_by self.new) (K.view desk.new) (C.gave clock.new) }
        ensures on { K.goes_on desk.old desk.new }
    {
        match self.splitter.next_unit() {
            Some(Unit::Hello(user)) => self.greet(desk, &user, host, clock),
            Some(Unit::Line(line)) => self.call_line(desk, &line, clock),
            None => self.tell_bad(desk, clock),
        }
    }

    /// Begins the session of a greeting's user.
    fn greet<K: Desk, C: Clock>(&mut self, desk: &mut K, user: &Bytes, host: &[u8], clock: &mut C)
        requires short { length user.now ≤ LONGEST_USER_NAME }
        requires none { (known_by self.old).session ≡ 0 }
        ensures taken { IfHeld (IsGreeted host.now user.now)
            (λ link. state (known_by self.old) (sight (K.view desk.old) link (C.gave clock.old)))
            (λ link. state (known_by self.new) (sight (K.view desk.new) link (C.gave clock.new))) }
        ensures on { K.goes_on desk.old desk.new }
    {
        match desk.connect(clock.now(), user.as_slice(), host) {
            Ok(number) => {
                self.session = number;
                self.phase = Phase::Due(0);
            }
            Err(fault) => {
                self.note(fault);
                self.stage = Stage::Over(SessionEnd::End);
            }
        }
    }

    /// Makes the call of a line, or tells that the line is malformed.
    fn call_line<K: Desk, C: Clock>(&mut self, desk: &mut K, line: &Line, clock: &mut C)
        requires session { IsOpen (known_by self.old).session (K.view desk.old).mine }
        requires room { HasRoom (known_by self.old).phase }
        ensures taken { IfHeld (IsTaking (unit.Line line.now))
            (λ link. state (known_by self.old) (sight (K.view desk.old) link (C.gave clock.old)))
            (λ link. state (known_by self.new) (sight (K.view desk.new) link (C.gave clock.new))) }
        ensures on { K.goes_on desk.old desk.new }
    {
        match read_call(self.alloc, line) {
            Ok((reference, call)) => self.call(desk, reference, call, clock),
            Err(fault) => self.refuse_line(desk, line, fault, clock),
        }
    }

    /// Makes the call that a line is refused by, or tells that the line is malformed. No line that is
    /// read comes this way.
    #[inline(never)]
    fn refuse_line<K: Desk, C: Clock>(
        &mut self,
        desk: &mut K,
        line: &Line,
        fault: CallFault,
        clock: &mut C,
    )
        requires session { IsOpen (known_by self.old).session (K.view desk.old).mine }
        requires room { HasRoom (known_by self.old).phase }
        requires reading { TellsReading (reading_of line.now.tokens) (Err fault) }
        ensures taken { IfHeld (IsTaking (unit.Line line.now))
            (λ link. state (known_by self.old) (sight (K.view desk.old) link (C.gave clock.old)))
            (λ link. state (known_by self.new) (sight (K.view desk.new) link (C.gave clock.new))) }
        ensures on { K.goes_on desk.old desk.new }
    {
        match fault {
            CallFault::Unknown(reference) => {
                let refused = Call::Refused(errors::NOT_IMPLEMENTED, 0);
                self.call(desk, reference, refused, clock);
            }
            CallFault::BadBool(reference) => {
                let refused = Call::Refused(errors::BAD_BOOL, 0);
                self.call(desk, reference, refused, clock);
            }
            CallFault::LongArray(reference) => {
                let refused = Call::Refused(errors::LONG_ARRAY, 0);
                self.call(desk, reference, refused, clock);
            }
            CallFault::Malformed => self.break_at(desk, line.end(), clock),
            CallFault::Memory => self.stage = Stage::Over(SessionEnd::Memory),
        }
    }

    /// Makes a call. What waits is sent where it ended the session or found the server stopped.
    #[inline(always)]
    fn call<K: Desk, C: Clock>(&mut self, desk: &mut K, reference: u32, call: Call, clock: &mut C)
        requires session { IsOpen (known_by self.old).session (K.view desk.old).mine }
        requires room { HasRoom (known_by self.old).phase }
        ensures taken { (line : StreamLine)
            → reading_of line.tokens ≡ Some (record { reference = reference; call = call })
            → IfHeld (IsTaking (unit.Line line))
            (λ link. state (known_by self.old) (sight (K.view desk.old) link (C.gave clock.old)))
            (λ link. state (known_by self.new) (sight (K.view desk.new) link (C.gave clock.new))) }
        ensures on { K.goes_on desk.old desk.new }
    {
        match desk.call(clock.now(), self.session, reference, call) {
            Ok(()) => self.phase = with_line(self.phase),
            Err(fault) => {
                self.note(fault);
                self.phase = phase_after(fault);
                self.stage = Stage::Last(SessionEnd::End);
            }
        }
    }

    /// Tells the desk that the session's stream is at fault at this place.
    fn break_at<K: Desk, C: Clock>(&mut self, desk: &mut K, place: u64, clock: &mut C)
        requires { IsOpen (known_by self.old).session (K.view desk.old).mine }
        ensures faulty { IfHeld (IsFaulty place)
            (λ link. state (known_by self.old) (sight (K.view desk.old) link (C.gave clock.old)))
            (λ link. state (known_by self.new) (sight (K.view desk.new) link (C.gave clock.new))) }
        ensures on { K.goes_on desk.old desk.new }
    {
        self.phase = Phase::Owing;
        self.stage = Stage::Last(SessionEnd::Broken(place));
        if let Err(fault) = desk.broken(clock.now(), self.session) {
            self.note(fault);
        }
    }

    /// Tells that the stream is at fault: the desk, or, without a session, the client alone.
    fn tell_bad<K: Desk, C: Clock>(&mut self, desk: &mut K, clock: &mut C)
        requires serving { (known_by self.old).stage ≡ stage.Serving }
        requires none_left { (known_by self.old).splitting.held ≡ [] }
        requires bad { (known_by self.old).bad ≢ None }
        requires can { CanGo (known_by self.old) (K.view desk.old) (C.gave clock.old) }
        ensures made { (host : List ℕ) →
            IfMade host (known_by self.old) (K.view desk.old) (C.gave clock.old)
            (known_by self.new) (K.view desk.new) (C.gave clock.new) }
        ensures on { K.goes_on desk.old desk.new }
    {
        let Some(place) = self.bad else {
            unreachable!()
        };
        if self.session != 0 {
            self.break_at(desk, place, clock);
            return;
        }
        self.tell_fault();
        self.stage = Stage::Last(SessionEnd::Broken(place));
    }

    /// Puts the line that says that the stream is at fault in place of what waits.
    fn tell_fault(&mut self)
        ensures { known_by self.new ≡ record (known_by self.old) { pending = print_of item.Fault } }
    {
        self.writer.clear();
        self.written = 0;
        self.items.clear();
        self.items.push(Item::Fault);
        self.printed = 0;
    }

    /// Takes items that wait for the session. It is settled where there are none.
    pub fn drain<K: Desk, C: Clock>(&mut self, desk: &mut K, clock: &mut C)
        requires on { IsOn (known_by self.old).stage }
        requires may { MayDrain self.old }
        requires can { CanGo (known_by self.old) (K.view desk.old) (C.gave clock.old) }
        ensures made { (host : List ℕ) →
            IfMade host (known_by self.old) (K.view desk.old) (C.gave clock.old)
            (known_by self.new) (K.view desk.new) (C.gave clock.new) }
        ensures on { K.goes_on desk.old desk.new }
    {
        self.take_items(desk, clock);
        self.rest();
    }

    /// Takes items, which are yet to be printed.
    fn take_items<K: Desk, C: Clock>(&mut self, desk: &mut K, clock: &mut C)
        requires on { IsOn (known_by self.old).stage }
        requires may { MayDrain self.old }
        requires can { CanGo (known_by self.old) (K.view desk.old) (C.gave clock.old) }
        ensures made { (host : List ℕ) →
            IfMade host (known_by self.old) (K.view desk.old) (C.gave clock.old)
            (known_by self.new) (K.view desk.new) (C.gave clock.new) }
        ensures on { K.goes_on desk.old desk.new }
    {
        let answer = desk.drain_into(clock.now(), self.session, &mut self.items);
        self.printed = 0;
        match answer {
            Ok(()) => {
                if self.items.is_empty() {
                    self.phase = Phase::Calm;
                }
            }
            Err(fault) => self.deny(fault),
        }
    }

    /// Closes the session of a service that is over, if there is one; `risen` says whether the link
    /// failed since the start. It is served so also where nobody asks for the readings of the
    /// clock.
    pub fn close<K: Desk, C: Clock>(&mut self, desk: &mut K, clock: &mut C, risen: bool) -> Served
        requires over { IsDone (known_by self.old).stage }
        requires can { CanGo (known_by self.old) (K.view desk.old) (C.gave clock.old) }
        ensures closed { IfClosed risen (known_by self.old) (K.view desk.old)
            (C.gave clock.old) result
            (K.view desk.new) (C.gave clock.new) }
        ensures untimed { IfClosed risen (known_by self.old) (K.view desk.old) None result
            (K.view desk.new) None }
        ensures adds { AddsClose (known_by self.old).session (K.view desk.old) (C.gave clock.old)
            (K.view desk.new) (C.gave clock.new) }
        ensures session { result.session ≡ (known_by self.old).session }
        ensures answers { (answers : List Answer)
            × ((K.view desk.new).answers ≡ (K.view desk.old).answers ++ answers) }
        ensures on { K.goes_on desk.old desk.new }
    {
        let Stage::Over(planned) = self.stage else {
            unreachable!()
        };
        if self.session != 0 {
            if let Err(fault) = desk.close(clock.now(), self.session) {
                self.note(fault);
            }
        }
        Served {
            session: self.session,
            end: end_of(risen, planned, self.cause),
        }
    }
}

/// The phase after a call was refused: what waits is sent where it ended the session or found the
/// server stopped.
fn phase_after(fault: NotMade) -> Phase
    ensures { result ≡ phase_after fault }
{
    match fault {
        NotMade::Gone(Why::Dropped | Why::Stopped) => Phase::Owing,
        _ => Phase::Denied,
    }
}
