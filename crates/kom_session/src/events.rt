//! What happened outside of a machine, told to it.
ghost use Rattle.std.specs.Prelude.{◌≡◌, ◌≤◌, ℕ, List, length, take, drop, Bool, Result, Err};
ghost use Rattle.std.specs.Prelude.{Option, ◌≢◌};
ghost use Rattle.kom_types.specs.declared.answers.NotMade.{NotMade};
ghost use Rattle.kom_links.specs.Answers.{said_stopped};
ghost use Rattle.kom_links.specs.declared.link.Got.TheVariants as got;
ghost use Rattle.kom_links.specs.declared.link.Took.{Took};
ghost use Rattle.kom_links.specs.declared.link.Took.TheVariants as took;
ghost use Rattle.kom_links.specs.DeskCalls.{DeskView};
ghost use Rattle.kom_links.specs.Outside.{written_bytes};
ghost use Rattle.kom_session.specs.Known.{Seen, sight, known_by, to_write, note_fault, after_fault};
ghost use Rattle.kom_session.specs.declared.phase.Phase.TheVariants as phase;
ghost use Rattle.kom_session.specs.declared.phase.Stage.TheVariants as stage;
ghost use Rattle.kom_session.specs.Kept.{MayRead, MayFlush, MayAsk, IsOn, IsDone, IfRead};
ghost use Rattle.kom_session.specs.Kept.{IfWritten, IfFlushed, IfAsked, IfStill, IsKept, PassesBy};

use crate::machine::Machine;
use crate::phase::{Phase, Stage, after_fault, with_flush};
use kom_framing::FeedRefusal;
use kom_links::SessionEnd;
use kom_types::{NotMade, Why};

impl Machine {
    /// A read gave this piece, the first bytes of its buffer.
    pub fn fed(&mut self, piece: &[u8])
        requires { MayRead (known_by self.old) }
        ensures { (buffer : List ℕ) (count : ℕ) → piece.now ≡ take count buffer
            → IfRead (known_by self.old) buffer (got.Some count) (known_by self.new) }
    {
        match self.splitter.feed(piece) {
            Ok(()) => {}
            Err(FeedRefusal::Malformed(place)) => self.bad = Some(place),
            Err(FeedRefusal::LineTooLong(place)) => self.bad = Some(place),
            Err(FeedRefusal::Memory) => self.stage = Stage::Over(SessionEnd::Memory),
        }
    }

    /// A read found nothing, so that a session is to be settled again.
    pub fn waited(&mut self)
        requires { MayRead (known_by self.old) }
        ensures reads { (buffer : List ℕ)
            → IfRead (known_by self.old) buffer got.NotYet (known_by self.new) }
        ensures serving { (known_by self.new).stage ≡ stage.Serving }
    {
        if self.session != 0 {
            self.phase = Phase::Due(0);
        }
    }

    /// A read found the end of the stream.
    pub fn ended(&mut self)
        requires { MayRead (known_by self.old) }
        ensures { (buffer : List ℕ) →
            IfRead (known_by self.old) buffer got.End (known_by self.new) }
    {
        self.stage = Stage::Over(SessionEnd::End);
    }

    /// A read failed.
    pub fn unread(&mut self)
        requires { MayRead (known_by self.old) }
        ensures { (buffer : List ℕ)
            → IfRead (known_by self.old) buffer got.Failed (known_by self.new) }
    {
        self.stage = Stage::Over(SessionEnd::LinkFault);
    }

    /// A write took so many of the unwritten bytes; 0 where it took none.
    pub fn wrote(&mut self, count: usize)
        requires on { IsOn (known_by self.old).stage }
        requires some { count ≤ length (to_write self.old) }
        ensures { (answer : Took)
            → written_bytes answer (to_write self.old) ≡ take count (to_write self.old)
            → IfWritten (known_by self.old) (to_write self.old) answer (known_by self.new) }
    {
        self.written = place_after(self.writer.bytes(), self.written, count);
        self.rest();
    }

    /// A write failed.
    pub fn unwritable(&mut self)
        requires { IsOn (known_by self.old).stage }
        ensures { IfWritten (known_by self.old) (to_write self.old) took.Failed
            (known_by self.new) }
    {
        self.stage = Stage::Over(SessionEnd::LinkFault);
    }

    /// Memory ran out.
    pub fn out_of_memory(&mut self)
        requires { IsOn (known_by self.old).stage }
        ensures still { IfStill (known_by self.old) (known_by self.new) }
        ensures over { IsDone (known_by self.new).stage }
    {
        self.stage = Stage::Over(SessionEnd::Memory);
    }

    /// The desk was asked for a flush, and answered so.
    pub fn flushed(&mut self, answer: Result<(), NotMade>)
        requires on { IsOn (known_by self.old).stage }
        requires may { MayFlush (known_by self.old) }
        ensures { IfFlushed (known_by self.old) answer (known_by self.new) }
    {
        match answer {
            Ok(()) => {
                self.phase = with_flush(self.phase);
                self.rest();
            }
            Err(fault) => {
                self.deny(fault);
                self.rest();
            }
        }
    }

    /// The desk was asked whether it is stopped, and answered so.
    pub fn asked(&mut self, answer: Result<bool, NotMade>)
        requires on { IsOn (known_by self.old).stage }
        requires may { MayAsk (known_by self.old) }
        ensures { IfAsked (known_by self.old) answer (known_by self.new) }
    {
        match answer {
            Ok(false) => {}
            Ok(true) => self.stop(NotMade::Gone(Why::Stopped)),
            Err(fault) => self.stop(fault),
        }
    }

    /// Others flushed the desk, or were told so: that does the service of a session no harm.
    pub fn passed(&self)
        ensures { (start now : Seen) (desk : DeskView) (gave : Option (List ℕ))
            → (known_by self.now).session ≢ 0 → PassesBy now.desk desk
            → IsKept start (known_by self.now) now
            → IsKept start (known_by self.now) (sight desk now.link gave) }
    {}

    /// Keeps the first fault that the desk answered.
    pub(crate) fn note(&mut self, fault: NotMade)
        ensures { known_by self.new ≡ record (known_by self.old) {
          cause = note_fault (known_by self.old).cause fault;
        } }
    {
        if self.cause.is_none() {
            self.cause = Some(fault);
        }
    }

    /// The desk refused a flush or a drain.
    pub(crate) fn deny(&mut self, fault: NotMade)
        ensures { known_by self.new ≡ record (known_by self.old) {
          cause = note_fault (known_by self.old).cause fault;
          phase = phase.Denied;
          stage = after_fault (known_by self.old).stage;
        } }
    {
        self.note(fault);
        self.phase = Phase::Denied;
        self.stage = after_fault(self.stage);
    }

    /// The server is stopped, or the desk answered a fault that is of no session: what waits is
    /// sent, once more where it is being sent already. Only the first fault counts.
    fn stop(&mut self, fault: NotMade)
        requires on { IsOn (known_by self.old).stage }
        requires may { MayAsk (known_by self.old) }
        ensures { (answer : Result Bool NotMade) → said_stopped answer ≡ Err fault
            → IfAsked (known_by self.old) answer (known_by self.new) }
    {
        if self.cause.is_some() {
            return;
        }
        self.note(fault);
        if self.session == 0 {
            self.stage = Stage::Over(SessionEnd::End);
            return;
        }
        self.phase = Phase::Owing;
        self.stage = after_fault(self.stage);
    }
}

/// The place in some bytes so many after this one.
#[tactic(auto, using(crate::proofs::Writing::place_fits))]
fn place_after(bytes: &[u8], place: usize, count: usize) -> usize
    requires { count ≤ length (drop place bytes.now) }
    ensures { drop result bytes.now ≡ drop count (drop place bytes.now) }
{
    if bytes.len() <= place {
        return place;
    }
    place + count
}
