ghost use Rattle.std.specs.Prelude.{◌≡◌, ◌≢◌, ◌≤◌, [], length, drop, true, false, None};
ghost use Rattle.kom_links.specs.Outside.{LinkView};
ghost use Rattle.kom_session.specs.Ends.{IsUntouched};
ghost use Rattle.kom_session.specs.Known.{Seen, known_by, to_write, to_print, HasRoom};
ghost use Rattle.kom_session.specs.Kept.{IsKept, MayRead, MayAct, MayFlush, MayAsk, MayDrain};
ghost use Rattle.kom_session.specs.Kept.{IsDone, IsOn};
ghost use Rattle.kom_session.specs.declared.machine.Wants.TheVariants as wants;
ghost use Rattle.kom_session.specs.declared.phase.Stage.TheVariants as stage;

use crate::phase::{Phase, Stage};
use arrayvec::ArrayVec;
use kom_framing::{Splitter, Writer};
use kom_types::{Item, NotMade};
use std::alloc::Global;

/// What a machine wants next.
#[derive(Clone, Copy, Debug, PartialEq, Eq)]
pub enum Wants {
    /// That the link is read.
    Read,
    /// That what is unwritten is written.
    Write,
    /// That a line is called.
    Act,
    /// That the desk is flushed.
    Flush,
    /// That the session is drained.
    Drain,
    /// That it is closed.
    End,
}

/// The service of one link, from its greeting to its end, which never waits: who drives it reads,
/// writes and flushes, and tells it what came of that. It makes its acts at any desk that it is
/// handed.
pub struct Machine {
    // Where the arguments of its calls are allocated.
    pub(crate) alloc: Global,
    pub(crate) splitter: Splitter,
    pub(crate) writer: Writer,
    // How many of the bytes in the writer were written.
    pub(crate) written: usize,
    pub(crate) items: ArrayVec<Item, 64>,
    // How many of the items were printed.
    pub(crate) printed: usize,
    pub(crate) session: u32,
    pub(crate) cause: Option<NotMade>,
    pub(crate) phase: Phase,
    pub(crate) stage: Stage,
    // Where the stream is at fault, behind the units that are complete.
    pub(crate) bad: Option<u64>,
}

// A call of its own, so that whoever lets a machine go has one step to prove.
impl Drop for Machine {
    fn drop(self) {
        let Machine {
            alloc: _,
            splitter,
            writer,
            written: _,
            items,
            printed: _,
            session: _,
            cause: _,
            phase: _,
            stage: _,
            bad: _,
        } = self;
        drop((splitter, writer, items));
    }
}

impl Machine {
    /// A machine for a link that was not read.
    pub fn new(alloc: Global) -> Machine
        ensures kept { (now : Seen) → IsUntouched now.link → IsKept now (known_by result) now }
        ensures serving { (known_by result).stage ≡ stage.Serving }
    {
        Machine {
            alloc,
            splitter: Splitter::new(alloc),
            writer: Writer::new(alloc),
            written: 0,
            items: ArrayVec::new(),
            printed: 0,
            session: 0,
            cause: None,
            phase: Phase::Calm,
            stage: Stage::Serving,
            bad: None,
        }
    }

    /// The session, 0 for none.
    pub fn session(&self) -> u32
        ensures { result ≡ (known_by self.now).session }
    {
        self.session
    }

    /// What was printed and is yet to be written.
    pub fn unwritten(&self) -> &[u8]
        ensures { result.now ≡ to_write self.now }
    {
        self.writer.bytes().get(self.written..).unwrap_or(&[])
    }

    /// Whether the service is over.
    pub fn is_over(&self) -> bool
        ensures over { result ≡ true → IsDone (known_by self.now).stage }
        ensures on { result ≡ false → IsOn (known_by self.now).stage }
    {
        matches!(self.stage, Stage::Over(_))
    }

    /// Whether a unit may be called, or the stream's fault told.
    pub fn may_act(&self) -> bool
        ensures { result ≡ true → MayAct (known_by self.now) }
    {
        self.stage == Stage::Serving && has_room(self.phase) && self.has_act()
    }

    /// Whether the session may be drained: it was flushed, and all that it was given was printed.
    pub fn may_drain(&self) -> bool
        ensures drain { result ≡ true → MayDrain self.now }
        ensures on { result ≡ true → IsOn (known_by self.now).stage }
    {
        !self.is_over() && self.phase == Phase::Draining && self.printed >= self.items.len()
    }

    /// Whether it may be told of a flush: there is a session, and it is not over.
    pub fn may_flush(&self) -> bool
        ensures flush { result ≡ true → MayFlush (known_by self.now) }
        ensures on { result ≡ true → IsOn (known_by self.now).stage }
    {
        !self.is_over() && self.session != 0
    }

    /// Whether it may be told whether the desk is stopped: without a session only while the stream
    /// is served.
    pub fn may_ask(&self) -> bool
        ensures ask { result ≡ true → MayAsk (known_by self.now) }
        ensures on { result ≡ true → IsOn (known_by self.now).stage }
    {
        match self.stage {
            Stage::Serving => true,
            Stage::Last(_) => self.session != 0,
            Stage::Over(_) => false,
        }
    }

    /// Whether it is to be flushed before it goes on.
    pub fn owes_flush(&self) -> bool {
        !self.is_over() && matches!(self.phase, Phase::Due(_) | Phase::Owing)
    }

    /// What it wants next: what was printed is written before anything else, and the link is read
    /// where nothing else is left.
    pub fn wants(&self) -> Wants
        ensures read { result ≡ wants.Read → MayRead (known_by self.now) }
        ensures act { result ≡ wants.Act → MayAct (known_by self.now) }
        ensures flush { result ≡ wants.Flush → MayFlush (known_by self.now) }
        ensures drain { result ≡ wants.Drain → MayDrain self.now }
        ensures over { result ≡ wants.End → IsDone (known_by self.now).stage }
        ensures on { result ≢ wants.End → IsOn (known_by self.now).stage }
    {
        match self.stage {
            Stage::Over(_) => Wants::End,
            Stage::Last(_) => self.wants_of_last(),
            Stage::Serving => self.wants_of_stream(),
        }
    }
}

impl Machine {
    /// Whether something is yet to be printed or written.
    pub(crate) fn has_pending(&self) -> bool
        ensures none { result ≡ false → (known_by self.now).pending ≡ [] }
        ensures printed { result ≡ false → to_print self.now ≡ [] }
    {
        self.written < self.writer.bytes().len() || self.printed < self.items.len()
    }

    /// Whether a unit is complete, or the stream is at fault.
    pub(crate) fn has_act(&self) -> bool
        ensures some { result ≡ true
            → (known_by self.now).splitting.held ≡ [] → (known_by self.now).bad ≢ None }
        ensures none { result ≡ false
            → ((known_by self.now).splitting.held ≡ []) × ((known_by self.now).bad ≡ None) }
    {
        self.splitter.has_unit() || self.bad.is_some()
    }

    fn wants_of_last(&self) -> Wants
        ensures read { result ≢ wants.Read }
        ensures act { result ≢ wants.Act }
        ensures flush { result ≡ wants.Flush → MayFlush (known_by self.now) }
        ensures drain { result ≡ wants.Drain → MayDrain self.now }
        ensures on { result ≢ wants.End }
    {
        if self.has_pending() {
            return Wants::Write;
        }
        match self.phase {
            Phase::Due(_) | Phase::Owing => Wants::Flush,
            Phase::Draining => Wants::Drain,
            Phase::Calm | Phase::Denied => Wants::Write,
        }
    }

    fn wants_of_stream(&self) -> Wants
        requires { self.now.stage ≡ stage.Serving }
        ensures read { result ≡ wants.Read → MayRead (known_by self.now) }
        ensures act { result ≡ wants.Act → MayAct (known_by self.now) }
        ensures flush { result ≡ wants.Flush → MayFlush (known_by self.now) }
        ensures drain { result ≡ wants.Drain → MayDrain self.now }
        ensures on { result ≢ wants.End }
    {
        if self.has_pending() {
            return Wants::Write;
        }
        match self.phase {
            Phase::Calm => {
                if self.has_act() {
                    return Wants::Act;
                }
                Wants::Read
            }
            Phase::Due(lines) => {
                if lines < 4 && self.has_act() {
                    return Wants::Act;
                }
                Wants::Flush
            }
            Phase::Owing | Phase::Denied => Wants::Flush,
            Phase::Draining => Wants::Drain,
        }
    }
}

/// Whether one more line can be called before it must be settled.
fn has_room(phase: Phase) -> bool
    ensures { result ≡ true → HasRoom phase }
{
    match phase {
        Phase::Calm => true,
        Phase::Due(lines) => lines < 4,
        Phase::Owing | Phase::Draining | Phase::Denied => false,
    }
}
