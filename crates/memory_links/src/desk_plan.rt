ghost use Rattle.std.specs.Prelude.{◌≡◌, ◌≤◌, ◌^◌, [], IfSome, IfErr, IsTrue};
ghost use Rattle.kom_links.specs.DeskCalls.{IsConnectFault, IsActFault, IsFlushFault, IsLockFault};
ghost use Rattle.memory_links.specs.Standing.{says_lock_full};

use kom_types::limits::MOST_SESSIONS;
use kom_types::{NotMade, Why};
use std::alloc::Global;

/// The number that says that no turn of the server's lock is left.
const LOCK_FULL: u64 = 1 << 62;

/// How many items a drain gives at most, whatever the plan says.
const MOST_DRAINED: usize = 64;

/// What a desk in memory refuses, and when it is stopped. Its acts, and the questions whether it is
/// stopped, are numbered from 1 as they are asked for.
#[derive(Debug, Drop)]
pub struct DeskPlan {
    /// The numbers of the acts that are refused, each with its fault. A fault that may not be
    /// returned at its act refuses nothing.
    pub refusals: Vec<(u64, NotMade)>,
    /// The numbers, among all acts, of the drains that give nothing, whatever waits.
    pub idle_drains: Vec<u64>,
    /// The number of the question from which on the desk is stopped; 0 is none.
    pub stops: u64,
    /// The number of the question from which on no turn of the lock is left; 0 is none.
    pub lock_ends: u64,
    /// How many items a drain gives at most; 0 sets no limit below 64.
    pub most_drained: usize,
}

impl DeskPlan {
    /// No act is refused, the desk is never stopped, and a drain gives as much as it can.
    pub fn new(alloc: Global) -> DeskPlan
        ensures no_refusals { result.refusals.items ≡ [] }
        ensures no_idle_drains { result.idle_drains.items ≡ [] }
        ensures no_stop { result.stops ≡ 0 }
        ensures no_lock_end { result.lock_ends ≡ 0 }
        ensures no_most_drained { result.most_drained ≡ 0 }
    {
        DeskPlan {
            refusals: Vec::new(alloc),
            idle_drains: Vec::new(alloc),
            stops: 0,
            lock_ends: 0,
            most_drained: 0,
        }
    }
}

/// A plan, and how far it has come.
#[derive(Debug, Drop)]
pub(crate) struct Course {
    plan: DeskPlan,
    acts: u64,
    questions: u64,
}

impl Course {
    /// A plan's start.
    pub(crate) fn new(plan: DeskPlan) -> Course {
        Course {
            plan,
            acts: 0,
            questions: 0,
        }
    }

    /// The fault that the plan has for the next act.
    fn next_fault(&mut self) -> Option<NotMade> {
        self.acts = self.acts.saturating_add(1);
        for (number, fault) in &self.plan.refusals {
            if *number == self.acts {
                return Some(*fault);
            }
        }
        None
    }

    /// The fault of the next act, which is a connect, if it is refused.
    pub(crate) fn refuse_connect(&mut self) -> Option<NotMade>
        ensures { IfSome result IsConnectFault }
    {
        match self.next_fault() {
            Some(fault) if may_refuse_connect(fault) => Some(fault),
            _ => None,
        }
    }

    /// The fault of the next act, which is one of an open session, if it is refused.
    pub(crate) fn refuse_act(&mut self) -> Option<NotMade>
        ensures { IfSome result IsActFault }
    {
        match self.next_fault() {
            Some(fault) if may_refuse_act(fault) => Some(fault),
            _ => None,
        }
    }

    /// The fault of the next act, which is a flush, if it is refused.
    pub(crate) fn refuse_flush(&mut self) -> Option<NotMade>
        ensures { IfSome result IsFlushFault }
    {
        match self.next_fault() {
            Some(fault) if may_refuse_flush(fault) => Some(fault),
            _ => None,
        }
    }

    /// The fault of the next act, which closes a session, if it is refused.
    pub(crate) fn refuse_close(&mut self) -> Option<NotMade>
        ensures { IfSome result IsLockFault }
    {
        match self.next_fault() {
            Some(fault) if may_refuse_close(fault) => Some(fault),
            _ => None,
        }
    }

    /// What the next question whether the desk is stopped is answered.
    pub(crate) fn next_question(&mut self) -> Result<bool, NotMade>
        ensures { IfErr result IsLockFault }
    {
        self.questions = self.questions.saturating_add(1);
        if has_come(self.plan.lock_ends, self.questions) {
            return Err(NotMade::Full(LOCK_FULL));
        }
        Ok(has_come(self.plan.stops, self.questions))
    }

    /// How many items a drain gives at most that is the last act.
    pub(crate) fn most_drained(&self) -> usize
        ensures { result ≤ 64 }
    {
        if self.plan.idle_drains.contains(&self.acts) {
            return 0;
        }
        match self.plan.most_drained {
            0 => MOST_DRAINED,
            most => most.min(MOST_DRAINED),
        }
    }
}

/// Whether a fault says that no turn of the server's lock is left.
pub(crate) fn says_lock_full(fault: NotMade) -> bool
    ensures { result ≡ says_lock_full fault }
{
    match fault {
        NotMade::Gone(_) => false,
        NotMade::Full(number) => LOCK_FULL <= number,
        NotMade::Memory => false,
    }
}

/// Whether a number that is planned, 0 being none, has come.
fn has_come(planned: u64, number: u64) -> bool {
    0 < planned && planned <= number
}

/// Whether a connect may be refused so.
fn may_refuse_connect(fault: NotMade) -> bool
    ensures { IsTrue result → IsConnectFault fault }
{
    match fault {
        NotMade::Gone(why) => why == Why::Stopped,
        NotMade::Full(number) => number == u64::from(MOST_SESSIONS) || LOCK_FULL <= number,
        NotMade::Memory => true,
    }
}

/// Whether an act of an open session may be refused so.
fn may_refuse_act(fault: NotMade) -> bool
    ensures { IsTrue result → IsActFault fault }
{
    match fault {
        NotMade::Gone(why) => why != Why::Absent,
        NotMade::Full(number) => LOCK_FULL <= number,
        NotMade::Memory => true,
    }
}

/// Whether a flush may be refused so.
fn may_refuse_flush(fault: NotMade) -> bool
    ensures { IsTrue result → IsFlushFault fault }
{
    match fault {
        NotMade::Gone(why) => why == Why::Stopped,
        NotMade::Full(number) => LOCK_FULL <= number,
        NotMade::Memory => true,
    }
}

/// Whether it may be refused so that a session is closed.
fn may_refuse_close(fault: NotMade) -> bool
    ensures { IsTrue result → IsLockFault fault }
{
    match fault {
        NotMade::Gone(_) => false,
        NotMade::Full(number) => LOCK_FULL <= number,
        NotMade::Memory => false,
    }
}
