ghost use Rattle.std.specs.Prelude.{◌≡◌, ◌-◌, ◌+◌, ◌<◌, false, OnOk, IfOk};
ghost use Rattle.std.specs.Prelude.{vec_len, vec_capacity};
ghost use Rattle.kom_types.specs.declared.acts.Act.TheVariants as act;
ghost use Rattle.kom_links.specs.Answers.{deed_of};
ghost use Rattle.kom_links.specs.Records.{IsOpen};
ghost use Rattle.kom_links.specs.DeskCalls.{Acts, record_of};
ghost use Rattle.memory_links.specs.Standing.{Stands};

use crate::desk_plan::{Course, DeskPlan, says_lock_full};
use crate::planned_items::{Drained, PlannedItem, Waiting, put_items, take_waiting};
use arrayvec::ArrayVec;
use http_server::Log;
use kom_links::{Deed, Desk};
use kom_types::limits::MOST_SESSIONS;
use kom_types::{Act, Bytes, Call, Entry, Item, Memory, Moment, NotMade, Record, Why};
use std::alloc::Global;

/// A desk that makes acts by a plan, and keeps what it tells. It numbers its sessions from 1. For a
/// session wait the greeting's answer after its connect, a reply whose result is the session's
/// number after each call, and Fault after its stream was said to be at fault; an item of an act
/// that the plan refuses with Gone waits nevertheless.
pub struct MemoryDesk {
    alloc: Global,
    course: Course,
    pass: u32,
    records: Vec<Record>,
    // How many sessions were connected.
    sessions: u32,
    drains: Vec<Drained>,
    waiting: Vec<Waiting>,
    is_lock_full: bool,
    answers: Log<Deed, Result<(), NotMade>>,
    ghost stands: { Stands sessions records.items drains.items
        (vec_capacity records - vec_len records) },
}

// A call of its own, so that whoever lets a desk go has one step to prove and not one for each
// part.
impl Drop for MemoryDesk {
    fn drop(self) {
        let MemoryDesk {
            alloc: _,
            course,
            pass: _,
            records,
            sessions: _,
            drains,
            waiting,
            is_lock_full: _,
            answers,
        } = self;
        drop((course, records, answers));
        drop((drains, waiting));
    }
}

impl MemoryDesk {
    ghost use Rattle.memory_links.specs.Memories.{desk_view, IsNewDesk, IsSameDesk, Refuses};

    /// A desk of this pass that has made no act.
    pub fn new(alloc: Global, pass: u32, plan: DeskPlan) -> MemoryDesk
        ensures { IsNewDesk pass (⟦<MemoryDesk as Desk>⟧.view result) }
    {
        MemoryDesk {
            alloc,
            course: Course::new(plan),
            pass,
            records: Vec::new(alloc),
            sessions: 0,
            drains: Vec::new(alloc),
            waiting: Vec::new(alloc),
            is_lock_full: false,
            answers: Log::new(),
        }
    }

    /// The records of the acts that were made, in order.
    pub fn records(&self) -> &[Record]
        ensures { result.now ≡ (⟦<MemoryDesk as Desk>⟧.view self.now).mine }
    {
        self.records.as_slice()
    }

    /// Takes room for one more of all that is kept, and for a Close of each number up to the next
    /// session's.
    fn reserve(&mut self) -> Result<(), Memory>
        ensures same { IsSameDesk (desk_view self.old) (desk_view self.new) }
        ensures sessions { self.new.sessions ≡ self.old.sessions }
        ensures records { OnOk result (vec_len self.new.records + self.new.sessions + 2
            < vec_capacity self.new.records) }
        ensures drains { OnOk result (vec_len self.new.drains < vec_capacity self.new.drains) }
        ensures waiting { OnOk result (vec_len self.new.waiting < vec_capacity self.new.waiting) }
    {
        self.records.reserve(self.sessions as usize + 3)?;
        self.drains.reserve(1)?;
        self.waiting.reserve(1)?;
        Ok(())
    }

    /// Logs that a deed was refused.
    fn refuse(&mut self, deed: Deed, fault: NotMade) -> NotMade
        ensures result { result ≡ fault }
        ensures refused { Refuses (desk_view self.old) deed fault (desk_view self.new) }
    {
        self.answers = self.answers.and(&deed, &Err(fault));
        self.is_lock_full = self.is_lock_full || says_lock_full(fault);
        fault
    }

    /// Makes an act of a session for which an item waits then.
    fn act(
        &mut self,
        moment: Moment,
        session: u32,
        act: Act,
        deed: Deed,
        item: PlannedItem,
    ) -> Result<(), NotMade>
        requires open { IsOpen session self.old.records.items }
        requires deed { deed ≡ deed_of act }
        ensures { Acts (desk_view self.old) moment act session result (desk_view self.new) }
    {
        if let Some(fault) = self.course.refuse_act() {
            wait_if_gone(&mut self.waiting, Waiting { session, item }, fault);
            return Err(self.refuse(deed, fault));
        }
        if self.reserve().is_err() {
            return Err(self.refuse(deed, NotMade::Memory));
        }
        self.records
            .push_reserved(record_of(self.pass, moment, act, session));
        self.waiting.push_reserved(Waiting { session, item });
        self.answers = self.answers.and(&deed, &Ok(()));
        Ok(())
    }
}

/// Puts an item where it waits, if its act was refused with Gone and memory suffices.
fn wait_if_gone(waiting: &mut Vec<Waiting>, one: Waiting, fault: NotMade) {
    if let NotMade::Gone(_) = fault {
        let _ = waiting.push(one);
    }
}

/// The record of an act that this pass made.
fn record_of(pass: u32, moment: Moment, act: Act, session: u32) -> Record
    ensures { result ≡ record_of pass moment act session false }
{
    let entry = Entry { pass, moment, act };
    Record {
        entry,
        session,
        short: false,
    }
}

/// The act of a greeting.
fn greeting(alloc: Global, user: &[u8], host: &[u8]) -> Result<Act, Memory>
    ensures { IfOk result (λ made. made ≡ act.Connect user.now host.now) }
{
    Ok(Act::Connect {
        user: Bytes::copy_of(alloc, user)?,
        host: Bytes::copy_of(alloc, host)?,
    })
}

impl Desk for MemoryDesk {
    ghost use Rattle.memory_links.specs.Memories.{desk_view};

    ghost view = { λ desk. desk_view desk };

    // There is one desk, and no server below it.
    ghost goes_on = { λ old new. Unit {0} };

    ghost goes_on_itself = { λ desk. tt };

    ghost goes_on_further = { λ first second third one two. tt };

    fn connect(&mut self, moment: Moment, user: &[u8], host: &[u8]) -> Result<u32, NotMade> {
        if let Some(fault) = self.course.refuse_connect() {
            return Err(self.refuse(Deed::Connect, fault));
        }
        let Ok(act) = greeting(self.alloc, user, host) else {
            return Err(self.refuse(Deed::Connect, NotMade::Memory));
        };
        if self.reserve().is_err() {
            return Err(self.refuse(Deed::Connect, NotMade::Memory));
        }
        let Some(session) = self.sessions.checked_add(1) else {
            return Err(self.refuse(Deed::Connect, NotMade::Full(u64::from(MOST_SESSIONS))));
        };
        self.records
            .push_reserved(record_of(self.pass, moment, act, session));
        self.sessions = session;
        self.waiting.push_reserved(Waiting {
            session,
            item: PlannedItem::Hello,
        });
        self.answers = self.answers.and(&Deed::Connect, &Ok(()));
        Ok(session)
    }

    fn call(
        &mut self,
        moment: Moment,
        session: u32,
        reference: u32,
        call: Call,
    ) -> Result<(), NotMade> {
        let act = Act::Call {
            session,
            reference,
            call,
        };
        let item = PlannedItem::Reply { reference, session };
        self.act(moment, session, act, Deed::Call(session), item)
    }

    fn broken(&mut self, moment: Moment, session: u32) -> Result<(), NotMade> {
        let act = Act::Broken { session };
        self.act(
            moment,
            session,
            act,
            Deed::Broken(session),
            PlannedItem::Fault,
        )
    }

    fn drain_into(
        &mut self,
        moment: Moment,
        session: u32,
        into: &mut ArrayVec<Item, 64>,
    ) -> Result<(), NotMade> {
        into.clear();
        let refused = Deed::Drain(session, true);
        if let Some(fault) = self.course.refuse_act() {
            return Err(self.refuse(refused, fault));
        }
        let Ok(mut items) = Vec::with_capacity(self.alloc, self.course.most_drained()) else {
            return Err(self.refuse(refused, NotMade::Memory));
        };
        if self.reserve().is_err() {
            return Err(self.refuse(refused, NotMade::Memory));
        }
        take_waiting(&mut self.waiting, session, &mut items);
        put_items(items.as_slice(), into);
        self.records.push_reserved(record_of(self.pass, moment, Act::Drain { session }, session));
        self.drains.push_reserved(Drained { session, items });
        self.answers = self
            .answers
            .and(&Deed::Drain(session, into.is_empty()), &Ok(()));
        Ok(())
    }

    fn flush(&mut self, moment: Moment) -> Result<(), NotMade> {
        if let Some(fault) = self.course.refuse_flush() {
            return Err(self.refuse(Deed::Flush, fault));
        }
        if self.reserve().is_err() {
            return Err(self.refuse(Deed::Flush, NotMade::Memory));
        }
        self.records
            .push_reserved(record_of(self.pass, moment, Act::Flush, 0));
        self.answers = self.answers.and(&Deed::Flush, &Ok(()));
        Ok(())
    }

    fn close(&mut self, moment: Moment, session: u32) -> Result<(), NotMade> {
        if let Some(fault) = self.course.refuse_close() {
            return Err(self.refuse(Deed::Close(session), fault));
        }
        self.records.push_reserved(record_of(self.pass, moment, Act::Close { session }, session));
        self.answers = self.answers.and(&Deed::Close(session), &Ok(()));
        Ok(())
    }

    fn stopped(&mut self) -> Result<bool, NotMade> {
        match self.course.next_question() {
            Ok(false) => {
                self.answers = self.answers.and(&Deed::Ask, &Ok(()));
                Ok(false)
            }
            Ok(true) => {
                self.refuse(Deed::Ask, NotMade::Gone(Why::Stopped));
                Ok(true)
            }
            Err(fault) => Err(self.refuse(Deed::Ask, fault)),
        }
    }
}
