ghost use Rattle.std.specs.Prelude.{◌≡◌, ◌<◌, ◌≤◌, ◌++◌, ◌∷◌, [], List, length};
ghost use Rattle.std.specs.Prelude.{IfOk, IfSome, OnErr};
ghost use Rattle.kom_types.specs.declared.acts.Act.TheVariants as act;
ghost use Rattle.kom_types.specs.declared.items.Item.{Item as TakenItem};
ghost use Rattle.kom_types.specs.declared.limits.TheConstants.{LONGEST_USER_NAME};
ghost use Rattle.kom_links.specs.Answers.{deed_of};
ghost use Rattle.kom_links.specs.Records.{IsOpen};
ghost use Rattle.kom_links.specs.DeskCalls.{Connects, Acts as MakesAct, Calls, Drains, Flushes};
ghost use Rattle.kom_links.specs.DeskCalls.{Closes, AsksStopped, IsLookedAt};
ghost use Rattle.kom_state_lock.specs.Passes.{IsPassOf, HoldsNoTurn};
ghost use Rattle.kom_state_lock.specs.declared.views.Turn.TheVariants.{Resting};
ghost use Rattle.kom_model.specs.Legal.{HasUser};
ghost use Rattle.hall_desk.specs.Acts.{IsOpening};
ghost use Rattle.hall_desk.specs.Passes.{pass_view};
ghost use Rattle.hall_desk.specs.Desks.{IsKnownAnswer, Stands, GoesOn, desk_view};
ghost use Rattle.hall_desk.specs.Going.{goes_on_itself, goes_on_further};
ghost use Rattle.hall_desk.specs.Turns.{IsOfOpen, HadTurn, IsActed, AnswersStopped};
ghost use Rattle.hall_desk.specs.Rows.{IsAnswer, IsStopped};

use crate::acts::Acts;
use crate::answers::{answer_of, flush_answer, stop_answer};
use crate::turning::{ask, news, next_news, turn};
use arrayvec::ArrayVec;
use http_server::Log;
use kom_links::{Deed, Desk, NewsDesk};
use kom_state_lock::{Hall, Pass};
use kom_types::{Act, Bytes, Call, Entry, Item, Made, Memory, Moment, NotMade};
use std::alloc::Global;
use std::marker::Model;
use std::sync::Wait;

/// The desk of a pass in a hall. Each act is made in a turn of its own, for which the desk waits.
pub struct HallDesk<'a, R: Wait, B: Acts> {
    rt: &'a R,
    alloc: Global,
    hall: &'a Hall<B>,
    pass: Pass<B>,
    answers: Log<Deed, Result<(), NotMade>>,
    // The array of the acts that take no items.
    none: ArrayVec<Item, 64>,
}

impl<'a, R: Wait, B: Acts> Model for HallDesk<'a, R, B> {
    ghost use Rattle.hall_desk.specs.Desks.{Kept, kept_in, Rests};

    ghost Value = { Kept };

    ghost view = { λ desk. kept_in B.made B.server desk.hall.now desk.pass desk.answers.items };

    ghost invariant = { λ desk. Rests B.made B.server desk.hall.now desk.pass desk.answers.items };
}

impl<'a, R: Wait, B: Acts> HallDesk<'a, R, B> {
    /// A desk of a pass that has made no act, over a server that has no entry yet.
    pub fn new(rt: &'a R, alloc: Global, hall: &'a Hall<B>, pass: Pass<B>) -> HallDesk<'a, R, B>
        requires pass { IsPassOf hall.now pass }
        requires resting { pass.turn ≡ Resting }
        requires unseen { pass.seen ≡ [] }
        requires unused { pass.mine ≡ [] }
        requires opening { IsOpening (B.server hall.now.opening) }
        ensures table { result.table ≡ hall.now.table }
        ensures start { result.start ≡ B.server hall.now.opening }
        ensures pass { result.pass ≡ pass_view B.made pass }
        ensures answers { result.answers ≡ [] }
    {
        HallDesk {
            rt,
            alloc,
            hall,
            pass,
            answers: Log::new(),
            none: ArrayVec::new(),
        }
    }

    /// Does nothing: it is for clauses, which find here that each answer has its cause.
    pub fn assured(&self)
        ensures stands { Stands self.now }
    {
        let _ = &self.answers;
    }

    /// The pass, which holds no turn.
    pub fn into_pass(self) -> Pass<B>
        ensures pass { pass_view B.made result ≡ self.entry.pass }
        ensures table { result.table ≡ self.entry.table }
        ensures free { HoldsNoTurn result.turn }
    {
        let HallDesk {
            rt: _,
            alloc: _,
            hall: _,
            pass,
            answers: _,
            none: _,
        } = self;
        pass
    }

    /// Logs a deed with what was answered, for clauses alone.
    fn tell(&mut self, deed: Deed, answer: Result<(), NotMade>)
        requires { IsKnownAnswer self.old.start self.old.pass (deed, answer) }
        ensures { self.new ≡ record self.old { answers = self.old.answers ++ (deed, answer) ∷ [] } }
    {
        self.answers = self.answers.and(&deed, &answer);
    }

    /// The entry of an act that is made now.
    fn entry(&self, moment: Moment, act: Act) -> Entry
        ensures { result ≡ record { pass = self.now.pass.number; moment = moment; act = act } }
    {
        Entry {
            pass: self.pass.number(),
            moment,
            act,
        }
    }

    /// Makes an act, and logs its record. What a drain takes is put into an array.
    fn make(
        &mut self,
        moment: Moment,
        act: Act,
        items: &mut ArrayVec<Item, 64>,
    ) -> Result<Made, NotMade>
        requires open { IsOfOpen self.old.pass.mine act }
        requires user { HasUser act }
        ensures turn { HadTurn self.old moment act items.new.items result self.new }
        ensures none_taken { OnErr result (items.new.items ≡ []) }
        ensures answers { self.new.answers ≡ self.old.answers }
    {
        let entry = self.entry(moment, act);
        turn(self.rt, self.hall, &mut self.pass, &entry, items)
    }

    /// Makes an act that takes no items, and logs its record.
    fn make_alone(&mut self, moment: Moment, act: Act) -> Result<Made, NotMade>
        requires open { IsOfOpen self.old.pass.mine act }
        requires user { HasUser act }
        ensures turn { (items : List TakenItem)
            × HadTurn self.old moment act items result self.new }
        ensures answers { self.new.answers ≡ self.old.answers }
    {
        let entry = self.entry(moment, act);
        turn(self.rt, self.hall, &mut self.pass, &entry, &mut self.none)
    }

    /// Makes an act that takes no items, and logs its record, and for clauses how it was answered.
    fn act(&mut self, moment: Moment, act: Act, deed: Deed) -> Result<Made, NotMade>
        requires open { IsOfOpen self.old.pass.mine act }
        requires user { HasUser act }
        requires deed { deed ≡ deed_of act }
        ensures { IsActed self.old moment act result self.new }
    {
        let made = self.make_alone(moment, act);
        self.tell(deed, answer_of(&made));
        made
    }

    /// Whether the server was shut down or its store refused a flush.
    fn ask_stopped(&mut self) -> Result<bool, NotMade>
        ensures tells { AnswersStopped self.old.start self.old.pass self.new.pass result }
        ensures table { self.new.table ≡ self.old.table }
        ensures start { self.new.start ≡ self.old.start }
        ensures answers { self.new.answers ≡ self.old.answers }
        ensures stood { Stands self.old }
    {
        ask(self.rt, self.hall, &mut self.pass)
    }
}

impl<R: Wait, B: Acts> Drop for HallDesk<'_, R, B> {
    fn drop(self) {
        let HallDesk {
            rt: _,
            alloc: _,
            hall: _,
            pass: _,
            answers: _,
            none: _,
        } = self;
    }
}

/// The act of a greeting.
fn greeting(alloc: Global, user: &[u8], host: &[u8]) -> Result<Act, Memory>
    ensures { IfOk result (λ made. made ≡ act.Connect user.now host.now) }
{
    Ok(Act::Connect {
        user: Bytes::copy_of(alloc, user)?,
        host: Bytes::copy_of(alloc, host)?,
    })
}

impl<'a, R: Wait, B: Acts> Desk for HallDesk<'a, R, B> {
    ghost view = { λ desk. desk_view desk };

    ghost goes_on = { λ old new. GoesOn old new };

    ghost goes_on_itself = { goes_on_itself };

    ghost goes_on_further = { goes_on_further };

    fn connect(&mut self, moment: Moment, user: &[u8], host: &[u8]) -> Result<u32, NotMade>
        requires { length user.now ≤ LONGEST_USER_NAME }
        ensures connects { Connects (desk_view self.old) moment user.now host.now result
            (desk_view self.new) }
        ensures on { GoesOn self.old self.new }
        ensures answer { IsAnswer self.old.start self.new.pass (act.Connect user.now host.now)
            result }
    {
        let Ok(act) = greeting(self.alloc, user, host) else {
            self.tell(Deed::Connect, Err(NotMade::Memory));
            return Err(NotMade::Memory);
        };
        match self.act(moment, act, Deed::Connect) {
            Ok(made) => Ok(made.session()),
            Err(fault) => Err(fault),
        }
    }

    fn call(
        &mut self,
        moment: Moment,
        session: u32,
        reference: u32,
        call: Call,
    ) -> Result<(), NotMade>
        requires { IsOpen session (desk_view self.old).mine }
        ensures calls { Calls (desk_view self.old) moment (act.Call session reference call) session
            result (desk_view self.new) }
        ensures on { GoesOn self.old self.new }
        ensures answer { IsAnswer self.old.start self.new.pass (act.Call session reference call)
            result }
    {
        let act = Act::Call {
            session,
            reference,
            call,
        };
        answer_of(&self.act(moment, act, Deed::Call(session)))
    }

    fn broken(&mut self, moment: Moment, session: u32) -> Result<(), NotMade>
        requires { IsOpen session (desk_view self.old).mine }
        ensures acts { MakesAct (desk_view self.old) moment (act.Broken session) session result
            (desk_view self.new) }
        ensures on { GoesOn self.old self.new }
        ensures answer { IsAnswer self.old.start self.new.pass (act.Broken session) result }
    {
        answer_of(&self.act(moment, Act::Broken { session }, Deed::Broken(session)))
    }

    fn drain_into(
        &mut self,
        moment: Moment,
        session: u32,
        into: &mut ArrayVec<Item, 64>,
    ) -> Result<(), NotMade>
        requires { IsOpen session (desk_view self.old).mine }
        ensures drains { Drains (desk_view self.old) moment session into.new.items result
            (desk_view self.new) }
        ensures on { GoesOn self.old self.new }
        ensures answer { IsAnswer self.old.start self.new.pass (act.Drain session) result }
    {
        let answer = answer_of(&self.make(moment, Act::Drain { session }, into));
        self.tell(Deed::Drain(session, into.is_empty()), answer);
        answer
    }

    fn flush(&mut self, moment: Moment) -> Result<(), NotMade>
        ensures flushes { Flushes (desk_view self.old) moment result (desk_view self.new) }
        ensures on { GoesOn self.old self.new }
        ensures answer { IsAnswer self.old.start self.new.pass act.Flush result }
    {
        let answer = flush_answer(self.make_alone(moment, Act::Flush));
        self.tell(Deed::Flush, answer);
        answer
    }

    fn close(&mut self, moment: Moment, session: u32) -> Result<(), NotMade>
        requires { IsOpen session (desk_view self.old).mine }
        ensures closes { Closes (desk_view self.old) moment session result (desk_view self.new) }
        ensures on { GoesOn self.old self.new }
        ensures answer { IsAnswer self.old.start self.new.pass (act.Close session) result }
    {
        answer_of(&self.act(moment, Act::Close { session }, Deed::Close(session)))
    }

    fn stopped(&mut self) -> Result<bool, NotMade>
        ensures asks { AsksStopped (desk_view self.old) result (desk_view self.new) }
        ensures on { GoesOn self.old self.new }
        ensures answer { IsStopped self.old.start self.new.pass result }
    {
        let stopped = self.ask_stopped();
        self.tell(Deed::Ask, stop_answer(stopped));
        stopped
    }
}

// Where no turn of the lock is left, `news` says u64::MAX and `next_news` finds none: the next act
// meets the fault.
impl<'a, R: Wait, B: Acts> NewsDesk for HallDesk<'a, R, B> {
    fn news(&mut self) -> u64
        ensures looked { IsLookedAt (desk_view self.old) (desk_view self.new) }
        ensures on { GoesOn self.old self.new }
    {
        news(self.rt, self.hall, &mut self.pass)
    }

    fn next_news(&mut self, above: u32, since: u64) -> Option<u32>
        ensures above { IfSome result (λ session. above < session) }
        ensures looked { IsLookedAt (desk_view self.old) (desk_view self.new) }
        ensures on { GoesOn self.old self.new }
    {
        next_news(self.rt, self.hall, &mut self.pass, above, since)
    }
}
