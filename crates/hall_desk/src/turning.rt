ghost use Rattle.std.specs.Prelude.{◌≡◌, ◌<◌, OnErr, IfSome, []};
ghost use Rattle.kom_state_lock.specs.Passes.{IsPassOf, HoldsNoTurn};
ghost use Rattle.kom_model.specs.Legal.{HasUser};
ghost use Rattle.hall_desk.specs.Acts.{IsOpening};
ghost use Rattle.hall_desk.specs.Passes.{pass_view, Knows};
ghost use Rattle.hall_desk.specs.Turns.{IsOfOpen, Ends, AnswersStopped, Looks};

use crate::acts::Acts;
use arrayvec::ArrayVec;
use kom_state_lock::{Full, Hall, Pass};
use kom_types::{Entry, Item, Made, NotMade};
use std::sync::Wait;

/// Makes the act of an entry in one turn, and logs its record. What a drain takes is put into an
/// array, in place of what stood there.
pub(crate) fn turn<R: Wait, B: Acts>(
    rt: &R,
    hall: &Hall<B>,
    pass: &mut Pass<B>,
    entry: &Entry,
    items: &mut ArrayVec<Item, 64>,
) -> Result<Made, NotMade>
    requires pass { IsPassOf hall.now pass.old }
    requires free { HoldsNoTurn pass.old.turn }
    requires opening { IsOpening (B.server hall.now.opening) }
    requires knows { Knows (B.server hall.now.opening) (pass_view B.made pass.old) }
    requires own { entry.now.pass ≡ pass.old.number }
    requires open { IsOfOpen (pass_view B.made pass.old).mine entry.now.act }
    requires user { HasUser entry.now.act }
    ensures pass { IsPassOf hall.now pass.new }
    ensures free { HoldsNoTurn pass.new.turn }
    ensures knows { Knows (B.server hall.now.opening) (pass_view B.made pass.new) }
    ensures ends { Ends (B.server hall.now.opening) (pass_view B.made pass.old)
        (pass_view B.made pass.new) entry.now items.new.items result }
    ensures none_taken { OnErr result (items.new.items ≡ []) }
{
    let mut held = match hall.take(rt, pass) {
        Ok(held) => held,
        Err(Full(ticket)) => {
            items.clear();
            return Err(NotMade::Full(ticket));
        }
    };
    match held.value().make(entry, items) {
        Ok(logged) => {
            let made = Made::of(entry, B::session(&logged), B::is_short(&logged));
            hall.log(pass, &mut held, logged);
            hall.put(pass, held);
            Ok(made)
        }
        Err(why) => {
            hall.put(pass, held);
            Err(why)
        }
    }
}

/// Asks in one turn, which logs nothing, whether the server was shut down or its store refused a
/// flush.
pub(crate) fn ask<R: Wait, B: Acts>(
    rt: &R,
    hall: &Hall<B>,
    pass: &mut Pass<B>,
) -> Result<bool, NotMade>
    requires pass { IsPassOf hall.now pass.old }
    requires free { HoldsNoTurn pass.old.turn }
    requires knows { Knows (B.server hall.now.opening) (pass_view B.made pass.old) }
    ensures pass { IsPassOf hall.now pass.new }
    ensures free { HoldsNoTurn pass.new.turn }
    ensures knows { Knows (B.server hall.now.opening) (pass_view B.made pass.new) }
    ensures tells { AnswersStopped (B.server hall.now.opening) (pass_view B.made pass.old)
        (pass_view B.made pass.new) result }
{
    let mut held = match hall.take(rt, pass) {
        Ok(held) => held,
        Err(Full(ticket)) => return Err(NotMade::Full(ticket)),
    };
    let stopped = held.value().stopped();
    hall.put(pass, held);
    Ok(stopped)
}

/// Asks in one turn, which logs nothing, how often something came to a session of the server
/// unasked. Where no turn is left it is u64::MAX, and the next act meets the fault.
pub(crate) fn news<R: Wait, B: Acts>(rt: &R, hall: &Hall<B>, pass: &mut Pass<B>) -> u64
    requires pass { IsPassOf hall.now pass.old }
    requires free { HoldsNoTurn pass.old.turn }
    requires knows { Knows (B.server hall.now.opening) (pass_view B.made pass.old) }
    ensures pass { IsPassOf hall.now pass.new }
    ensures free { HoldsNoTurn pass.new.turn }
    ensures knows { Knows (B.server hall.now.opening) (pass_view B.made pass.new) }
    ensures looks { Looks (B.server hall.now.opening) (pass_view B.made pass.old)
        (pass_view B.made pass.new) }
{
    let Ok(mut held) = hall.take(rt, pass) else {
        return u64::MAX;
    };
    let news = held.value().news();
    hall.put(pass, held);
    news
}

/// Asks in one turn, which logs nothing, for the first session of the pass, above this number, to
/// which something came unasked after this count of news. Where no turn is left it finds none, and
/// the next act meets the fault.
pub(crate) fn next_news<R: Wait, B: Acts>(
    rt: &R,
    hall: &Hall<B>,
    pass: &mut Pass<B>,
    above: u32,
    since: u64,
) -> Option<u32>
    requires pass { IsPassOf hall.now pass.old }
    requires free { HoldsNoTurn pass.old.turn }
    requires knows { Knows (B.server hall.now.opening) (pass_view B.made pass.old) }
    ensures pass { IsPassOf hall.now pass.new }
    ensures free { HoldsNoTurn pass.new.turn }
    ensures knows { Knows (B.server hall.now.opening) (pass_view B.made pass.new) }
    ensures looks { Looks (B.server hall.now.opening) (pass_view B.made pass.old)
        (pass_view B.made pass.new) }
    ensures above { IfSome result (λ session. above < session) }
{
    let number = pass.number();
    let Ok(mut held) = hall.take(rt, pass) else {
        return None;
    };
    let next = held.value().next_news(number, above, since);
    hall.put(pass, held);
    next
}
