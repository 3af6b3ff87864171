ghost use Rattle.std.specs.Prelude.{◌≡◌, ◌≢◌, ◌↔◌, [], ◌∷◌, true, false, IsTrue, map};
ghost use Rattle.kom_links.specs.Doors.{IsNewGate};
ghost use Rattle.kom_links.specs.Outside.{IsFresh};
ghost use Rattle.kom_state_lock.specs.Views.{is_served};
ghost use Rattle.kom_state_lock.specs.Passes.{AreNewPasses};
ghost use Rattle.hall_desk.specs.Acts.{IsOpening};
ghost use Rattle.hall_desk.specs.Desks.{GoesOn};
ghost use Rattle.kom_serving.specs.Runs.{AllGivenBack, IsRun};
ghost use Rattle.kom_serving.specs.Serving.{Serves, KeepsFirst, OneIsOut};

use hall_desk::{Acts, HallDesk};
use kom_links::{Clock, Gate, Next};
use kom_session::serve_link;
use kom_state_lock::{Hall, Pass};
use std::alloc::Global;
use std::sync::Wait;

/// Serves the sessions at a gate that has given no link yet, by the first of the two passes of a
/// new hall, until the gate ends or fails, and closes the hall. Returns whether the gate failed,
/// the server, and a pass that has seen the whole history.
pub(crate) fn serve_alone<R: Wait, B: Acts + Drop, G: Gate, C: Clock>(
    rt: &R,
    alloc: Global,
    hall: Hall<B>,
    mut passes: Vec<Pass<B>>,
    gate: &mut G,
    clock: &mut C,
) -> (bool, B, Pass<B>)
    requires two { hall.passes ≡ 2 }
    requires new { AreNewPasses hall.table 2 passes.items }
    requires opening { IsOpening (B.server hall.opening) }
    requires fresh { IsNewGate (G.view gate.old) }
    ensures run { IsRun G.Link.view (B.server hall.opening) (map B.made result.2.seen)
        result.2.drawn (G.view gate.new ∷ []) (C.gave clock.new ∷ []) }
    ensures led { B.led hall.opening result.2.seen result.1 }
    ensures first { KeepsFirst (C.gave clock.old) (C.gave clock.new) }
    ensures free { is_served result.2.turn ≡ false }
    ensures failed { IsTrue result.0 ↔ ((G.view gate.new).faults ≢ 0) }
    ensures ended { result.0 ≡ false → (G.view gate.new).ended ≡ true }
{
    let own = passes.pop().unwrap();
    let first = passes.pop().unwrap();
    let mut desk = HallDesk::new(rt, alloc, &hall, first);
    let failed = serve_new(rt, alloc, &mut desk, gate, clock);
    passes.push_reserved(desk.into_pass());
    passes.push_reserved(own);
    let (server, pass) = hall.close(passes);
    (failed, server, pass)
}

/// Serves the sessions at a gate that has given no link yet, by a pass that has made no act, until
/// the gate ends or fails, and says whether it failed.
fn serve_new<R: Wait, B: Acts, G: Gate, C: Clock>(
    rt: &R,
    alloc: Global,
    desk: &mut HallDesk<'_, R, B>,
    gate: &mut G,
    clock: &mut C,
) -> bool
    requires unseen { desk.old.pass.seen ≡ [] }
    requires unused { desk.old.pass.mine ≡ [] }
    requires fresh { IsNewGate (G.view gate.old) }
    ensures on { GoesOn desk.old desk.new }
    ensures serves { Serves G.Link.view desk.new.start desk.new.pass (G.view gate.new).returned
        (C.gave clock.new) }
    ensures all_back { AllGivenBack (G.view gate.new) }
    ensures first { KeepsFirst (C.gave clock.old) (C.gave clock.new) }
    ensures failed { IsTrue result ↔ ((G.view gate.new).faults ≢ 0) }
    ensures ended { result ≡ false → (G.view gate.new).ended ≡ true }
{
    serve_gate(rt, alloc, desk, gate, clock);
    gate.faults() != 0
}

/// Serves the links of a gate one after the other, until the gate ends or fails.
fn serve_gate<R: Wait, B: Acts, G: Gate, C: Clock>(
    rt: &R,
    alloc: Global,
    desk: &mut HallDesk<'_, R, B>,
    gate: &mut G,
    clock: &mut C,
)
    requires serves { Serves G.Link.view desk.old.start desk.old.pass (G.view gate.old).returned
        (C.gave clock.old) }
    requires all_back { AllGivenBack (G.view gate.old) }
    ensures on { GoesOn desk.old desk.new }
    ensures serves { Serves G.Link.view desk.new.start desk.new.pass (G.view gate.new).returned
        (C.gave clock.new) }
    ensures all_back { AllGivenBack (G.view gate.new) }
    ensures first { KeepsFirst (C.gave clock.old) (C.gave clock.new) }
    ensures ended { (G.view gate.new).faults ≡ 0 → (G.view gate.new).ended ≡ true }
{
    for _ in rt.forever() {
        match gate.next() {
            Next::Link(link) => serve_one(rt, alloc, desk, gate, clock, link),
            Next::NotYet => {}
            Next::Ended => return,
            Next::Failed => return,
        }
    }
    unreachable!()
}

/// Serves a link that the gate gave, and gives it back.
pub(crate) fn serve_one<R: Wait, B: Acts, G: Gate, C: Clock>(
    rt: &R,
    alloc: Global,
    desk: &mut HallDesk<'_, R, B>,
    gate: &mut G,
    clock: &mut C,
    mut link: G::Link,
)
    requires fresh { IsFresh (G.Link.view link) }
    requires serves { Serves G.Link.view desk.old.start desk.old.pass (G.view gate.old).returned
        (C.gave clock.old) }
    requires one_out { OneIsOut (G.view gate.old) }
    ensures on { GoesOn desk.old desk.new }
    ensures serves { Serves G.Link.view desk.new.start desk.new.pass (G.view gate.new).returned
        (C.gave clock.new) }
    ensures all_back { AllGivenBack (G.view gate.new) }
    ensures first { KeepsFirst (C.gave clock.old) (C.gave clock.new) }
{
    let served = serve_link(rt, alloc, desk, &mut link, clock);
    desk.assured();
    gate.give_back(link, served);
}
