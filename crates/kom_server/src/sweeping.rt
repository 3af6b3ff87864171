// Sweeping a server by the first pass of a hall.
ghost use Rattle.std.specs.Prelude.{◌≡◌, [], ◌∷◌, List, map, false, IfSome, IsNone};
ghost use Rattle.std.specs.Prelude.{is_some};
ghost use Rattle.kom_links.specs.Outside.{IsNothing};
ghost use Rattle.kom_sweep.specs.declared.ends.SweepEnd.TheVariants as end;
ghost use Rattle.kom_state_lock.specs.Views.{is_served};
ghost use Rattle.kom_state_lock.specs.Passes.{AreNewPasses};
ghost use Rattle.kom_sweep.specs.Acting.{sight};
ghost use Rattle.kom_sweep.specs.Sweeps.{IsSweep};
ghost use Rattle.hall_desk.specs.Acts.{IsOpening};
ghost use Rattle.hall_desk.specs.Desks.{GoesOn, Stands, desk_view};
ghost use Rattle.kom_server.specs.Statuses.{AsksClock};
ghost use Rattle.kom_server.specs.Sweeps.{IsSweepRun};

use hall_desk::{Acts, HallDesk};
use kom_links::{Clock, World};
use kom_serving::{Closing, Left, unserved};
use kom_state_lock::{Hall, Pass};
use kom_sweep::{SweepEnd, sweep};
use std::alloc::Global;
use std::sync::Wait;

/// Sweeps a server that has made no act, by a session of a person, at the moment that a clock of
/// the world gives first. Nothing is swept where the clock, or memory for it, is refused.
pub(crate) fn sweep_server<R: Wait, B: Acts + Drop, W: World>(
    rt: &R,
    alloc: Global,
    server: B,
    person: u32,
    password: &[u8],
    world: &mut W,
) -> (Left<B, W>, SweepEnd)
    requires opening { IsOpening (B.server server) }
    ensures asks { AsksClock (is_some result.0.end) (W.view world.old).counts
        (W.view world.new).counts }
    ensures swept { IfSome result.0.end (λ service. IsSweepRun (B.server server) person
        password.now (W.view world.old).moment (map B.made service.seen) service.drawn
        service.readings result.1) }
    ensures no_gate { IfSome result.0.end (λ service. service.gates ≡ []) }
    ensures unswept { IsNone result.0.end → result.1 ≡ end.Memory }
    ensures leads { IfSome result.0.end (λ service.
        B.led server service.seen result.0.server) }
    ensures led { (history : List B.Entry) × B.led server history result.0.server }
    ensures unserved { IsNone result.0.end → B.led server [] result.0.server }
    ensures failed { result.0.failed ≡ false }
{
    let Ok(mut clock) = world.clock() else {
        return (unserved(server), SweepEnd::Memory);
    };
    let Ok(mut clocks) = Vec::with_capacity(alloc, 1) else {
        return (unserved(server), SweepEnd::Memory);
    };
    let (hall, passes) = match Hall::make(alloc, server, 2) {
        Ok(made) => made,
        Err((server, _memory)) => return (unserved(server), SweepEnd::Memory),
    };
    let (ending, server, pass) = sweep_alone(rt, alloc, hall, passes, &mut clock, person, password);
    clocks.push_reserved(clock);
    let left = Left {
        server,
        failed: false,
        end: Some(Closing {
            pass,
            gates: Vec::new(alloc),
            clocks,
        }),
    };
    (left, ending)
}

/// Sweeps a new hall by the first of its two passes, and closes it. Returns how that ended, the
/// server, and a pass that has seen the whole history.
fn sweep_alone<R: Wait, B: Acts + Drop, C: Clock>(
    rt: &R,
    alloc: Global,
    hall: Hall<B>,
    mut passes: Vec<Pass<B>>,
    clock: &mut C,
    person: u32,
    password: &[u8],
) -> (SweepEnd, B, Pass<B>)
    requires two { hall.passes ≡ 2 }
    requires new { AreNewPasses hall.table 2 passes.items }
    requires opening { IsOpening (B.server hall.opening) }
    requires fresh { IsNothing (C.gave clock.old) }
    ensures run { IsSweepRun (B.server hall.opening) person password.now (C.first clock.old)
        (map B.made result.2.seen) result.2.drawn (C.gave clock.new ∷ []) result.0 }
    ensures led { B.led hall.opening result.2.seen result.1 }
    ensures free { is_served result.2.turn ≡ false }
{
    let own = passes.pop().unwrap();
    let first = passes.pop().unwrap();
    let mut desk = HallDesk::new(rt, alloc, &hall, first);
    let ending = sweep_new(alloc, &mut desk, clock, person, password);
    passes.push_reserved(desk.into_pass());
    passes.push_reserved(own);
    let (server, pass) = hall.close(passes);
    (ending, server, pass)
}

/// Sweeps the server of a desk.
fn sweep_new<R: Wait, B: Acts, C: Clock>(
    alloc: Global,
    desk: &mut HallDesk<'_, R, B>,
    clock: &mut C,
    person: u32,
    password: &[u8],
) -> SweepEnd
    ensures on { GoesOn desk.old desk.new }
    ensures stands { Stands desk.new }
    ensures sweeps { IsSweep person password.now (C.first clock.old)
        (sight (desk_view desk.old) (C.gave clock.old) 1) (desk_view desk.new) (C.gave clock.new)
        result }
{
    let ending = sweep(alloc, desk, clock, person, password);
    desk.assured();
    ending
}
