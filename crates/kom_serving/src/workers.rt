//! Workers, each with a pass of one hall, a gate and a clock, that serve side by side.
ghost use Rattle.std.specs.Prelude.{◌≡◌, ◌↔◌, ◌+◌, ◌<◌, ◌≤◌, ℕ, [], List, Option, Some, true};
ghost use Rattle.std.specs.Prelude.{false, length, map, slice_index_or, vec_len, vec_capacity};
ghost use Rattle.std.specs.Prelude.{IsSome, IsTrue};
ghost use Rattle.std.specs.List.{AllByRecursion};
ghost use Rattle.kom_links.specs.declared.served.Served.{Served as ServedLink};
ghost use Rattle.kom_links.specs.Doors.{IsNewGate};
ghost use Rattle.kom_state_lock.specs.Views.{is_served};
ghost use Rattle.kom_state_lock.specs.Passes.{AreNewPasses};
ghost use Rattle.hall_desk.specs.Acts.{IsOpening};
ghost use Rattle.hall_desk.specs.Desks.{GoesOn, WasStopped};
ghost use Rattle.kom_serving.specs.Runs.{AllGivenBack, IsRun, IsDone, HasFailed};
ghost use Rattle.kom_serving.specs.Serving.{Serves, KeepsFirst};
ghost use Rattle.kom_serving.specs.Workers.{WorkerView, IsIdle, AreIdle, HasServed, HaveServed};
ghost use Rattle.kom_serving.specs.Workers.{gates_of, readings_of, passes_of, KeepFirst};

use crate::crowds::{Room, attend_many};
use crate::serving::serve_one;
use crate::spaces::Space;
use hall_desk::{Acts, HallDesk};
use kom_links::{Clock, Desk, Gate, Next, PolledGate};
use kom_state_lock::{Hall, Pass};
use std::alloc::Global;
use std::marker::Model;
use std::sync::Wait;
use std::thread;
use std::thread::Threads;

/// What one thread has.
pub(crate) struct Worker<B: Acts, G: Gate, C: Clock> {
    // It is away while it serves.
    pass: Option<Pass<B>>,
    gate: G,
    clock: C,
    // Where it serves many links at a time.
    room: Option<Room<G::Link>>,
}

impl<B: Acts, G: Gate, C: Clock> Model for Worker<B, G, C> {
    ghost use Rattle.kom_serving.specs.Workers.{WorkerView};

    ghost Value = { WorkerView B B.Entry G.Link };

    ghost view = { λ worker. record {
      pass = worker.pass;
      gate = G.view worker.gate;
      gave = C.gave worker.clock;
    } };
}

/// Serves the sessions at new gates, each by a pass of a new hall with a clock of its own, in as
/// many threads as there are gates, until each gate ends or fails or the server is stopped, and
/// closes the hall. The server is left, and the last pass, which serves no gate and has seen the
/// whole history.
pub(crate) fn serve_all<
    R: Threads + Wait + Sync,
    B: Acts<Entry: Send> + Drop + Send,
    G: PolledGate<Link: Send> + Send,
    C: Clock + Send,
>(
    rt: &R,
    alloc: Global,
    hall: Hall<B>,
    mut passes: Vec<Pass<B>>,
    gates: &mut Vec<G>,
    clocks: &mut Vec<C>,
    space: Space<B, G, C>,
) -> (B, Pass<B>)
    requires some { 0 < vec_len gates.old }
    requires passes { hall.passes ≡ vec_len gates.old + 1 }
    requires clocks { vec_len clocks.old ≡ vec_len gates.old }
    requires room { (space.row.items ≡ []) × (vec_len gates.old ≤ vec_capacity space.row) }
    requires new { AreNewPasses hall.table hall.passes passes.items }
    requires opening { IsOpening (B.server hall.opening) }
    requires fresh { AllByRecursion (λ gate. IsNewGate (G.view gate)) gates.old.items }
    ensures leads { B.led hall.opening result.1.seen result.0 }
    ensures run { IsRun G.Link.view (B.server hall.opening) (map B.made result.1.seen)
        result.1.drawn (map (λ gate. G.view gate) gates.new.items)
        (map (λ clock. C.gave clock) clocks.new.items) }
    ensures first { KeepFirst (map (λ clock. C.gave clock) clocks.old.items)
        (map (λ clock. C.gave clock) clocks.new.items) }
    ensures done { AllByRecursion (λ gate. IsDone (B.server hall.opening)
        (map B.made result.1.seen) (G.view gate)) gates.new.items }
    ensures free { is_served result.1.turn ≡ false }
    ensures number { vec_len gates.new ≡ vec_len gates.old }
{
    let Space { mut row, mut rooms } = space;
    let own = passes.pop().unwrap();
    gather(&mut passes, gates, clocks, &mut rooms, &mut row);
    work_together(rt, alloc, &hall, row.as_mut_slice());
    scatter(row, &mut passes, gates, clocks);
    passes.push_reserved(own);
    hall.close(passes)
}

/// A worker for each pass, with the gate and the clock that stand at the same place, and a room
/// while there is one.
fn gather<B: Acts, G: Gate, C: Clock>(
    passes: &mut Vec<Pass<B>>,
    gates: &mut Vec<G>,
    clocks: &mut Vec<C>,
    rooms: &mut Vec<Room<G::Link>>,
    row: &mut Vec<Worker<B, G, C>>,
)
    requires gates { vec_len gates.old ≡ vec_len passes.old }
    requires clocks { vec_len clocks.old ≡ vec_len passes.old }
    requires room { (row.old.items ≡ []) × (vec_len passes.old ≤ vec_capacity row.old) }
    ensures passes { passes_of row.new.items ≡ map (λ pass. Some pass) passes.old.items }
    ensures gates { gates_of row.new.items ≡ map (λ gate. G.view gate) gates.old.items }
    ensures clocks { readings_of row.new.items ≡ map (λ clock. C.gave clock) clocks.old.items }
    ensures none_left { (passes.new.items ≡ []) × (gates.new.items ≡ []) × (clocks.new.items ≡ []) }
    ensures room { (vec_capacity passes.new ≡ vec_capacity passes.old)
        × (vec_capacity gates.new ≡ vec_capacity gates.old)
        × (vec_capacity clocks.new ≡ vec_capacity clocks.old) }
{
    while 0 < passes.len() {
        let pass = passes.remove(0);
        let gate = gates.remove(0);
        let clock = clocks.remove(0);
        row.push_reserved(Worker {
            pass: Some(pass),
            gate,
            clock,
            room: rooms.pop(),
        });
    }
}

/// All workers side by side.
fn work_together<
    R: Threads + Wait + Sync,
    B: Acts<Entry: Send> + Send,
    G: PolledGate<Link: Send> + Send,
    C: Clock + Send,
>(rt: &R, alloc: Global, hall: &Hall<B>, workers: &mut [Worker<B, G, C>])
    requires some { 0 < length workers.old }
    requires idle { AreIdle hall.now workers.old }
    requires opening { IsOpening (B.server hall.now.opening) }
    ensures served { HaveServed B.made G.Link.view (B.server hall.now.opening) hall.now
        workers.new }
    ensures first { (d : WorkerView B B.Entry G.Link) → KeepsFirst
        (slice_index_or workers.old 0 d).gave (slice_index_or workers.new 0 d).gave }
{
    let threads = workers.len();
    thread::for_each_mut(
        rt,
        workers,
        threads,
        &|number, worker| work(rt, alloc, hall, number, worker),
    );
}

/// What one worker does.
fn work<R: Wait, B: Acts, G: PolledGate, C: Clock>(
    rt: &R,
    alloc: Global,
    hall: &Hall<B>,
    number: usize,
    worker: &mut Worker<B, G, C>,
)
    requires idle { IsIdle hall.now number worker.old }
    requires opening { IsOpening (B.server hall.now.opening) }
    ensures served { HasServed B.made G.Link.view (B.server hall.now.opening) hall.now number
        worker.new }
    ensures first { KeepsFirst worker.old.gave worker.new.gave }
{
    let pass = worker.pass.take().unwrap();
    let room = worker.room.take();
    let mut desk = HallDesk::new(rt, alloc, hall, pass);
    attend_new(
        rt,
        alloc,
        room,
        &mut desk,
        &mut worker.gate,
        &mut worker.clock,
    );
    worker.pass = Some(desk.into_pass());
}

/// Serves the links of a gate that has given none yet, by a pass that has made no act: many at a
/// time where there is room for them, else one after the other.
fn attend_new<R: Wait, B: Acts, G: PolledGate, C: Clock>(
    rt: &R,
    alloc: Global,
    room: Option<Room<G::Link>>,
    desk: &mut HallDesk<'_, R, B>,
    gate: &mut G,
    clock: &mut C,
)
    requires unseen { desk.old.pass.seen ≡ [] }
    requires unused { desk.old.pass.mine ≡ [] }
    requires fresh { IsNewGate (G.view gate.old) }
    ensures on { GoesOn desk.old desk.new }
    ensures serves { Serves G.Link.view desk.new.start desk.new.pass (G.view gate.new).returned
        (C.gave clock.new) }
    ensures all_back { AllGivenBack (G.view gate.new) }
    ensures first { KeepsFirst (C.gave clock.old) (C.gave clock.new) }
    ensures done { IsDone desk.new.start desk.new.pass.seen (G.view gate.new) }
{
    match room {
        Some(room) => attend_many(rt, room, desk, gate, clock),
        None => attend(rt, alloc, desk, gate, clock),
    }
}

/// Serves the links of a gate one after the other, until the gate ends or fails or, if it has none,
/// the server is found to be stopped.
fn attend<R: Wait, B: Acts, G: Gate, C: Clock>(
    rt: &R,
    alloc: Global,
    desk: &mut HallDesk<'_, R, B>,
    gate: &mut G,
    clock: &mut C,
)
    requires serves { Serves G.Link.view desk.old.start desk.old.pass (G.view gate.old).returned
        (C.gave clock.old) }
    requires all_back { AllGivenBack (G.view gate.old) }
    ensures on { GoesOn desk.old desk.new }
    ensures serves { Serves G.Link.view desk.new.start desk.new.pass (G.view gate.new).returned
        (C.gave clock.new) }
    ensures all_back { AllGivenBack (G.view gate.new) }
    ensures first { KeepsFirst (C.gave clock.old) (C.gave clock.new) }
    ensures done { IsDone desk.new.start desk.new.pass.seen (G.view gate.new) }
{
    for _ in rt.forever() {
        match gate.next() {
            Next::Link(link) => serve_one(rt, alloc, desk, gate, clock, link),
            Next::NotYet => {
                if is_stopped::<R, B, G>(desk) {
                    return;
                }
            }
            Next::Ended => return,
            Next::Failed => return,
        }
    }
    unreachable!()
}

/// Whether the server is known to be stopped. No turn of the lock may be left to ask. What the pass
/// has served stays as it was.
fn is_stopped<R: Wait, B: Acts, G: Gate>(desk: &mut HallDesk<'_, R, B>) -> bool
    ensures on { GoesOn desk.old desk.new }
    ensures serves { (returned : Option (List (G.Link × ServedLink))) (gave : Option (List ℕ)) →
        Serves G.Link.view desk.old.start desk.old.pass returned gave →
        Serves G.Link.view desk.new.start desk.new.pass returned gave }
    ensures stopped { result ≡ true → WasStopped desk.new.start desk.new.pass.seen }
{
    let answer = desk.stopped();
    desk.assured();
    match answer {
        Ok(stopped) => stopped,
        Err(_) => false,
    }
}

/// What the workers have goes back to its rows.
fn scatter<B: Acts, G: Gate, C: Clock>(
    mut row: Vec<Worker<B, G, C>>,
    passes: &mut Vec<Pass<B>>,
    gates: &mut Vec<G>,
    clocks: &mut Vec<C>,
)
    requires some { AllByRecursion (λ worker. IsSome worker.pass) row.items }
    requires none { (passes.old.items ≡ []) × (gates.old.items ≡ []) × (clocks.old.items ≡ []) }
    requires room { (vec_len row ≤ vec_capacity passes.old) × (vec_len row ≤ vec_capacity gates.old)
        × (vec_len row ≤ vec_capacity clocks.old) }
    ensures passes { map (λ pass. Some pass) passes.new.items ≡ passes_of row.items }
    ensures gates { map (λ gate. G.view gate) gates.new.items ≡ gates_of row.items }
    ensures clocks { map (λ clock. C.gave clock) clocks.new.items ≡ readings_of row.items }
    ensures room { vec_capacity passes.new ≡ vec_capacity passes.old }
    ensures number { (vec_len passes.new ≡ vec_len row) × (vec_len gates.new ≡ vec_len row) }
{
    while 0 < row.len() {
        let Worker {
            pass,
            gate,
            clock,
            room: _,
        } = row.remove(0);
        let pass = pass.unwrap();
        passes.push_reserved(pass);
        gates.push_reserved(gate);
        clocks.push_reserved(clock);
    }
    row.destroy_empty();
}

/// Whether one of the gates failed.
pub(crate) fn have_failed<G: Gate>(gates: &[G]) -> bool
    ensures { IsTrue result ↔ HasFailed (map (λ gate. G.view gate) gates.now) }
{
    for gate in gates {
        if gate.faults() != 0 {
            return true;
        }
    }
    false
}
