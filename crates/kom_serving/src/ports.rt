// Serving gates at a port, each by a worker.
ghost use Rattle.std.specs.Prelude.{◌≡◌, ◌↔◌, ◌≤◌, ◌<◌, List, ℕ, map, length, vec_len};
ghost use Rattle.std.specs.Prelude.{[], false, IsTrue, IfSome, IfOk, OnErr, IsSomeAnd, IsNone};
ghost use Rattle.std.specs.Prelude.{is_some, is_ok};
ghost use Rattle.std.specs.List.{AllByRecursion};
ghost use Rattle.kom_links.specs.Doors.{KeepsTold, IsNewGate};
ghost use Rattle.kom_links.specs.WorldCounts.{with_port};
ghost use Rattle.hall_desk.specs.Acts.{IsOpening};
ghost use Rattle.kom_serving.specs.Runs.{AsksPort, with_clocks, IsRunOf, IsOver, HasFailed};

use crate::closing::Closing;
use crate::spaces::Space;
use crate::standard::{Left, unserved};
use crate::workers::{have_failed, serve_all};
use hall_desk::Acts;
use kom_commands::{AtPort, Way};
use kom_links::{Gate, World, WorldFault};
use kom_state_lock::Hall;
use kom_types::Memory;
use std::alloc::Global;
use std::sync::Wait;
use std::thread::Threads;

/// Serves the sessions at gates at a port, each by a worker, on a server that has made no act,
/// until each gate ends or fails or the server is stopped. Nothing is served where the gates, a
/// clock, or memory for them or for the sessions that a worker serves at a time is refused.
pub fn serve_port<
    R: Threads + Wait + Sync,
    B: Acts<Entry: Send> + Drop + Send,
    W: World<Gate: Gate<Link: Send>>,
>(rt: &R, alloc: Global, server: B, at: AtPort, world: &mut W) -> Left<B, W>
    requires opening { IsOpening (B.server server) }
    requires within { (0 < at.workers) × (at.workers ≤ 64) }
    ensures asks { AsksPort at.workers (is_some result.end) (W.view world.old).counts
        (W.view world.new).counts }

    // What was served, and where its history leads.
    ensures served { IfSome result.end (IsRunOf B.made W.Gate.Link.view (B.server server)) }
    ensures leads { IfSome result.end (λ service. B.led server service.seen result.server) }
    ensures led { (history : List B.Entry) × B.led server history result.server }
    ensures unserved { IsNone result.end → B.led server [] result.server }
    ensures gates { IfSome result.end (λ service. length service.gates ≡ at.workers) }

    // How it ended.
    ensures failed { IsTrue result.failed
        ↔ IsSomeAnd result.end (λ service. HasFailed service.gates) }
    ensures over { result.failed ≡ false → IfSome result.end (λ service.
        IsOver (B.server server) (map B.made service.seen) service.gates) }
{
    let Ok(mut clocks) = open_clocks(alloc, at.workers, world) else {
        return unserved(server);
    };
    let (hall, passes) = match Hall::make(alloc, server, at.workers + 1) {
        Ok(made) => made,
        Err((server, _memory)) => return unserved(server),
    };
    let Ok(space) = Space::new(alloc, at) else {
        let (server, _pass) = hall.close(passes);
        return unserved(server);
    };
    let Ok(mut gates) = open_at(alloc, at, world) else {
        space.leave();
        let (server, _pass) = hall.close(passes);
        return unserved(server);
    };
    let (server, pass) = serve_all(rt, alloc, hall, passes, &mut gates, &mut clocks, space);
    let failed = have_failed(gates.as_slice());
    Left {
        server,
        failed,
        end: Some(Closing {
            pass,
            gates,
            clocks,
        }),
    }
}

/// The gates at a port, one for each worker, as its way of serving asks for them.
fn open_at<W: World>(alloc: Global, at: AtPort, world: &mut W) -> Result<Vec<W::Gate>, WorldFault>
    ensures fresh { IfOk result (λ gates.
        AllByRecursion (λ gate. IsNewGate (W.Gate.view gate)) gates.items) }
    ensures number { IfOk result (λ gates. length gates.items ≡ at.workers) }
    ensures counts { (W.view world.new).counts
        ≡ with_port (is_ok result) (W.view world.old).counts }
{
    match at.way {
        Way::OneAtATime => world.open_gates(alloc, at.port, at.workers),
        Way::ManyAtATime => world.open_doors(alloc, at.port, at.workers),
    }
}

/// So many clocks that have given no moment yet.
fn open_clocks<W: World>(alloc: Global, number: u32, world: &mut W) -> Result<Vec<W::Clock>, Memory>
    ensures number { IfOk result (λ clocks. vec_len clocks ≡ number) }
    ensures asks { IfOk result (λ clocks. (W.view world.new).counts
        ≡ with_clocks number (W.view world.old).counts) }
    ensures some { OnErr result ((asked : ℕ) × (asked ≤ number) × ((W.view world.new).counts
        ≡ with_clocks asked (W.view world.old).counts)) }
    ensures told { KeepsTold (W.view world.old) (W.view world.new) }
{
    let mut clocks = Vec::with_capacity(alloc, number as usize)?;
    for _ in 0..number {
        clocks.push_reserved(world.clock()?);
    }
    Ok(clocks)
}
