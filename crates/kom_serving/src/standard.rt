// Serving the one gate over standard input and output.
ghost use Rattle.std.specs.Prelude.{◌≡◌, ◌↔◌, ℕ, [], ◌∷◌, List, length, true, false, None};
ghost use Rattle.std.specs.Prelude.{IsTrue, IfSome, IsSomeAnd, IsNone, is_some};
ghost use Rattle.std.specs.List.{AllByRecursion};
ghost use Rattle.hall_desk.specs.Acts.{IsOpening};
ghost use Rattle.kom_serving.specs.Runs.{AsksGate, IsRunOf, IsFirstReading, HasFailed};

use crate::closing::Closing;
use crate::serving::serve_alone;
use hall_desk::Acts;
use kom_links::{Gate, World};
use kom_state_lock::Hall;
use std::alloc::Global;
use std::sync::Wait;

/// What serving left: the server, whether a gate failed, and what was opened, if it was.
#[derive(Drop)]
pub struct Left<B: Acts + Drop, W: World> {
    pub server: B,
    pub failed: bool,
    pub end: Option<Closing<B, W>>,
}

/// Serves the sessions at the gate over standard input and output, on a server that has made no
/// act, until the gate ends or fails. Nothing is served where the gate, or memory for it, is
/// refused.
pub fn serve_standard<R: Wait, B: Acts + Drop, W: World>(
    rt: &R,
    alloc: Global,
    server: B,
    mut clock: W::Clock,
    world: &mut W,
) -> Left<B, W>
    requires opening { IsOpening (B.server server) }
    ensures gate { AsksGate (is_some result.end) (W.view world.old).counts
        (W.view world.new).counts }

    // What was served, and where its history leads.
    ensures served { IfSome result.end (IsRunOf B.made W.Gate.Link.view (B.server server)) }
    ensures first { IfSome result.end (λ service. (first : ℕ)
        → IsFirstReading first (W.Clock.gave clock ∷ [])
        → IsFirstReading first service.readings) }
    ensures leads { IfSome result.end (λ service. B.led server service.seen result.server) }
    ensures led { (history : List B.Entry) × B.led server history result.server }
    ensures unserved { IsNone result.end → B.led server [] result.server }
    ensures one_gate { IfSome result.end (λ service. length service.gates ≡ 1) }

    // How it ended.
    ensures failed { IsTrue result.failed
        ↔ IsSomeAnd result.end (λ service. HasFailed service.gates) }
    ensures ended { result.failed ≡ false → IfSome result.end (λ service.
        AllByRecursion (λ gate. gate.ended ≡ true) service.gates) }
{
    let Ok(mut gates) = Vec::with_capacity(alloc, 1) else {
        return unserved(server);
    };
    let Ok(mut clocks) = Vec::with_capacity(alloc, 1) else {
        return unserved(server);
    };
    let (hall, passes) = match Hall::make(alloc, server, 2) {
        Ok(made) => made,
        Err((server, _memory)) => return unserved(server),
    };
    let Ok(mut gate) = world.std_gate() else {
        let (server, _pass) = hall.close(passes);
        return unserved(server);
    };
    let (failed, server, pass) = serve_alone(rt, alloc, hall, passes, &mut gate, &mut clock);
    gates.push_reserved(gate);
    clocks.push_reserved(clock);
    Left {
        server,
        failed,
        end: Some(Closing {
            pass,
            gates,
            clocks,
        }),
    }
}

/// Nothing was served.
pub fn unserved<B: Acts + Drop, W: World>(server: B) -> Left<B, W>
    ensures { result ≡ record { server = server; failed = false; end = None } }
{
    Left {
        server,
        failed: false,
        end: None,
    }
}
