// The words that name a store: a run that serves over one, and one that makes one.
ghost use Rattle.std.specs.Prelude.{◌≡◌, ◌≢◌, ◌↔◌, ℕ, IsTrue, IsNone, IsSome, IsSomeAnd, IfSome};
ghost use Rattle.std.specs.Prelude.{List, [], map, length, false, is_some, None, Some, ◌≤◌};
ghost use Rattle.kom_commands.specs.declared.words.Command.TheVariants as said;
ghost use Rattle.kom_links.specs.Doors.{IsNewSink};
ghost use Rattle.kom_links.specs.Outside.{Rose};
ghost use Rattle.kom_journal.specs.Images.{images_at};
ghost use Rattle.kom_journal.specs.Images.{moment as moment_on};
ghost use Rattle.hall_desk.specs.Acts.{IsOpening};
ghost use Rattle.kom_book.specs.Books.{IsPlain, StandsNow, state_in};
ghost use Rattle.store_check.specs.Stores.{IsWrong, IsUnswept, is_of_content, is_memory};
ghost use Rattle.kom_serving.specs.Runs.{IsRunOf, HasFailed};
ghost use Rattle.kom_server.specs.Statuses.{FitsCases, FindsStore, IsWell, Asks, AsksPlace};
ghost use Rattle.kom_server.specs.Statuses.{serve_over};
ghost use Rattle.kom_server.specs.Stops.{HasServed, seen_of};
ghost use Rattle.kom_server.specs.Comes.{IsHidingRun, IsOverAt, IsWithin, gates_at};
ghost use Rattle.kom_server.specs.Comes.{WasOpened, OverStore, MakesStore};

use crate::ran::{Ran, settle, unopened};
use hall_desk::Acts;
use kom_book::Book;
use kom_commands::{AtPort, Cases, MADE, put_text};
use kom_disk::Disk;
use kom_journal::OpenFault;
use kom_links::{Clock, Gate, World, has_risen};
use kom_serving::{Left, serve_port, serve_standard, unserved};
use std::alloc::Global;
use std::sync::Wait;
use std::thread::Threads;
use store_check::cases_of;

/// Serves the sessions over standard input and output, or at a port, on the server that the store
/// of a path keeps, until the gates end or fail or the server at a port is stopped. The world had
/// failed so often before.
pub(crate) fn serve_store<R: Threads + Wait + Sync, W: World<Gate: Gate<Link: Send>>>(
    rt: &R,
    alloc: Global,
    path: &str,
    port: Option<AtPort>,
    before: u64,
    world: &mut W,
) -> Ran<W>
    requires within { IsWithin port }
    requires before { before ≤ (W.view world.old).faults }
    ensures asks { Asks (serve_over port) (is_some result.disk) (is_some result.end)
        (W.view world.old).counts (W.view world.new).counts }
    ensures cases { FitsCases W.Disk.faults (serve_over port)
        (Rose before (W.view world.new).faults) result.cases result.disk result.end }
    ensures finds { FindsStore W.Disk.tells (W.view world.old).files path.now
        (IsTrue result.cases.is_unfit) (IsWell result.cases) (is_some result.disk)
        (is_some result.end) (W.view world.old).counts (W.view world.new).counts }
    ensures over { WasOpened (W.view world.old) (W.view world.new) result.disk result.end
        → OverStore W.Disk.Disk (W.view world.old) path.now (λ start. IsHidingRun
        W.Gate.Link.view port start (IsWell result.cases)) result.disk result.end }
{
    let Ok(disk) = world.open_disk(path) else {
        return unopened(has_risen(before, world.faults()));
    };
    match Book::open(alloc, disk) {
        Ok(book) => serve_opened(rt, alloc, book, port, before, world),
        Err((disk, fault)) => refused(disk, fault, has_risen(before, world.faults())),
    }
}

/// The same on the server of a store that was opened.
fn serve_opened<R: Threads + Wait + Sync, W: World<Gate: Gate<Link: Send>>>(
    rt: &R,
    alloc: Global,
    book: Book<W::Disk>,
    port: Option<AtPort>,
    before: u64,
    world: &mut W,
) -> Ran<W>
    requires within { IsWithin port }
    requires open { IsSome book.journal × IsPlain book }
    requires stands { IsTrue W.Disk.tells
        → StandsNow (moment_on W.Disk.moment) (images_at W.Disk.images_at) book }
    ensures opened { IsSome result.disk × (result.cases.is_unfit ≡ false) }
    ensures asks { AsksPlace port (is_some result.end) (W.view world.old).counts
        (W.view world.new).counts }
    ensures cases { FitsCases W.Disk.faults (serve_over port)
        (Rose before (W.view world.new).faults) result.cases result.disk result.end }
    ensures run { IfSome result.end (IsHidingRun W.Gate.Link.view port (state_in book)
        (IsWell result.cases)) }
    ensures left { IfSome result.disk
        (HasServed W.Disk.Disk (state_in book) (seen_of result.end)) }
{
    let left = serve_at(rt, alloc, book, port, world);
    settle(left, has_risen(before, world.faults()))
}

/// A store was not opened, or not made, for this reason, and the world may have failed.
pub(crate) fn refused<W: World>(disk: W::Disk, fault: OpenFault, gate_failed: bool) -> Ran<W>
    ensures disk { result.disk ≡ Some disk }
    ensures end { result.end ≡ None }
    ensures failed { IsTrue result.cases.store_failed ↔ (W.Disk.faults disk ≢ 0) }
    ensures unfit { result.cases.is_unfit ≡ is_of_content fault }
    ensures gate { result.cases.gate_failed ≡ gate_failed }
    ensures memory { result.cases.no_memory ≡ is_memory fault }
    ensures unswept { IsUnswept result.cases }
{
    let cases = cases_of(fault, disk.faults());
    Ran {
        cases: Cases {
            gate_failed,
            ..cases
        },
        disk: Some(disk),
        end: None,
    }
}

/// Serves the sessions over standard input and output, or at a port, on a server that has made no
/// act.
fn serve_at<
    R: Threads + Wait + Sync,
    B: Acts<Entry: Send> + Drop + Send,
    W: World<Gate: Gate<Link: Send>>,
>(rt: &R, alloc: Global, server: B, port: Option<AtPort>, world: &mut W) -> Left<B, W>
    requires opening { IsOpening (B.server server) }
    requires within { IsWithin port }
    ensures asks { AsksPlace port (is_some result.end) (W.view world.old).counts
        (W.view world.new).counts }
    ensures served { IfSome result.end (IsRunOf B.made W.Gate.Link.view (B.server server)) }
    ensures leads { IfSome result.end (λ service. B.led server service.seen result.server) }
    ensures led { (history : List B.Entry) × B.led server history result.server }
    ensures unserved { IsNone result.end → B.led server [] result.server }
    ensures gates { IfSome result.end (λ service. length service.gates ≡ gates_at port) }
    ensures failed { IsTrue result.failed
        ↔ IsSomeAnd result.end (λ service. HasFailed service.gates) }
    ensures over { result.failed ≡ false → IfSome result.end (λ service.
        IsOverAt port (B.server server) (map B.made service.seen) service.gates) }
{
    match port {
        None => match world.clock() {
            Ok(clock) => serve_standard(rt, alloc, server, clock, world),
            Err(_memory) => unserved(server),
        },
        Some(at) => serve_port(rt, alloc, server, at, world),
    }
}

/// Makes a store of a new server, whose administrator has this password, on an empty disk, and says
/// so.
pub fn init<W: World>(
    alloc: Global,
    path: &str,
    password: &[u8],
    world: &mut W,
    sink: &mut W::Sink,
) -> Ran<W>
    requires fresh { IsNewSink (W.Sink.view sink.old) }
    ensures asks { Asks said.Init (is_some result.disk) (is_some result.end)
        (W.view world.old).counts (W.view world.new).counts }
    ensures cases { (before : ℕ) → before ≤ (W.view world.old).faults
        → FitsCases W.Disk.faults said.Init (Rose before (W.view world.new).faults)
        result.cases result.disk result.end }
    ensures unopened { IsNone result.disk → IsTrue result.cases.store_failed }
    ensures silent { IsWrong result.cases → W.Sink.view sink.new ≡ W.Sink.view sink.old }
    ensures made { MakesStore W.Disk.Disk W.Clock.gave (W.view world.old) path.now password.now
        (IsWell result.cases) (IsTrue result.cases.is_unfit) result.disk
        (W.Sink.view sink.new) }
{
    let Ok(disk) = world.open_disk(path) else {
        return unopened(false);
    };
    let Ok(mut clock) = world.clock() else {
        return Ran {
            cases: Cases {
                store_failed: disk.faults() != 0,
                is_unfit: false,
                gate_failed: false,
                is_refused: false,
                is_given_up: false,
                no_memory: true,
            },
            disk: Some(disk),
            end: None,
        };
    };
    let now = clock.now();
    match Book::init(alloc, disk, password, now) {
        Ok(book) => {
            put_text(sink, MADE);
            Ran {
                cases: Cases {
                    store_failed: false,
                    is_unfit: false,
                    gate_failed: false,
                    is_refused: false,
                    is_given_up: false,
                    no_memory: false,
                },
                disk: book.into_disk(),
                end: None,
            }
        }
        Err((disk, fault)) => refused(disk, fault, false),
    }
}
