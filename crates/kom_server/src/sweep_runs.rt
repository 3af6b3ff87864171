// The word that has a store swept.
ghost use Rattle.std.specs.Prelude.{◌≡◌, ℕ, false, ◌≤◌, is_some, IsTrue, IsSome, IfSome};
ghost use Rattle.std.specs.Prelude.{OnOk, OnErr};
ghost use Rattle.kom_commands.specs.declared.words.Command.TheVariants as said;
ghost use Rattle.kom_commands.specs.Reports.{HasText, sweep_lines};
ghost use Rattle.kom_links.specs.Doors.{IsNewSink};
ghost use Rattle.kom_links.specs.Outside.{Rose};
ghost use Rattle.kom_journal.specs.Images.{images_at};
ghost use Rattle.kom_journal.specs.Images.{moment as moment_on};
ghost use Rattle.kom_book.specs.Books.{IsPlain, StandsNow, state_in};
ghost use Rattle.store_check.specs.Stores.{IsWrong};
ghost use Rattle.kom_server.specs.Statuses.{FitsCases, FindsStore, IsWell, Asks, AsksClock};
ghost use Rattle.kom_server.specs.Stops.{HasServed, seen_of};
ghost use Rattle.kom_server.specs.Sweeps.{IsMetBy};
ghost use Rattle.kom_server.specs.Comes.{WasOpened, OverStore, EndsSweep};

use crate::ran::{Ran, settle, unopened};
use crate::store_runs::refused;
use crate::sweeping::sweep_server;
use kom_book::Book;
use kom_commands::{Cases, put_text, sweep_report};
use kom_links::{Sink, World};
use kom_sweep::SweepEnd;
use kom_types::Memory;
use std::alloc::Global;
use std::sync::Wait;

/// Sweeps the server that the store of a path keeps, and puts to a sink how many texts were deleted
/// and how many are left.
pub(crate) fn sweep_store<R: Wait, W: World>(
    rt: &R,
    alloc: Global,
    path: &str,
    person: u32,
    password: &[u8],
    world: &mut W,
    sink: &mut W::Sink,
) -> Ran<W>
    requires fresh { IsNewSink (W.Sink.view sink.old) }
    ensures asks { Asks (said.Sweep person) (is_some result.disk) (is_some result.end)
        (W.view world.old).counts (W.view world.new).counts }
    ensures cases { (before : ℕ) → before ≤ (W.view world.old).faults
        → FitsCases W.Disk.faults (said.Sweep person) (Rose before (W.view world.new).faults)
        result.cases result.disk result.end }
    ensures silent { IsWrong result.cases → W.Sink.view sink.new ≡ W.Sink.view sink.old }
    ensures finds { FindsStore W.Disk.tells (W.view world.old).files path.now
        (IsTrue result.cases.is_unfit) (IsWell result.cases) (is_some result.disk)
        (is_some result.end) (W.view world.old).counts (W.view world.new).counts }
    ensures swept { WasOpened (W.view world.old) (W.view world.new) result.disk result.end
        → OverStore W.Disk.Disk (W.view world.old) path.now (EndsSweep person password.now
        (W.view world.old).moment (λ ending. IsMetBy ending result.cases (W.Sink.view sink.new)))
        result.disk result.end }
{
    let Ok(disk) = world.open_disk(path) else {
        return unopened(false);
    };
    match Book::open(alloc, disk) {
        Ok(book) => sweep_opened(rt, alloc, book, person, password, world, sink),
        Err((disk, fault)) => refused(disk, fault, false),
    }
}

/// The same on the server of a store that was opened.
fn sweep_opened<R: Wait, W: World>(
    rt: &R,
    alloc: Global,
    book: Book<W::Disk>,
    person: u32,
    password: &[u8],
    world: &mut W,
    sink: &mut W::Sink,
) -> Ran<W>
    requires fresh { IsNewSink (W.Sink.view sink.old) }
    requires open { IsSome book.journal × IsPlain book }
    requires stands { IsTrue W.Disk.tells
        → StandsNow (moment_on W.Disk.moment) (images_at W.Disk.images_at) book }
    ensures opened { IsSome result.disk × (result.cases.is_unfit ≡ false) }
    ensures asks { AsksClock (is_some result.end) (W.view world.old).counts
        (W.view world.new).counts }
    ensures cases { FitsCases W.Disk.faults (said.Sweep person) ⊥ result.cases result.disk
        result.end }
    ensures silent { IsWrong result.cases → W.Sink.view sink.new ≡ W.Sink.view sink.old }
    ensures swept { IfSome result.end (EndsSweep person password.now (W.view world.old).moment
        (λ ending. IsMetBy ending result.cases (W.Sink.view sink.new)) (state_in book)) }
    ensures left { IfSome result.disk
        (HasServed W.Disk.Disk (state_in book) (seen_of result.end)) }
{
    let (left, ending) = sweep_server(rt, alloc, book, person, password, world);
    let ran = settle(left, false);
    let cases = tell(alloc, ending, ran.cases.store_failed, sink);
    let Ran {
        cases: _,
        disk,
        end,
    } = ran;
    Ran { cases, disk, end }
}

/// The cases that the end of a sweep comes to. What was swept is put to a sink, unless the store
/// failed.
fn tell<S: Sink>(alloc: Global, ending: SweepEnd, store_failed: bool, sink: &mut S) -> Cases
    requires fresh { IsNewSink (S.view sink.old) }
    ensures store { result.store_failed ≡ store_failed }
    ensures well { (result.is_unfit ≡ false) × (result.gate_failed ≡ false) }
    ensures met { IsMetBy ending result (S.view sink.new) }
    ensures silent { IsWrong result → S.view sink.new ≡ S.view sink.old }
{
    let well = Cases {
        store_failed: false,
        is_unfit: false,
        gate_failed: false,
        is_refused: false,
        is_given_up: false,
        no_memory: false,
    };
    match ending {
        SweepEnd::Done { swept, kept } => {
            if store_failed {
                return Cases {
                    store_failed: true,
                    ..well
                };
            }
            match report(alloc, swept, kept, sink) {
                Ok(()) => well,
                Err(Memory) => Cases {
                    no_memory: true,
                    ..well
                },
            }
        }
        SweepEnd::Refused(_, _) => Cases {
            store_failed,
            is_refused: true,
            ..well
        },
        SweepEnd::Gone(_) => Cases {
            store_failed,
            is_given_up: true,
            ..well
        },
        SweepEnd::Full(_) => Cases {
            store_failed,
            is_given_up: true,
            ..well
        },
        SweepEnd::Memory => Cases {
            store_failed,
            no_memory: true,
            ..well
        },
    }
}

/// Puts how many texts were deleted, and how many are left.
fn report<S: Sink>(alloc: Global, swept: u64, kept: u64, sink: &mut S) -> Result<(), Memory>
    requires fresh { IsNewSink (S.view sink.old) }
    ensures put { OnOk result (HasText (sweep_lines swept kept) (S.view sink.new)) }
    ensures untold { OnErr result (S.view sink.new ≡ S.view sink.old) }
{
    let report = sweep_report(alloc, swept, kept)?;
    put_text(sink, report.as_slice());
    Ok(())
}
