ghost use Rattle.std.specs.Prelude.{◌≡◌, ◌≢◌, ◌⊎◌, ◌↔◌, ℕ, [], ◌∷◌, List, Option, codes, get_or};
ghost use Rattle.std.specs.Prelude.{Some, None, IsTrue, IsNone, IfSome, is_some, ◌≤◌, true, false};
ghost use Rattle.std.specs.List.{slice_get};
ghost use Rattle.kom_commands.specs.declared.numbers.AtPort.{AtPort as PortModel};
ghost use Rattle.kom_commands.specs.declared.words.Command.TheVariants as said;
ghost use Rattle.kom_commands.specs.Reports.{HasText};
ghost use Rattle.kom_commands.specs.Words.{IsSpelled, IsRefused, serves, names_store};
ghost use Rattle.kom_commands.specs.Loads.{SaysLoad};
ghost use Rattle.kom_commands.specs.Sweeps.{SweepsBy};
ghost use Rattle.kom_links.specs.Outside.{IsNothing, Rose};
ghost use Rattle.kom_links.specs.Doors.{IsNewSink};
ghost use Rattle.kom_links.specs.WorldCounts.{with_sink};
ghost use Rattle.store_check.specs.Stores.{IsWrong, IsReported};
ghost use Rattle.kom_server.specs.Statuses.{Says, StoreFails, GateFails, FitsStatus, FitsCases};
ghost use Rattle.kom_server.specs.Statuses.{IsWell, IsWellAt, FindsStore, Asks, AskFor};
ghost use Rattle.kom_server.specs.Statuses.{serve_over, opens_store};
ghost use Rattle.kom_server.specs.Sweeps.{IsEndAt};
ghost use Rattle.kom_server.specs.Comes.{usage, Comes, ServesNew, IsHidingRun, EndsSweep};
ghost use Rattle.kom_server.specs.Comes.{WasOpened, OverStore, MakesStore, IsLoaded};

use crate::loads::load;
use crate::outcome::Outcome;
use crate::ran::{Ran, settle};
use crate::store_runs::{init, serve_store};
use crate::sweep_runs::sweep_store;
use kom_book::Book;
use kom_commands::{Cases, Command, command_of, put_text};
use kom_disk::Disk;
use kom_links::{Clock, Gate, Sink, World, has_risen};
use kom_serving::serve_standard;
use kom_types::Words;
use std::alloc::Global;
use std::sync::Wait;
use std::thread::Threads;
use store_check::{Checked, check};

/// The usage line.
const USAGE: &[u8] = b"usage: komd once [STORE] | serve STORE PORT WORKERS \
    | hub STORE PORT WORKERS | init STORE PASSWORD | check STORE | load N \
    | sweep STORE PERSON PASSWORD\n";

/// Carries out a command line.
pub fn run<R: Threads + Wait + Sync, W: World<Gate: Gate<Link: Send>>>(
    rt: &R,
    alloc: Global,
    words: &Words,
    world: &mut W,
) -> Outcome<W>
    // Status 2 says that the words are no command. The usage line is then written to the sink, and
    // the world is asked for nothing else.
    ensures refused { (result.status ≡ 2) ↔ IsRefused words.now }
    ensures usage { IsRefused words.now → HasText usage (W.Sink.view result.sink)
        × IsNone result.disk × IsNone result.end }
    ensures asks { AskFor words.now (is_some result.disk) (is_some result.end)
        (W.view world.old).counts (W.view world.new).counts }

    // The other statuses, in the order in which they are tried: 3 says that the store failed; 4
    // that there is no store, or something where one is to be made; 5 that a gate or the world
    // failed; of a sweep, 8 that the person was refused, 10 that the server or the store gave up in
    // the middle; 7 that the sink failed; 6 that memory ran out; 0 that each gate has ended or the
    // server was stopped, or that the report was written. At 0 and 7 alone one is begun.
    ensures statuses { FitsStatus words.now (is_some result.end) result.status }
    ensures store { (result.status ≡ 3) ↔ StoreFails W.Disk.faults (Says words.now names_store
        × Rose (W.view world.old).faults (W.view world.new).faults) result.disk result.end }
    ensures gates { (result.status ≡ 5) ↔ (Says words.now serves × (result.status ≢ 3)
        × (result.status ≢ 4) × GateFails (Rose (W.view world.old).faults
        (W.view world.new).faults) result.end) }
    ensures sink { (result.status ≡ 7) ↔ ((¬ IsRefused words.now) × (result.status ≢ 3)
        × (result.status ≢ 4) × ((W.Sink.view result.sink).faults ≢ 0)) }
    ensures silent { Says words.now serves
        ⊎ ((¬ IsRefused words.now) × (¬ IsWellAt result.status))
        → IsNothing (W.Sink.view result.sink).put }

    // `once` serves a new server. Over a store, as `serve` and `hub`, it serves that for which the
    // store stands; a stop at any moment since it was opened leaves a prefix of the history.
    // What is told to be no store is left alone, so the status is 4, or 3, 5 or 6 by its own cause.
    ensures once { words.now ≡ codes "once" ∷ [] → IfSome result.end
        (ServesNew W.Gate.Link.view (result.status ≡ 0)) }
    ensures over { (store : List ℕ) (port : Option PortModel)
        → IsSpelled words.now (serve_over port) → slice_get words.now 1 ≡ Some store
        → WasOpened (W.view world.old) (W.view world.new) result.disk result.end
        → OverStore W.Disk.Disk (W.view world.old) store (λ start. IsHidingRun W.Gate.Link.view
        port start (result.status ≡ 0)) result.disk result.end }
    ensures no_store { (store : List ℕ) → Says words.now opens_store
        → slice_get words.now 1 ≡ Some store → FindsStore W.Disk.tells (W.view world.old).files
        store (result.status ≡ 4) (IsWellAt result.status) (is_some result.disk)
        (is_some result.end) (with_sink (W.view world.old).counts) (W.view world.new).counts }

    // The other commands write a report.
    ensures check { (store : List ℕ) → words.now ≡ codes "check" ∷ store ∷ []
        → IsWellAt result.status
        → IsReported W.Disk.tells (W.view world.old).files store (W.Sink.view result.sink) }
    ensures init { (store password : List ℕ) → words.now ≡ codes "init" ∷ store ∷ password ∷ []
        → MakesStore W.Disk.Disk W.Clock.gave (W.view world.old) store password
        (IsWellAt result.status) (result.status ≡ 4) result.disk (W.Sink.view result.sink) }
    ensures load { (count : ℕ) → SaysLoad words.now count → IsWellAt result.status
        → IsLoaded count (W.Sink.view result.sink) }
    ensures sweep { (store : List ℕ) (person : ℕ) (password : List ℕ)
        → SweepsBy words.now store person password
        → WasOpened (W.view world.old) (W.view world.new) result.disk result.end
        → OverStore W.Disk.Disk (W.view world.old) store (EndsSweep person password
        (W.view world.old).moment (λ ending. result.status ≢ 3 → IsEndAt ending result.status
        (W.Sink.view result.sink))) result.disk result.end }
{
    let before = world.faults();
    let mut sink = world.out();
    let Some(command) = command_of(words) else {
        put_text(&mut sink, USAGE);
        return Outcome {
            status: 2,
            sink,
            disk: None,
            end: None,
        };
    };
    let ran = carry_out(rt, alloc, command, words, before, world, &mut sink);
    let status = ran.cases.status(sink.faults() != 0);
    let Ran {
        cases: _,
        disk,
        end,
    } = ran;
    Outcome {
        status,
        sink,
        disk,
        end,
    }
}

/// Carries out a command. The world had failed so often before.
fn carry_out<R: Threads + Wait + Sync, W: World<Gate: Gate<Link: Send>>>(
    rt: &R,
    alloc: Global,
    command: Command,
    words: &Words,
    before: u64,
    world: &mut W,
    sink: &mut W::Sink,
) -> Ran<W>
    requires spelled { IsSpelled words.now command }
    requires fresh { IsNewSink (W.Sink.view sink.old) }
    requires before { before ≤ (W.view world.old).faults }
    ensures asks { Asks command (is_some result.disk) (is_some result.end)
        (W.view world.old).counts (W.view world.new).counts }
    ensures cases { FitsCases W.Disk.faults command (Rose before (W.view world.new).faults)
        result.cases result.disk result.end }
    ensures silent { IsTrue (serves command) ⊎ IsWrong result.cases
        → W.Sink.view sink.new ≡ W.Sink.view sink.old }
    ensures finds { IsTrue (opens_store command) → FindsStore W.Disk.tells
        (W.view world.old).files (get_or words.now 1 []) (IsTrue result.cases.is_unfit)
        (IsWell result.cases) (is_some result.disk) (is_some result.end)
        (W.view world.old).counts (W.view world.new).counts }
    ensures comes { Comes W.Disk.Disk W.Gate.Link.view W.Clock.gave words.now (W.view world.old)
        (W.view world.new) result.cases result.disk result.end (W.Sink.view sink.new) command }
{
    match command {
        Command::Once => once(rt, alloc, before, world),
        Command::OnceOver => serve_store(rt, alloc, words.word(1), None, before, world),
        Command::Serve(at) => serve_store(rt, alloc, words.word(1), Some(at), before, world),
        Command::Init => init(alloc, words.word(1), words.word(2).as_bytes(), world, sink),
        Command::Check => {
            let Checked { cases, disk } = check(alloc, words.word(1), world, sink);
            Ran {
                cases,
                disk,
                end: None,
            }
        }
        Command::Load(count) => load(alloc, count, sink),
        Command::Sweep(person) => sweep_store(
            rt,
            alloc,
            words.word(1),
            person,
            words.word(3).as_bytes(),
            world,
            sink,
        ),
    }
}

/// Serves the sessions at the gate over standard input and output, on a new server, until the gate
/// ends or fails.
fn once<R: Wait, W: World>(rt: &R, alloc: Global, before: u64, world: &mut W) -> Ran<W>
    ensures asks { Asks said.Once (is_some result.disk) (is_some result.end)
        (W.view world.old).counts (W.view world.new).counts }
    ensures cases { FitsCases W.Disk.faults said.Once (Rose before (W.view world.new).faults)
        result.cases result.disk result.end }
    ensures once { IfSome result.end (ServesNew W.Gate.Link.view (IsWell result.cases)) }
{
    let Ok(mut clock) = world.clock() else {
        return unserved(has_risen(before, world.faults()));
    };
    let opened = clock.now();
    let Ok(book) = Book::fresh(alloc, b"", opened) else {
        return unserved(has_risen(before, world.faults()));
    };
    let left = serve_standard(rt, alloc, book, clock, world);
    settle(left, has_risen(before, world.faults()))
}

// Nothing was served, and the world may have failed.
fn unserved<W: World>(gate_failed: bool) -> Ran<W>
    ensures { result ≡ record {
      cases = record {
        store_failed = false;
        is_unfit = false;
        gate_failed = gate_failed;
        is_refused = false;
        is_given_up = false;
        no_memory = true;
      };
      disk = None;
      end = None;
    } }
{
    Ran {
        cases: Cases {
            store_failed: false,
            is_unfit: false,
            gate_failed,
            is_refused: false,
            is_given_up: false,
            no_memory: true,
        },
        disk: None,
        end: None,
    }
}
