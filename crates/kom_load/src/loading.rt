ghost use Rattle.std.specs.Prelude.{◌≡◌, ◌+◌, ◌<◌, ◌≤◌, ◌^◌, IfOk, OnOk};
ghost use Rattle.kom_model.specs.Legal.{IsLegal};
ghost use Rattle.kom_load.specs.Runs.{next_of, after_answer};
ghost use Rattle.kom_load.specs.Loading.{new_server, run_start, call_once, reply_at, run_of};
ghost use Rattle.kom_load.specs.Loading.{summary_in, summary_of};
ghost use Rattle.kom_load.specs.Steps.{Leads, AreBefore};

use crate::runs::Run;
use crate::stepping::{greet, make_call};
use crate::summaries::Summary;
use arrayvec::ArrayVec;
use kom_core::Core;
use kom_types::{Boxed, Bytes, Call, Item, LoginPassword, Memory, Moment};
use std::alloc::Global;

/// The person that a run logs in as: the administrator of a new server.
const PERSON: u32 = 5;

/// Loads a new server with so many calls, and tells what they came to. `Memory` also stands for a
/// call that is answered so, an act that is refused and a reply that does not come.
pub fn load(alloc: Global, count: u32) -> Result<Summary, Memory>
    requires { count ≤ 100000 }
    ensures legal { OnOk result (IsLegal new_server (run_of count).history) }
    ensures summary { IfOk result (λ summary. summary ≡ summary_of (run_of count)) }
{
    let mut core = Core::fresh(alloc, b"", Moment::at_most(0))?;
    let run = make_calls(&mut core, count, alloc)?;
    Ok(summary_in(&core, run))
}

/// What a run came to that has left this server.
fn summary_in(core: &Core, run: Run) -> Summary
    requires { run.refused ≤ run.calls }
    ensures { result ≡ summary_in run core.now.state }
{
    let rows = core.rows();
    Summary {
        calls: u64::from(run.calls),
        ok: u64::from(run.calls - run.refused),
        refused: u64::from(run.refused),
        conferences: rows.conference_count() as u64,
        texts: rows.text_count() as u64,
    }
}

/// Makes so many calls on a new server.
fn make_calls(core: &mut Core, count: u32, alloc: Global) -> Result<Run, Memory>
    requires few { count ≤ 100000 }
    requires new { core.old.state ≡ new_server }
    ensures loaded { IfOk result (λ run. run ≡ (run_of count).run) }
    ensures leads { OnOk result (Leads new_server (run_of count).history core.new.state) }
    ensures refused { IfOk result (λ run. run.refused ≤ run.calls) }
{
    let mut items = ArrayVec::new();
    start(core, &mut items, alloc)?;
    let mut run = Run::new();
    while run.calls < count {
        make_next(core, &mut run, &mut items, alloc)?;
    }
    Ok(run)
}

/// Connects the session to a new server, and logs it in.
fn start(core: &mut Core, items: &mut ArrayVec<Item, 64>, alloc: Global) -> Result<(), Memory>
    requires { core.old.state ≡ new_server }
    ensures started { OnOk result (Leads core.old.state run_start.history core.new.state) }
    ensures before { OnOk result (AreBefore 1 core.new.state) }
    ensures counted { core.new.state.entries ≤ core.old.state.entries + 6 }
{
    greet(core, items, alloc)?;
    let password = LoginPassword::of(PERSON, Bytes::new(alloc));
    let login = Call::Login {
        person: PERSON,
        password: Boxed::new(alloc, password)?,
        invisible: false,
    };
    make_call(core, 0, login, items)?;
    Ok(())
}

/// Makes the next call of a run, and takes note of its answer.
fn make_next(
    core: &mut Core,
    run: &mut Run,
    items: &mut ArrayVec<Item, 64>,
    alloc: Global,
) -> Result<(), Memory>
    requires few { run.old.calls < 100000 }
    requires refused { run.old.refused ≤ run.old.calls }
    requires before { AreBefore (run.old.calls + 1) core.old.state }
    requires room { core.old.state.entries + 2 < 2 ^ 62 }
    ensures called { OnOk result (Leads core.old.state
        (call_once (run.old.calls + 1) (next_of run.old)) core.new.state) }
    ensures answered { OnOk result (run.new ≡ after_answer run.old
        (reply_at core.old.state (run.old.calls + 1) (next_of run.old))) }
    ensures before { OnOk result (AreBefore (run.new.calls + 1) core.new.state) }
    ensures refused { OnOk result (run.new.refused ≤ run.new.calls) }
    ensures counted { core.new.state.entries ≤ core.old.state.entries + 3 }
{
    let call = run.next_call(alloc)?;
    let reply = make_call(core, run.calls + 1, call, items)?;
    run.answer(&reply);
    Ok(())
}
