ghost use Rattle.std.specs.Prelude.{◌≡◌, ◌≤◌, OnOk, OnErr};
ghost use Rattle.kom_links.specs.Doors.{IsNewSink};
ghost use Rattle.kom_commands.specs.Reports.{HasText};
ghost use Rattle.kom_model.specs.Legal.{IsLegal};
ghost use Rattle.kom_load.specs.Loading.{new_server, run_of, summary_of};
ghost use Rattle.kom_load.specs.Summaries.{lines_of};

use crate::loading::load;
use kom_commands::put_text;
use kom_links::Sink;
use kom_types::Memory;
use std::alloc::Global;

/// Loads a new server with so many calls, and puts what they came to, as lines, to a sink to which
/// nothing was put yet; where memory runs out it puts nothing.
pub fn tell_load<S: Sink>(alloc: Global, count: u32, sink: &mut S) -> Result<(), Memory>
    requires few { count ≤ 100000 }
    requires fresh { IsNewSink (S.view sink.old) }
    ensures legal { OnOk result (IsLegal new_server (run_of count).history) }
    ensures told { OnOk result (
        HasText (lines_of (summary_of (run_of count))) (S.view sink.new)) }
    ensures untold { OnErr result (S.view sink.new ≡ S.view sink.old) }
{
    let summary = load(alloc, count)?;
    let lines = summary.lines(alloc)?;
    put_text(sink, lines.as_slice());
    Ok(())
}
