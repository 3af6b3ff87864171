// The word that has a new server loaded.
ghost use Rattle.std.specs.Prelude.{◌≡◌, ◌⊎◌, ◌≤◌, IsNone, false};
ghost use Rattle.kom_links.specs.Doors.{IsNewSink};
ghost use Rattle.store_check.specs.Stores.{IsWrong, IsUnswept};
ghost use Rattle.kom_server.specs.Comes.{IsLoaded};

use crate::ran::Ran;
use kom_book::Book;
use kom_commands::Cases;
use kom_links::World;
use kom_load::tell_load;
use std::alloc::Global;

/// Loads a new server in memory with so many calls, and says what they came to.
pub fn load<W: World>(alloc: Global, count: u32, sink: &mut W::Sink) -> Ran<W>
    requires few { count ≤ 100000 }
    requires fresh { IsNewSink (W.Sink.view sink.old) }
    ensures alone { IsNone result.disk × IsNone result.end }
    ensures well { (result.cases.store_failed ≡ false) × (result.cases.is_unfit ≡ false)
        × (result.cases.gate_failed ≡ false) × IsUnswept result.cases }
    ensures silent { IsWrong result.cases → W.Sink.view sink.new ≡ W.Sink.view sink.old }
    ensures loaded { IsWrong result.cases ⊎ IsLoaded count (W.Sink.view sink.new) }
{
    let told = tell_load(alloc, count, sink);
    Ran {
        cases: Cases {
            store_failed: false,
            is_unfit: false,
            gate_failed: false,
            is_refused: false,
            is_given_up: false,
            no_memory: told.is_err(),
        },
        disk: None,
        end: None,
    }
}
