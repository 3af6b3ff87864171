// Why a store is not opened, as a case of a run.
ghost use Rattle.std.specs.Prelude.{◌≡◌, ◌≢◌, ◌↔◌, IsTrue, false};
ghost use Rattle.store_check.specs.Stores.{IsUnswept, is_of_content, is_memory};

use kom_commands::Cases;
use kom_journal::OpenFault;

/// What it comes to that a store is not opened, or not made, for this reason and after so many
/// faults of its disk.
pub fn cases_of(fault: OpenFault, faults: u64) -> Cases
    ensures failed { IsTrue result.store_failed ↔ (faults ≢ 0) }
    ensures unfit { result.is_unfit ≡ is_of_content fault }
    ensures gate { result.gate_failed ≡ false }
    ensures unswept { IsUnswept result }
    ensures memory { result.no_memory ≡ is_memory fault }
{
    let (is_unfit, no_memory) = match fault {
        OpenFault::Fault => (false, false),
        OpenFault::Foreign(_, _) => (true, false),
        OpenFault::Short(_) => (true, false),
        OpenFault::Damaged(_) => (true, false),
        OpenFault::Used(_) => (true, false),
        OpenFault::Memory => (false, true),
    };
    Cases {
        store_failed: faults != 0,
        is_unfit,
        gate_failed: false,
        is_refused: false,
        is_given_up: false,
        no_memory,
    }
}
