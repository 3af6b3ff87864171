ghost use Rattle.std.specs.Prelude.{◌≡◌, length, map, IfOk};
ghost use Rattle.std.specs.List.{AllByRecursion};
ghost use Rattle.kom_links.specs.Doors.{IsNewGate};
ghost use Rattle.memory_links.specs.Memories.{clients_of, script_of, calls_of};

use crate::memory_gate::MemoryGate;
use crate::memory_world::GatePlan;
use kom_links::Gate;
use kom_types::Memory;
use std::alloc::Global;

/// The gates of these plans, in order.
pub(crate) fn open_all(alloc: Global, mut plans: Vec<GatePlan>) -> Result<Vec<MemoryGate>, Memory>
    ensures fresh { IfOk result (λ gates.
        AllByRecursion (λ gate. IsNewGate (⟦<MemoryGate as Gate>⟧.view gate)) gates.items) }
    ensures clients { IfOk result (λ gates. map (λ gate. clients_of gate) gates.items
        ≡ map (λ plan. plan.clients.items) plans.items) }
    ensures scripts { IfOk result (λ gates. map (λ gate. script_of gate) gates.items
        ≡ map (λ plan. plan.script) plans.items) }
    ensures no_call { IfOk result (λ gates.
        AllByRecursion (λ gate. calls_of gate ≡ 0) gates.items) }
    ensures number { IfOk result (λ gates. length gates.items ≡ length plans.items) }
{
    let mut gates = Vec::with_capacity(alloc, plans.len())?;
    while let Some(plan) = plans.pop() {
        let gate = plan.open(alloc)?;
        let Ok(()) = gates.insert(0, gate) else {
            unreachable!()
        };
    }
    Ok(gates)
}
