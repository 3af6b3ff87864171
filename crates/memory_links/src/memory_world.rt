ghost use Rattle.std.specs.Prelude.{◌≡◌, ◌≢◌, ◌<◌, ◌≤◌, ◌↔◌, [], None, Some, is_ok, is_err, IsErr};
ghost use Rattle.std.specs.Prelude.{IfOk, IfSome, OnErr, map, length, vec_len};
ghost use Rattle.std.specs.List.{AllByRecursion};
ghost use Rattle.kom_links.specs.Outside.{IsNothing, Rose};
ghost use Rattle.kom_links.specs.Doors.{MayRefuse, has_failed, KeepsTold, IsFound, IsNewGate};
ghost use Rattle.kom_links.specs.Doors.{IsNewSink};
ghost use Rattle.kom_links.specs.WorldCounts.{with_port, with_gate, with_clock, with_sink};
ghost use Rattle.kom_links.specs.WorldCounts.{with_disk};
ghost use Rattle.memory_links.specs.Files.{file_at, IsDiskOver};
ghost use Rattle.memory_links.specs.Script.{faults_after, moment_at, Fails};

use crate::file_plan::{FilePlan, open_file};
use crate::memory_clock::MemoryClock;
use crate::memory_gate::{Client, MemoryGate};
use crate::memory_link::Script;
use crate::memory_sink::MemorySink;
use crate::port_gates::open_all;
use kom_disk::{Disk, MemoryDisk};
use kom_links::{Clock, Failed, Gate, Sink, World, WorldCounts, WorldFault};
use kom_types::{Memory, Moment};
use std::alloc::Global;
use std::collections::VecDeque;
use std::mem;

/// The clients of a gate in memory, and which of its calls are not served.
#[derive(Debug)]
pub struct GatePlan {
    pub clients: VecDeque<Client>,
    pub script: Script,
}

// A call of its own, so that whoever lets a plan go has one step to prove and not one for each
// part.
impl Drop for GatePlan {
    fn drop(self) {
        let GatePlan { clients, script } = self;
        drop((clients, script));
    }
}

impl GatePlan {
    ghost use Rattle.memory_links.specs.Memories.{clients_of, script_of, calls_of};

    /// The gate of this plan.
    pub(crate) fn open(self, alloc: Global) -> Result<MemoryGate, Memory>
        ensures fresh { IfOk result (λ gate. IsNewGate (⟦<MemoryGate as Gate>⟧.view gate)) }
        ensures clients { IfOk result (λ gate. clients_of gate ≡ self.clients.items) }
        ensures script { IfOk result (λ gate. script_of gate ≡ self.script) }
        ensures no_call { IfOk result (λ gate. calls_of gate ≡ 0) }
    {
        let GatePlan { clients, script } = self;
        MemoryGate::make(alloc, clients, script)
    }
}

/// A world in memory. It has one gate, over standard input and output, and one row of gates at a
/// port: a second one, and a row of another length, is refused, which is counted. Of each file each
/// disk begins as that is found.
#[derive(Debug)]
pub struct MemoryWorld {
    alloc: Global,
    gate: Option<GatePlan>,
    port_gates: Vec<GatePlan>,
    moments: Vec<Moment>,
    sink_fails: Vec<u64>,
    files: Vec<FilePlan>,
    disk_fails: Vec<u64>,
    counts: WorldCounts,
    faults: u64,
    ghost some: { 0 < vec_len moments },
}

impl Drop for MemoryWorld {
    fn drop(self) {
        let MemoryWorld {
            alloc: _,
            gate,
            port_gates,
            moments,
            sink_fails,
            files,
            disk_fails,
            counts: _,
            faults: _,
        } = self;
        drop((gate, port_gates));
        drop((moments, sink_fails));
        drop((files, disk_fails));
    }
}

impl MemoryWorld {
    ghost use Rattle.memory_links.specs.Memories.{gate_plan_of, world_moments_of, sink_fails_of};
    ghost use Rattle.memory_links.specs.Memories.{files_of, disk_fails_of};
    ghost use Rattle.memory_links.specs.Memories.{port_plans_of};

    /// A world without files whose gate has this plan or is refused, whose clocks give these
    /// moments, and whose sink fails at the writes of these numbers, counted from 1.
    pub fn new(
        alloc: Global,
        gate: Option<GatePlan>,
        moments: Vec<Moment>,
        sink_fails: Vec<u64>,
    ) -> MemoryWorld
        requires { 0 < vec_len moments }
        ensures no_fault { (⟦<MemoryWorld as World>⟧.view result).faults ≡ 0 }
        ensures gate { gate_plan_of result ≡ gate }
        ensures port { port_plans_of result ≡ [] }
        ensures moments { world_moments_of result ≡ moments.items }
        ensures sink_fails { sink_fails_of result ≡ sink_fails.items }
        ensures files { (files_of result ≡ []) × (disk_fails_of result ≡ []) }
    {
        MemoryWorld {
            alloc,
            gate,
            port_gates: Vec::new(alloc),
            moments,
            sink_fails,
            files: Vec::new(alloc),
            disk_fails: Vec::new(alloc),
            counts: WorldCounts::nothing(),
            faults: 0,
        }
    }

    /// From now on the world has these files and no others, and refuses the disks of these numbers,
    /// counted from 1 on from its first disk.
    pub fn set_files(&mut self, files: Vec<FilePlan>, disk_fails: Vec<u64>)
        ensures files { files_of self.new ≡ files.items }
        ensures disk_fails { disk_fails_of self.new ≡ disk_fails.items }
        ensures counts { (⟦<MemoryWorld as World>⟧.view self.new).counts
            ≡ (⟦<MemoryWorld as World>⟧.view self.old).counts }
        ensures faults { (⟦<MemoryWorld as World>⟧.view self.new).faults
            ≡ (⟦<MemoryWorld as World>⟧.view self.old).faults }
        ensures gate { gate_plan_of self.new ≡ gate_plan_of self.old }
        ensures moments { world_moments_of self.new ≡ world_moments_of self.old }
        ensures sink_fails { sink_fails_of self.new ≡ sink_fails_of self.old }
        ensures port { port_plans_of self.new ≡ port_plans_of self.old }
    {
        self.files = files;
        self.disk_fails = disk_fails;
    }

    /// From now on the world has gates of these plans at a port, whichever that is, and no others
    /// there.
    pub fn set_port(&mut self, plans: Vec<GatePlan>)
        ensures view { ⟦<MemoryWorld as World>⟧.view self.new
            ≡ ⟦<MemoryWorld as World>⟧.view self.old }
        ensures port { port_plans_of self.new ≡ plans.items }
        ensures gate { gate_plan_of self.new ≡ gate_plan_of self.old }
        ensures moments { world_moments_of self.new ≡ world_moments_of self.old }
        ensures sink_fails { sink_fails_of self.new ≡ sink_fails_of self.old }
        ensures disks { (files_of self.new ≡ files_of self.old)
            × (disk_fails_of self.new ≡ disk_fails_of self.old) }
    {
        self.port_gates = plans;
    }
}

impl World for MemoryWorld {
    ghost use Rattle.memory_links.specs.Memories.{clients_of, script_of, calls_of, moments_of};
    ghost use Rattle.memory_links.specs.Memories.{readings_of, fails_of, sink_writes_of};
    ghost use Rattle.memory_links.specs.Memories.{gate_plan_of, world_moments_of, sink_fails_of};
    ghost use Rattle.memory_links.specs.Memories.{files_of, disk_fails_of};
    ghost use Rattle.memory_links.specs.Files.{found_at};
    ghost use Rattle.memory_links.specs.Memories.{port_plans_of};

    type Gate = MemoryGate;

    type Clock = MemoryClock;

    type Sink = MemorySink;

    type Disk = MemoryDisk;

    ghost view = { λ world. record {
      counts = world.counts;
      faults = world.faults;
      moment = Some (moment_at world.moments.items 0);
      files = Some (found_at world.files.items);
    } };

    fn faults(&self) -> u64 {
        self.faults
    }

    fn open_gates(
        &mut self,
        alloc: Global,
        _port: u16,
        number: u32,
    ) -> Result<Vec<MemoryGate>, WorldFault>
        ensures may { MayRefuse (⟦<MemoryWorld as World>⟧.view self.old).faults
            (⟦<MemoryWorld as World>⟧.view self.new).faults result }
        ensures fresh { IfOk result (λ gates.
            AllByRecursion (λ gate. IsNewGate (⟦<MemoryGate as Gate>⟧.view gate)) gates.items) }
        ensures number { IfOk result (λ gates. length gates.items ≡ number) }
        ensures counts { (⟦<MemoryWorld as World>⟧.view self.new).counts
            ≡ with_port (is_ok result) (⟦<MemoryWorld as World>⟧.view self.old).counts }
        ensures faults { (⟦<MemoryWorld as World>⟧.view self.old).faults
            ≤ (⟦<MemoryWorld as World>⟧.view self.new).faults }
        ensures told { KeepsTold (⟦<MemoryWorld as World>⟧.view self.old)
            (⟦<MemoryWorld as World>⟧.view self.new) }

        // what it counts
        ensures counted { (⟦<MemoryWorld as World>⟧.view self.new).faults
            ≡ faults_after (has_failed result) (⟦<MemoryWorld as World>⟧.view self.old).faults }

        // which gates are given
        ensures failed { (result ≡ Err WorldFault.Failed)
            ↔ (length (port_plans_of self.old) ≢ number) }
        ensures clients { IfOk result (λ gates. map (λ gate. clients_of gate) gates.items
            ≡ map (λ plan. plan.clients.items) (port_plans_of self.old)) }
        ensures scripts { IfOk result (λ gates. map (λ gate. script_of gate) gates.items
            ≡ map (λ plan. plan.script) (port_plans_of self.old)) }

        // what is left
        ensures port { port_plans_of self.new ≡ [] }
        ensures gate { gate_plan_of self.new ≡ gate_plan_of self.old }
        ensures moments { world_moments_of self.new ≡ world_moments_of self.old }
        ensures sink_fails { sink_fails_of self.new ≡ sink_fails_of self.old }
        ensures disks { (files_of self.new ≡ files_of self.old)
            × (disk_fails_of self.new ≡ disk_fails_of self.old) }
    {
        let plans = mem::replace(&mut self.port_gates, Vec::new(self.alloc));
        let opened = if plans.len() == number as usize {
            match open_all(alloc, plans) {
                Ok(gates) => Ok(gates),
                Err(Memory) => Err(WorldFault::Memory),
            }
        } else {
            self.faults = self.faults.saturating_add(1);
            Err(WorldFault::Failed)
        };
        self.counts.count_port(opened.is_ok());
        opened
    }

    fn open_doors(
        &mut self,
        alloc: Global,
        port: u16,
        number: u32,
    ) -> Result<Vec<MemoryGate>, WorldFault>
        ensures may { MayRefuse (⟦<MemoryWorld as World>⟧.view self.old).faults
            (⟦<MemoryWorld as World>⟧.view self.new).faults result }
        ensures fresh { IfOk result (λ gates.
            AllByRecursion (λ gate. IsNewGate (⟦<MemoryGate as Gate>⟧.view gate)) gates.items) }
        ensures number { IfOk result (λ gates. length gates.items ≡ number) }
        ensures counts { (⟦<MemoryWorld as World>⟧.view self.new).counts
            ≡ with_port (is_ok result) (⟦<MemoryWorld as World>⟧.view self.old).counts }
        ensures faults { (⟦<MemoryWorld as World>⟧.view self.old).faults
            ≤ (⟦<MemoryWorld as World>⟧.view self.new).faults }
        ensures told { KeepsTold (⟦<MemoryWorld as World>⟧.view self.old)
            (⟦<MemoryWorld as World>⟧.view self.new) }

        // what it counts
        ensures counted { (⟦<MemoryWorld as World>⟧.view self.new).faults
            ≡ faults_after (has_failed result) (⟦<MemoryWorld as World>⟧.view self.old).faults }

        // which gates are given
        ensures failed { (result ≡ Err WorldFault.Failed)
            ↔ (length (port_plans_of self.old) ≢ number) }
        ensures clients { IfOk result (λ gates. map (λ gate. clients_of gate) gates.items
            ≡ map (λ plan. plan.clients.items) (port_plans_of self.old)) }
        ensures scripts { IfOk result (λ gates. map (λ gate. script_of gate) gates.items
            ≡ map (λ plan. plan.script) (port_plans_of self.old)) }

        // what is left
        ensures port { port_plans_of self.new ≡ [] }
        ensures gate { gate_plan_of self.new ≡ gate_plan_of self.old }
        ensures moments { world_moments_of self.new ≡ world_moments_of self.old }
        ensures sink_fails { sink_fails_of self.new ≡ sink_fails_of self.old }
        ensures disks { (files_of self.new ≡ files_of self.old)
            × (disk_fails_of self.new ≡ disk_fails_of self.old) }
    {
        self.open_gates(alloc, port, number)
    }

    fn std_gate(&mut self) -> Result<MemoryGate, WorldFault>
        ensures may { MayRefuse (⟦<MemoryWorld as World>⟧.view self.old).faults
            (⟦<MemoryWorld as World>⟧.view self.new).faults result }
        ensures fresh { IfOk result (λ gate. IsNewGate (⟦<MemoryGate as Gate>⟧.view gate)) }
        ensures counts { (⟦<MemoryWorld as World>⟧.view self.new).counts
            ≡ with_gate (is_ok result) (⟦<MemoryWorld as World>⟧.view self.old).counts }
        ensures faults { (⟦<MemoryWorld as World>⟧.view self.old).faults
            ≤ (⟦<MemoryWorld as World>⟧.view self.new).faults }
        ensures told { KeepsTold (⟦<MemoryWorld as World>⟧.view self.old)
            (⟦<MemoryWorld as World>⟧.view self.new) }

        // what it counts
        ensures counted { (⟦<MemoryWorld as World>⟧.view self.new).faults
            ≡ faults_after (has_failed result) (⟦<MemoryWorld as World>⟧.view self.old).faults }

        // which gate is given
        ensures failed { (result ≡ Err WorldFault.Failed) ↔ (gate_plan_of self.old ≡ None) }
        ensures clients { IfOk result (λ gate.
            IfSome (gate_plan_of self.old) (λ plan. clients_of gate ≡ plan.clients.items)) }
        ensures script { IfOk result (λ gate.
            IfSome (gate_plan_of self.old) (λ plan. script_of gate ≡ plan.script)) }
        ensures no_call { IfOk result (λ gate. calls_of gate ≡ 0) }

        // what is left
        ensures gate { gate_plan_of self.new ≡ None }
        ensures port { port_plans_of self.new ≡ port_plans_of self.old }
        ensures moments { world_moments_of self.new ≡ world_moments_of self.old }
        ensures sink_fails { sink_fails_of self.new ≡ sink_fails_of self.old }
        ensures disks { (files_of self.new ≡ files_of self.old)
            × (disk_fails_of self.new ≡ disk_fails_of self.old) }
    {
        let opened = match self.gate.take() {
            Some(plan) => match plan.open(self.alloc) {
                Ok(gate) => Ok(gate),
                Err(Memory) => Err(WorldFault::Memory),
            },
            None => {
                self.faults = self.faults.saturating_add(1);
                Err(WorldFault::Failed)
            }
        };
        self.counts.count_gate(opened.is_ok());
        opened
    }

    fn clock(&mut self) -> Result<MemoryClock, Memory>
        ensures fresh { IfOk result (λ clock. IsNothing (⟦<MemoryClock as Clock>⟧.gave clock)) }
        ensures first { IfOk result (λ clock. ⟦<MemoryClock as Clock>⟧.first clock
            ≡ (⟦<MemoryWorld as World>⟧.view self.old).moment) }
        ensures counts { (⟦<MemoryWorld as World>⟧.view self.new).counts
            ≡ with_clock (⟦<MemoryWorld as World>⟧.view self.old).counts }
        ensures faults { (⟦<MemoryWorld as World>⟧.view self.old).faults
            ≤ (⟦<MemoryWorld as World>⟧.view self.new).faults }
        ensures told { KeepsTold (⟦<MemoryWorld as World>⟧.view self.old)
            (⟦<MemoryWorld as World>⟧.view self.new) }
        ensures no_more { (⟦<MemoryWorld as World>⟧.view self.new).faults
            ≡ (⟦<MemoryWorld as World>⟧.view self.old).faults }

        // which clock is given
        ensures script { IfOk result (λ clock. moments_of clock ≡ world_moments_of self.old) }
        ensures no_reading { IfOk result (λ clock. readings_of clock ≡ 0) }

        // what is left
        ensures gate { gate_plan_of self.new ≡ gate_plan_of self.old }
        ensures port { port_plans_of self.new ≡ port_plans_of self.old }
        ensures moments { world_moments_of self.new ≡ world_moments_of self.old }
        ensures sink_fails { sink_fails_of self.new ≡ sink_fails_of self.old }
        ensures disks { (files_of self.new ≡ files_of self.old)
            × (disk_fails_of self.new ≡ disk_fails_of self.old) }
    {
        self.counts.count_clock();
        Ok(MemoryClock::new(Vec::from_slice(self.alloc, self.moments.as_slice())?))
    }

    fn out(&mut self) -> MemorySink
        ensures fresh { IsNewSink (⟦<MemorySink as Sink>⟧.view result) }
        ensures counts { (⟦<MemoryWorld as World>⟧.view self.new).counts
            ≡ with_sink (⟦<MemoryWorld as World>⟧.view self.old).counts }
        ensures faults { (⟦<MemoryWorld as World>⟧.view self.old).faults
            ≤ (⟦<MemoryWorld as World>⟧.view self.new).faults }
        ensures told { KeepsTold (⟦<MemoryWorld as World>⟧.view self.old)
            (⟦<MemoryWorld as World>⟧.view self.new) }
        ensures no_more { (⟦<MemoryWorld as World>⟧.view self.new).faults
            ≡ (⟦<MemoryWorld as World>⟧.view self.old).faults }

        // which sink is given
        ensures fails { fails_of result ≡ sink_fails_of self.old }
        ensures no_write { sink_writes_of result ≡ 0 }

        // what is left
        ensures gate { gate_plan_of self.new ≡ gate_plan_of self.old }
        ensures port { port_plans_of self.new ≡ port_plans_of self.old }
        ensures moments { world_moments_of self.new ≡ world_moments_of self.old }
        ensures sink_fails { sink_fails_of self.new ≡ [] }
        ensures disks { (files_of self.new ≡ files_of self.old)
            × (disk_fails_of self.new ≡ disk_fails_of self.old) }
    {
        self.counts.count_sink();
        MemorySink::new(
            self.alloc,
            mem::replace(&mut self.sink_fails, Vec::new(self.alloc)),
        )
    }

    fn open_disk(&mut self, path: &str) -> Result<MemoryDisk, Failed>
        ensures found { IfOk result (λ disk. IsFound (⟦<MemoryDisk as Disk>⟧.tells)
            (⟦<MemoryWorld as World>⟧.view self.old).files path.now
            (⟦<MemoryDisk as Disk>⟧.bytes disk) (⟦<MemoryDisk as Disk>⟧.faults disk)) }
        ensures failed { OnErr result (Rose (⟦<MemoryWorld as World>⟧.view self.old).faults
            (⟦<MemoryWorld as World>⟧.view self.new).faults) }
        ensures counts { (⟦<MemoryWorld as World>⟧.view self.new).counts
            ≡ with_disk (is_ok result) (⟦<MemoryWorld as World>⟧.view self.old).counts }
        ensures faults { (⟦<MemoryWorld as World>⟧.view self.old).faults
            ≤ (⟦<MemoryWorld as World>⟧.view self.new).faults }
        ensures told { KeepsTold (⟦<MemoryWorld as World>⟧.view self.old)
            (⟦<MemoryWorld as World>⟧.view self.new) }

        // what it counts
        ensures counted { (⟦<MemoryWorld as World>⟧.view self.new).faults
            ≡ faults_after (is_err result) (⟦<MemoryWorld as World>⟧.view self.old).faults }

        // which disk is given
        ensures scripted { Fails (disk_fails_of self.old)
            (⟦<MemoryWorld as World>⟧.view self.old).counts.disks → IsErr result }
        ensures over { IfOk result
            (λ disk. IsDiskOver (file_at None (files_of self.old) path.now) disk) }

        // what is left
        ensures gate { gate_plan_of self.new ≡ gate_plan_of self.old }
        ensures port { port_plans_of self.new ≡ port_plans_of self.old }
        ensures moments { world_moments_of self.new ≡ world_moments_of self.old }
        ensures sink_fails { sink_fails_of self.new ≡ sink_fails_of self.old }
        ensures disks { (files_of self.new ≡ files_of self.old)
            × (disk_fails_of self.new ≡ disk_fails_of self.old) }
    {
        let number = self.counts.disks.saturating_add(1);
        let opened = if self.disk_fails.contains(&number) {
            None
        } else {
            open_file(self.alloc, self.files.as_slice(), path).ok()
        };
        self.counts.count_disk(opened.is_some());
        match opened {
            Some(disk) => Ok(disk),
            None => {
                self.faults = self.faults.saturating_add(1);
                Err(Failed)
            }
        }
    }
}
