ghost use Rattle.std.specs.Prelude.{◌≡◌, ◌≤◌, is_ok, IfOk, OnErr, length};
ghost use Rattle.std.specs.List.{AllByRecursion};
ghost use Rattle.kom_links.specs.Outside.{IsNothing, Rose};
ghost use Rattle.kom_links.specs.Doors.{WorldView, MayRefuse, KeepsTold, IsFound, IsNewGate};
ghost use Rattle.kom_links.specs.Doors.{IsNewSink};
ghost use Rattle.kom_links.specs.WorldCounts.{with_port, with_gate, with_disk, with_clock};
ghost use Rattle.kom_links.specs.WorldCounts.{with_sink};

use crate::clock::Clock;
use crate::gate::Gate;
use crate::polled_gate::PolledGate;
use crate::sink::{Failed, Sink};
use kom_disk::Disk;
use kom_types::Memory;
use std::alloc::Global;

/// Why a world refused to open something.
#[derive(Clone, Copy, Debug, PartialEq, Eq)]
pub enum WorldFault {
    /// The world failed, which was counted.
    Failed,
    /// Memory ran out.
    Memory,
}

/// All that a program finds outside itself.
pub trait World {
    type Gate: PolledGate + Send;

    type Clock: Clock + Send;

    type Sink: Sink;

    type Disk: Disk + Drop + Send;

    ghost view: { Self → WorldView };

    /// How often the world failed; it stands still at 2^64 - 1.
    fn faults(&self) -> u64
        ensures { result ≡ (view self.now).faults };

    /// So many gates at a port, each of which gives links of the clients that come there. None has
    /// given one yet.
    fn open_gates(
        &mut self,
        alloc: Global,
        port: u16,
        number: u32,
    ) -> Result<Vec<Self::Gate>, WorldFault>
        ensures may { MayRefuse (view self.old).faults (view self.new).faults result }
        ensures fresh { IfOk result (λ gates.
            AllByRecursion (λ gate. IsNewGate (Self.Gate.view gate)) gates.items) }
        ensures number { IfOk result (λ gates. length gates.items ≡ number) }
        ensures counts { (view self.new).counts ≡ with_port (is_ok result) (view self.old).counts }
        ensures faults { (view self.old).faults ≤ (view self.new).faults }
        ensures told { KeepsTold (view self.old) (view self.new) };

    /// So many gates at a port, each of one worker, which waits for many links at a time. None has
    /// given one yet.
    fn open_doors(
        &mut self,
        alloc: Global,
        port: u16,
        number: u32,
    ) -> Result<Vec<Self::Gate>, WorldFault>
        ensures may { MayRefuse (view self.old).faults (view self.new).faults result }
        ensures fresh { IfOk result (λ gates.
            AllByRecursion (λ gate. IsNewGate (Self.Gate.view gate)) gates.items) }
        ensures number { IfOk result (λ gates. length gates.items ≡ number) }
        ensures counts { (view self.new).counts ≡ with_port (is_ok result) (view self.old).counts }
        ensures faults { (view self.old).faults ≤ (view self.new).faults }
        ensures told { KeepsTold (view self.old) (view self.new) };

    /// The gate that gives one link, over standard input and output. It has given none yet.
    fn std_gate(&mut self) -> Result<Self::Gate, WorldFault>
        ensures may { MayRefuse (view self.old).faults (view self.new).faults result }
        ensures fresh { IfOk result (λ gate. IsNewGate (Self.Gate.view gate)) }
        ensures counts { (view self.new).counts ≡ with_gate (is_ok result) (view self.old).counts }
        ensures faults { (view self.old).faults ≤ (view self.new).faults }
        ensures told { KeepsTold (view self.old) (view self.new) };

    /// A clock that has given no moment yet.
    fn clock(&mut self) -> Result<Self::Clock, Memory>
        ensures fresh { IfOk result (λ clock. IsNothing (Self.Clock.gave clock)) }
        ensures first { IfOk result (λ clock. Self.Clock.first clock ≡ (view self.old).moment) }
        ensures counts { (view self.new).counts ≡ with_clock (view self.old).counts }
        ensures faults { (view self.old).faults ≤ (view self.new).faults }
        ensures told { KeepsTold (view self.old) (view self.new) };

    /// The sink of the program's report. Nothing was put to it yet.
    fn out(&mut self) -> Self::Sink
        ensures fresh { IsNewSink (Self.Sink.view result) }
        ensures counts { (view self.new).counts ≡ with_sink (view self.old).counts }
        ensures faults { (view self.old).faults ≤ (view self.new).faults }
        ensures told { KeepsTold (view self.old) (view self.new) };

    /// The disk over the file of this path, whether or not that is there: one that is missing is an
    /// empty disk, and is made by the first write. It fails where another has the file open as a
    /// disk, where the path is a folder or cannot be read and written, and out of memory.
    fn open_disk(&mut self, path: &str) -> Result<Self::Disk, Failed>
        ensures found { IfOk result (λ disk. IsFound Self.Disk.tells (view self.old).files path.now
            (Self.Disk.bytes disk) (Self.Disk.faults disk)) }
        ensures failed { OnErr result (Rose (view self.old).faults (view self.new).faults) }
        ensures counts { (view self.new).counts ≡ with_disk (is_ok result) (view self.old).counts }
        ensures faults { (view self.old).faults ≤ (view self.new).faults }
        ensures told { KeepsTold (view self.old) (view self.new) };
}
