ghost use Rattle.std.specs.Prelude.{◌≡◌, None, IfOk, length};
ghost use Rattle.std.specs.List.{AllByRecursion};
ghost use Rattle.kom_links.specs.Doors.{IsNewGate};

use crate::doors::{AtATime, open_port};
use crate::gate::Gate;
use crate::sink::Failed;
use crate::std_gate::StdGate;
use crate::std_sink::StdSink;
use crate::system_clock::SystemClock;
use crate::world::{World, WorldFault};
use crate::world_counts::WorldCounts;
use kom_disk::{FileDisk, HostPlace, Opener};
use kom_types::Memory;
use std::alloc::Global;
use std::fs::File;
use std::io;
use std::io::{ErrorKind, Input, Printer};
use std::net::Net;
use std::rt::{Clock as Time, Files};

/// The process's own outside: its standard input and output, its sockets, the system's files and
/// its clock. It tells nothing of what files hold.
#[derive(Drop)]
pub struct StdWorld<'a, R>
where
    R: Input + Print + Time + Net + Sync + Files<File = File> + AllocGlobal + Copy + Send,
{
    rt: &'a R,
    counts: WorldCounts,
    faults: u64,
}

impl<'a, R> StdWorld<'a, R>
where
    R: Input + Print + Time + Net + Sync + Files<File = File> + AllocGlobal + Copy + Send,
{
    /// The outside of this process.
    pub fn new(rt: &'a R) -> StdWorld<'a, R> {
        StdWorld {
            rt,
            counts: WorldCounts::nothing(),
            faults: 0,
        }
    }
}

// The gates at a port, unless the system refuses them or memory runs out.
fn open_at<'a, R: Input + Print + Time + Net>(
    rt: &'a R,
    alloc: Global,
    port: u16,
    number: u32,
    links: AtATime,
) -> Result<Vec<StdGate<'a, R>>, WorldFault>
    ensures fresh { IfOk result (λ gates.
        AllByRecursion (λ gate. IsNewGate (⟦<StdGate<'a, R> as Gate>⟧.view gate)) gates.items) }
    ensures number { IfOk result (λ gates. length gates.items ≡ number) }
{
    match open_port(rt, alloc, port, number, links) {
        Ok(gates) => Ok(gates),
        Err(error) => {
            if error.kind() == ErrorKind::OutOfMemory {
                Err(WorldFault::Memory)
            } else {
                Err(WorldFault::Failed)
            }
        }
    }
}

impl<'a, R> World for StdWorld<'a, R>
where
    R: Input + Print + Time + Net + Sync + Files<File = File> + AllocGlobal + Copy + Send,
{
    type Gate = StdGate<'a, R>;

    type Clock = SystemClock<&'a R>;

    type Sink = StdSink<Printer<'a, R>>;

    type Disk = FileDisk<HostPlace<R>>;

    ghost view = { λ world. record {
      counts = world.counts;
      faults = world.faults;
      moment = None;
      files = None;
    } };

    fn faults(&self) -> u64 {
        self.faults
    }

    fn open_gates(
        &mut self,
        alloc: Global,
        port: u16,
        number: u32,
    ) -> Result<Vec<StdGate<'a, R>>, WorldFault> {
        let opened = match open_at(self.rt, alloc, port, number, AtATime::One) {
            Ok(gates) => Ok(gates),
            Err(WorldFault::Memory) => Err(WorldFault::Memory),
            Err(WorldFault::Failed) => {
                self.faults = self.faults.saturating_add(1);
                Err(WorldFault::Failed)
            }
        };
        self.counts.count_port(opened.is_ok());
        opened
    }

    fn open_doors(
        &mut self,
        alloc: Global,
        port: u16,
        number: u32,
    ) -> Result<Vec<StdGate<'a, R>>, WorldFault> {
        let opened = match open_at(self.rt, alloc, port, number, AtATime::Many) {
            Ok(gates) => Ok(gates),
            Err(WorldFault::Memory) => Err(WorldFault::Memory),
            Err(WorldFault::Failed) => {
                self.faults = self.faults.saturating_add(1);
                Err(WorldFault::Failed)
            }
        };
        self.counts.count_port(opened.is_ok());
        opened
    }

    fn std_gate(&mut self) -> Result<StdGate<'a, R>, WorldFault> {
        self.counts.count_gate(true);
        Ok(StdGate::new(self.rt))
    }

    fn clock(&mut self) -> Result<SystemClock<&'a R>, Memory> {
        self.counts.count_clock();
        Ok(SystemClock::new(self.rt))
    }

    fn out(&mut self) -> StdSink<Printer<'a, R>> {
        self.counts.count_sink();
        StdSink::new(io::writer(self.rt))
    }

    fn open_disk(&mut self, path: &str) -> Result<FileDisk<HostPlace<R>>, Failed> {
        match Opener::new().open(self.rt, path) {
            Ok(disk) => {
                self.counts.count_disk(true);
                Ok(disk)
            }
            Err(_) => {
                self.counts.count_disk(false);
                self.faults = self.faults.saturating_add(1);
                Err(Failed)
            }
        }
    }
}
