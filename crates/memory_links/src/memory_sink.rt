ghost use Rattle.std.specs.Prelude.{◌≡◌, [], Some, IsErr, is_err};
ghost use Rattle.kom_links.specs.Doors.{Puts};
ghost use Rattle.kom_links.specs.WorldCounts.{next_call};
ghost use Rattle.memory_links.specs.Script.{faults_after, Fails};
ghost use Rattle.memory_links.specs.Memories.{fails_of, sink_writes_of};

use kom_links::{Failed, Sink};
use std::alloc::Global;

/// A sink that keeps what is put to it. Of a write that fails it keeps nothing.
#[derive(Debug, Drop)]
pub struct MemorySink {
    output: Vec<u8>,
    fails: Vec<u64>,
    writes: u64,
    faults: u64,
}

impl MemorySink {
    /// A sink whose writes of these numbers, counted from 1, fail.
    pub fn new(alloc: Global, fails: Vec<u64>) -> MemorySink
        ensures empty { ⟦<MemorySink as Sink>⟧.view result ≡ record { put = Some []; faults = 0 } }
        ensures fails { fails_of result ≡ fails.items }
        ensures no_write { sink_writes_of result ≡ 0 }
    {
        MemorySink {
            output: Vec::new(alloc),
            fails,
            writes: 0,
            faults: 0,
        }
    }

    /// What was put so far.
    pub fn output(&self) -> &[u8]
        ensures { (⟦<MemorySink as Sink>⟧.view self.now).put ≡ Some result.now }
    {
        self.output.as_slice()
    }
}

impl Sink for MemorySink {
    ghost view = { λ sink. record { put = Some sink.output.items; faults = sink.faults } };

    fn faults(&self) -> u64 {
        self.faults
    }

    fn write(&mut self, from: &[u8]) -> Result<(), Failed>
        ensures puts { Puts (⟦<MemorySink as Sink>⟧.view self.old) from.now result
            (⟦<MemorySink as Sink>⟧.view self.new) }

        // what its numbers say of this write
        ensures scripted { Fails (fails_of self.old) (sink_writes_of self.old) → IsErr result }
        ensures fault { (⟦<MemorySink as Sink>⟧.view self.new).faults
            ≡ faults_after (is_err result) (⟦<MemorySink as Sink>⟧.view self.old).faults }
        ensures counted { sink_writes_of self.new ≡ next_call (sink_writes_of self.old) }
        ensures fails { fails_of self.new ≡ fails_of self.old }
    {
        self.writes = self.writes.saturating_add(1);
        if self.fails.contains(&self.writes) || self.output.extend_from_slice(from).is_err() {
            self.faults = self.faults.saturating_add(1);
            return Err(Failed);
        }
        Ok(())
    }
}
