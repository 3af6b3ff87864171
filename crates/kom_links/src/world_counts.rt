ghost use Rattle.std.specs.Prelude.{◌≡◌};
ghost use Rattle.kom_links.specs.WorldCounts.{with_port, with_gate, with_clock, with_sink};
ghost use Rattle.kom_links.specs.WorldCounts.{with_disk};

/// How often a world was asked for what it has. Each count stands still at 2^64 - 1.
#[derive(Clone, Copy, Debug, PartialEq, Eq)]
pub struct WorldCounts {
    /// For gates at a port.
    pub ports: u64,
    /// For such gates, where they were then given.
    pub opened: u64,
    /// For its gate over standard input and output.
    pub gates: u64,
    /// For that gate, where it was then given.
    pub given: u64,
    /// For a clock.
    pub clocks: u64,
    /// For a sink.
    pub sinks: u64,
    /// For a disk.
    pub disks: u64,
    /// For one that it then opened.
    pub disks_opened: u64,
}

impl WorldCounts {
    /// A world was asked for nothing yet.
    pub const fn nothing() -> WorldCounts
        ensures { result ≡ record {
          ports = 0;
          opened = 0;
          gates = 0;
          given = 0;
          clocks = 0;
          sinks = 0;
          disks = 0;
          disks_opened = 0;
        } }
    {
        WorldCounts {
            ports: 0,
            opened: 0,
            gates: 0,
            given: 0,
            clocks: 0,
            sinks: 0,
            disks: 0,
            disks_opened: 0,
        }
    }

    /// Counts that gates at a port were asked for, and whether they are given.
    pub fn count_port(&mut self, is_given: bool)
        ensures { self.new ≡ with_port is_given self.old }
    {
        self.ports = self.ports.saturating_add(1);
        if is_given {
            self.opened = self.opened.saturating_add(1);
        }
    }

    /// Counts that a gate was asked for, and whether it is given.
    pub fn count_gate(&mut self, is_given: bool)
        ensures { self.new ≡ with_gate is_given self.old }
    {
        self.gates = self.gates.saturating_add(1);
        if is_given {
            self.given = self.given.saturating_add(1);
        }
    }

    /// Counts that a clock was asked for.
    pub fn count_clock(&mut self)
        ensures { self.new ≡ with_clock self.old }
    {
        self.clocks = self.clocks.saturating_add(1);
    }

    /// Counts that a sink was asked for.
    pub fn count_sink(&mut self)
        ensures { self.new ≡ with_sink self.old }
    {
        self.sinks = self.sinks.saturating_add(1);
    }

    /// Counts that a disk was asked for, and whether it is opened.
    pub fn count_disk(&mut self, is_opened: bool)
        ensures { self.new ≡ with_disk is_opened self.old }
    {
        self.disks = self.disks.saturating_add(1);
        if is_opened {
            self.disks_opened = self.disks_opened.saturating_add(1);
        }
    }
}
