ghost use Rattle.std.specs.Prelude.{◌≡◌, ◌<◌, ◌≤◌, ◌+◌, ◌==◌, ◌&&◌, ◌↔◌, ◌⊎◌, ℕ, List, [], Some};
ghost use Rattle.std.specs.Prelude.{All, not};
ghost use Rattle.std.specs.Prelude.{is_some, take, drop, length, vec_len, codes};
ghost use Rattle.std.specs.List.{list_any};
ghost use Rattle.std.specs.Option.{ForSome};
ghost use Rattle.kom_links.specs.Outside.{Reads, Writes, read_bytes};
ghost use Rattle.kom_links.specs.WorldCounts.{next_call};
ghost use Rattle.memory_links.specs.Script.{faults_after, Fails, Waits};

use crate::flags::Flags;
use crate::read_log::{ReadLog, ReadMark};
use kom_links::{Got, Link, Took};
use std::alloc::Global;

// How many calls of a link wait for its flags at most; those that come later fail.
const MOST_HELD: u32 = 1_000_000;

/// Which calls of an object in memory are not served, by their numbers, counted from 1.
#[derive(Debug, Drop)]
pub struct Script {
    /// The calls that return `NotYet`.
    pub waits: Vec<u64>,
    /// The calls that fail.
    pub fails: Vec<u64>,
}

impl Script {
    /// All calls are served.
    pub fn new(alloc: Global) -> Script
        ensures no_waits { result.waits.items ≡ [] }
        ensures no_fails { result.fails.items ≡ [] }
    {
        Script {
            waits: Vec::new(alloc),
            fails: Vec::new(alloc),
        }
    }

    /// Whether the call of this number is to wait, and not to fail.
    fn waits_at(&self, number: u64) -> bool
        ensures { result ≡ (list_any (λ wait. wait == number) self.now.waits.items
            && not (list_any (λ fail. fail == number) self.now.fails.items)) }
    {
        self.waits.contains(&number) && !self.fails.contains(&number)
    }
}

/// How a link in memory gives and takes its bytes.
#[derive(Debug)]
pub struct LinkPlan {
    /// Places of the input at which a read stops.
    pub cuts: Vec<usize>,
    /// How many bytes a read gives at most; 0 sets no limit.
    pub most_read: usize,
    /// How many bytes a write takes at most; 0 sets no limit.
    pub most_written: usize,
    pub reads: Script,
    pub writes: Script,
    /// The flags for which it waits, and those that it sets.
    pub flags: Flags,
}

// A call of its own, so that whoever lets a plan go has one step to prove and not one for each
// part.
impl Drop for LinkPlan {
    fn drop(self) {
        let LinkPlan {
            cuts,
            most_read: _,
            most_written: _,
            reads,
            writes,
            flags,
        } = self;
        drop((cuts, reads, writes));
        drop(flags);
    }
}

impl LinkPlan {
    /// Each read gives all that there is room for, and each write takes all that it is handed.
    pub fn new(alloc: Global) -> LinkPlan
        ensures no_cuts { result.cuts.items ≡ [] }
        ensures no_most_read { result.most_read ≡ 0 }
        ensures no_most_written { result.most_written ≡ 0 }
        ensures reads_served { (result.reads.waits.items ≡ []) × (result.reads.fails.items ≡ []) }
        ensures writes_served { (result.writes.waits.items ≡ [])
            × (result.writes.fails.items ≡ []) }
        ensures no_flags { (result.flags.holds.items ≡ [])
            × (result.flags.signals.items ≡ []) }
    {
        LinkPlan {
            cuts: Vec::new(alloc),
            most_read: 0,
            most_written: 0,
            reads: Script::new(alloc),
            writes: Script::new(alloc),
            flags: Flags::new(alloc),
        }
    }
}

/// A link whose client's bytes are known beforehand, and which keeps what is put to it.
#[derive(Debug)]
pub struct MemoryLink {
    input: Vec<u8>,
    taken: usize,
    output: Vec<u8>,
    plan: LinkPlan,
    reads: u64,
    writes: u64,
    // How many calls waited for a flag.
    held: u32,
    has_ended: bool,
    faults: u64,
    log: ReadLog,
    // By which its gate tells of it, if that does.
    key: Option<usize>,
    ghost within: { taken ≤ vec_len input },
    ghost told: { ForSome log (λ marks. All (λ mark. mark.put ≤ length output.items) marks) },
}

impl Drop for MemoryLink {
    fn drop(self) {
        let MemoryLink {
            input,
            taken: _,
            output,
            plan,
            reads: _,
            writes: _,
            held: _,
            has_ended: _,
            faults: _,
            log,
            key: _,
        } = self;
        drop((input, output));
        drop((plan, log));
    }
}

impl MemoryLink {
    ghost use Rattle.memory_links.specs.Memories.{plan_of, reads_of, writes_of, place_of, left_of};
    ghost use Rattle.memory_links.specs.Memories.{IsMost, new_link, key_of};

    /// A link whose client sends these bytes and then ends its stream.
    pub fn new(alloc: Global, input: Vec<u8>, plan: LinkPlan) -> MemoryLink
        ensures fresh { ⟦<MemoryLink as Link>⟧.view result ≡ new_link input.items }
        ensures plan { plan_of result ≡ plan }
        ensures no_read { reads_of result ≡ 0 }
        ensures no_write { writes_of result ≡ 0 }
        ensures at_start { place_of result ≡ 0 }
    {
        MemoryLink::under(alloc, input, plan, None)
    }

    /// The same, of which its gate tells by this key.
    pub(crate) fn under(
        alloc: Global,
        input: Vec<u8>,
        plan: LinkPlan,
        key: Option<usize>,
    ) -> MemoryLink
        ensures fresh { ⟦<MemoryLink as Link>⟧.view result ≡ new_link input.items }
        ensures plan { plan_of result ≡ plan }
        ensures no_read { reads_of result ≡ 0 }
        ensures no_write { writes_of result ≡ 0 }
        ensures at_start { place_of result ≡ 0 }
        ensures key { key_of result ≡ key }
    {
        MemoryLink {
            input,
            taken: 0,
            output: Vec::new(alloc),
            plan,
            reads: 0,
            writes: 0,
            held: 0,
            has_ended: false,
            faults: 0,
            log: ReadLog::new(alloc),
            key,
        }
    }

    /// The key by which its gate tells of it, if that does.
    pub(crate) fn key(&self) -> Option<usize>
        ensures { result ≡ key_of self.now }
    {
        self.key
    }

    /// What was put so far.
    pub fn output(&self) -> &[u8]
        ensures { (⟦<MemoryLink as Link>⟧.view self.now).put ≡ Some result.now }
    {
        self.output.as_slice()
    }

    /// Whether it tells its reads, which it does while memory suffices for them.
    pub fn tells_reads(&self) -> bool
        ensures { result ≡ is_some (⟦<MemoryLink as Link>⟧.view self.now).reads }
    {
        self.log.is_whole()
    }

    /// How many bytes a read gives into so much room.
    fn ready(&self, room: usize) -> usize
        requires { 0 < room }
        ensures fits { result ≤ room }
        ensures there { self.now.taken + result ≤ vec_len self.now.input }
        ensures none { (result ≡ 0) ↔ (self.now.taken ≡ vec_len self.now.input) }
        ensures most { IsMost room (left_of self.now) (plan_of self.now)
            (place_of self.now) result }
    {
        let mut count = room.min(self.input.len() - self.taken);
        if 0 < self.plan.most_read {
            count = count.min(self.plan.most_read);
        }
        for cut in &self.plan.cuts {
            if self.taken < *cut {
                count = count.min(*cut - self.taken);
            }
        }
        count
    }
}

/// Copies bytes to a buffer's start.
fn copy_to_start(into: &mut [u8], from: &[u8])
    requires { length from.now ≤ length into.old }
    ensures { take (length from.now) into.new ≡ from.now }
{
    into[..from.len()].copy_from_slice(from);
}

impl MemoryLink {
    ghost use Rattle.memory_links.specs.Memories.{plan_of, reads_of, writes_of, place_of, left_of};
    ghost use Rattle.memory_links.specs.Memories.{read_failed, write_failed, GivesMost, TakesMost};

    /// A read that no flag holds.
    fn read_free(&mut self, into: &mut [u8]) -> Got
        requires { 0 < length into.old }
        ensures reads { Reads (⟦<MemoryLink as Link>⟧.view self.old) into.new result
            (⟦<MemoryLink as Link>⟧.view self.new) }

        // what the plan says of this read
        ensures failed { (result ≡ Got.Failed)
            ↔ Fails (plan_of self.old).reads.fails.items (reads_of self.old) }
        ensures not_yet { (result ≡ Got.NotYet)
            ↔ Waits (plan_of self.old).reads (reads_of self.old) }
        ensures gives { GivesMost (length into.new) (left_of self.old) (plan_of self.old)
            (place_of self.old) result }
        ensures place { place_of self.new
            ≡ place_of self.old + length (read_bytes result into.new) }
        ensures fault { (⟦<MemoryLink as Link>⟧.view self.new).faults
            ≡ faults_after (read_failed result) (⟦<MemoryLink as Link>⟧.view self.old).faults }
        ensures counted { reads_of self.new ≡ next_call (reads_of self.old) }
        ensures no_write { writes_of self.new ≡ writes_of self.old }
        ensures plan { plan_of self.new ≡ plan_of self.old }
    {
        self.reads = self.reads.saturating_add(1);
        let fails = self.plan.reads.fails.contains(&self.reads);
        let waits = self.plan.reads.waits_at(self.reads);
        let mark = ReadMark {
            taken: self.taken,
            put: self.output().len(),
            waited: waits,
        };
        self.log.add(mark);
        if fails {
            self.faults = self.faults.saturating_add(1);
            return Got::Failed;
        }
        if waits {
            return Got::NotYet;
        }
        let count = self.ready(into.len());
        if count == 0 {
            self.has_ended = true;
            return Got::End;
        }
        copy_to_start(into, &self.input[self.taken..][..count]);
        self.taken += count;
        Got::Some(count)
    }

    /// A write that no flag holds.
    fn write_free(&mut self, from: &[u8]) -> Took
        requires { 0 < length from.now }
        ensures writes { Writes (⟦<MemoryLink as Link>⟧.view self.old) from.now result
            (⟦<MemoryLink as Link>⟧.view self.new) }

        // What the plan says of this write. One that finds no room fails too.
        ensures failed { Fails (plan_of self.old).writes.fails.items (writes_of self.old) →
            result ≡ Took.Failed }
        ensures not_yet { (result ≡ Took.NotYet)
            ↔ Waits (plan_of self.old).writes (writes_of self.old) }
        ensures takes { TakesMost (length from.now) (plan_of self.old) result }
        ensures place { place_of self.new ≡ place_of self.old }
        ensures fault { (⟦<MemoryLink as Link>⟧.view self.new).faults
            ≡ faults_after (write_failed result) (⟦<MemoryLink as Link>⟧.view self.old).faults }
        ensures counted { writes_of self.new ≡ next_call (writes_of self.old) }
        ensures no_read { reads_of self.new ≡ reads_of self.old }
        ensures plan { plan_of self.new ≡ plan_of self.old }
    {
        self.writes = self.writes.saturating_add(1);
        if self.plan.writes.fails.contains(&self.writes) {
            self.faults = self.faults.saturating_add(1);
            return Took::Failed;
        }
        if self.plan.writes.waits.contains(&self.writes) {
            return Took::NotYet;
        }
        let mut count = from.len();
        if 0 < self.plan.most_written {
            count = count.min(self.plan.most_written);
        }
        if self.output.extend_from_slice(&from[..count]).is_err() {
            self.faults = self.faults.saturating_add(1);
            return Took::Failed;
        }
        Took::Some(count)
    }

    /// A read that a flag holds: it waits, or fails if too many calls have waited.
    fn hold_read(&mut self) -> Got
        ensures held { (result ≡ Got.NotYet) ⊎ (result ≡ Got.Failed) }
        ensures reads { (buffer : List ℕ) → Reads (⟦<MemoryLink as Link>⟧.view self.old) buffer
            result (⟦<MemoryLink as Link>⟧.view self.new) }
        ensures place { place_of self.new ≡ place_of self.old }
        ensures fault { (⟦<MemoryLink as Link>⟧.view self.new).faults
            ≡ faults_after (read_failed result) (⟦<MemoryLink as Link>⟧.view self.old).faults }
        ensures counted { reads_of self.new ≡ next_call (reads_of self.old) }
        ensures no_write { writes_of self.new ≡ writes_of self.old }
        ensures plan { plan_of self.new ≡ plan_of self.old }
    {
        self.reads = self.reads.saturating_add(1);
        let waits = self.held < MOST_HELD;
        let mark = ReadMark {
            taken: self.taken,
            put: self.output().len(),
            waited: waits,
        };
        self.log.add(mark);
        if waits {
            self.held += 1;
            return Got::NotYet;
        }
        self.faults = self.faults.saturating_add(1);
        Got::Failed
    }

    /// A write that a flag holds likewise.
    fn hold_write(&mut self) -> Took
        ensures held { (result ≡ Took.NotYet) ⊎ (result ≡ Took.Failed) }
        ensures writes { (from : List ℕ) → Writes (⟦<MemoryLink as Link>⟧.view self.old) from
            result (⟦<MemoryLink as Link>⟧.view self.new) }
        ensures place { place_of self.new ≡ place_of self.old }
        ensures fault { (⟦<MemoryLink as Link>⟧.view self.new).faults
            ≡ faults_after (write_failed result) (⟦<MemoryLink as Link>⟧.view self.old).faults }
        ensures counted { writes_of self.new ≡ next_call (writes_of self.old) }
        ensures no_read { reads_of self.new ≡ reads_of self.old }
        ensures plan { plan_of self.new ≡ plan_of self.old }
    {
        self.writes = self.writes.saturating_add(1);
        if self.held < MOST_HELD {
            self.held += 1;
            return Took::NotYet;
        }
        self.faults = self.faults.saturating_add(1);
        Took::Failed
    }
}

impl Link for MemoryLink {
    ghost use Rattle.memory_links.specs.Memories.{plan_of, reads_of, writes_of, place_of, left_of};
    ghost use Rattle.memory_links.specs.Memories.{read_failed, write_failed, GivesMost, TakesMost};
    ghost use Rattle.memory_links.specs.Memories.{told_reads};

    ghost view = { λ link. record {
      host = codes "memory";
      taken = Some (take link.taken link.input.items);
      left = Some (drop link.taken link.input.items);
      put = Some link.output.items;
      ended = link.has_ended;
      faults = link.faults;
      reads = told_reads link;
    } };

    fn host(&self) -> &[u8] {
        b"memory"
    }

    fn faults(&self) -> u64 {
        self.faults
    }

    fn read(&mut self, into: &mut [u8]) -> Got
        requires { 0 < length into.old }
        ensures reads { Reads (⟦<MemoryLink as Link>⟧.view self.old) into.new result
            (⟦<MemoryLink as Link>⟧.view self.new) }

        // What the plan says of this read, unless flags may hold it.
        ensures failed { (plan_of self.old).flags.holds.items ≡ [] → ((result ≡ Got.Failed)
            ↔ Fails (plan_of self.old).reads.fails.items (reads_of self.old)) }
        ensures not_yet { (plan_of self.old).flags.holds.items ≡ [] → ((result ≡ Got.NotYet)
            ↔ Waits (plan_of self.old).reads (reads_of self.old)) }
        ensures gives { GivesMost (length into.new) (left_of self.old) (plan_of self.old)
            (place_of self.old) result }
        ensures place { place_of self.new
            ≡ place_of self.old + length (read_bytes result into.new) }
        ensures fault { (⟦<MemoryLink as Link>⟧.view self.new).faults
            ≡ faults_after (read_failed result) (⟦<MemoryLink as Link>⟧.view self.old).faults }
        ensures counted { reads_of self.new ≡ next_call (reads_of self.old) }
        ensures no_write { writes_of self.new ≡ writes_of self.old }
        ensures plan { plan_of self.new ≡ plan_of self.old }
    {
        if self.plan.flags.holds_read(self.taken) {
            self.hold_read()
        } else {
            self.read_free(into)
        }
    }

    fn write(&mut self, from: &[u8]) -> Took
        requires { 0 < length from.now }
        ensures writes { Writes (⟦<MemoryLink as Link>⟧.view self.old) from.now result
            (⟦<MemoryLink as Link>⟧.view self.new) }

        // What the plan says of this write, unless flags may hold it. One that finds no room fails
        // too.
        ensures failed { (plan_of self.old).flags.holds.items ≡ [] →
            Fails (plan_of self.old).writes.fails.items (writes_of self.old) →
            result ≡ Took.Failed }
        ensures not_yet { (plan_of self.old).flags.holds.items ≡ [] → ((result ≡ Took.NotYet)
            ↔ Waits (plan_of self.old).writes (writes_of self.old)) }
        ensures takes { TakesMost (length from.now) (plan_of self.old) result }
        ensures place { place_of self.new ≡ place_of self.old }
        ensures fault { (⟦<MemoryLink as Link>⟧.view self.new).faults
            ≡ faults_after (write_failed result) (⟦<MemoryLink as Link>⟧.view self.old).faults }
        ensures counted { writes_of self.new ≡ next_call (writes_of self.old) }
        ensures no_read { reads_of self.new ≡ reads_of self.old }
        ensures plan { plan_of self.new ≡ plan_of self.old }
    {
        if self.plan.flags.holds_write(self.output.len()) {
            return self.hold_write();
        }
        let took = self.write_free(from);
        self.plan.flags.signal(self.output.len());
        took
    }
}
