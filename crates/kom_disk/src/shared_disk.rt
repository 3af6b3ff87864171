// A disk in memory whose bytes change beside it, as if another process wrote them.
ghost use Rattle.std.specs.Prelude.{◌≡◌, ◌≤◌, ◌+◌, ℕ, List, [], ◌∷◌, ◌++◌, IsTrue, true, false};
ghost use Rattle.std.specs.Prelude.{length, take, drop, IsErr, IfOk, OnOk, OnErr, nat_le};
ghost use Rattle.std.specs.Prelude.{if◌then◌else◌};
ghost use Rattle.kom_disk.specs.Disk.{owes_nothing};
ghost use Rattle.kom_disk.specs.Faults.{CountsFault};
ghost use Rattle.kom_disk.specs.Shared.{shown_at, reads_given, TakesNumber};

use crate::script::Script;
use crate::{Disk, Failed};
use std::alloc::{AllocError, Global};

/// From the call of this number on the disk shows these bytes.
#[derive(Drop)]
pub struct Change {
    pub call: u64,
    pub bytes: Vec<u8>,
}

/// What a read gave.
#[derive(Drop)]
pub struct Given {
    pub at: u64,
    pub bytes: Vec<u8>,
}

/// Bytes in memory that another writes. It tells its reads and not its content, and cannot be
/// written. Its calls are numbered from 1 on, and at each it shows the bytes of the last change of
/// those that have come.
#[derive(Drop)]
pub struct SharedDisk {
    alloc: Global,
    start: Vec<u8>,
    changes: Vec<Change>,
    script: Script,
    /// As last counted.
    len: u64,
    given: Vec<Given>,
}

impl SharedDisk {
    /// A disk that shows `start` until the first change. Each call whose number stands in `fails`
    /// fails, and each after the first `stop` calls.
    pub fn make(
        alloc: Global,
        start: Vec<u8>,
        changes: Vec<Change>,
        fails: Vec<u64>,
        stop: Option<u64>,
    ) -> SharedDisk
        ensures shown { (result.start.items ≡ start.items)
            × (result.changes.items ≡ changes.items) }
        ensures no_call { (result.script.made ≡ 0) × (result.script.faults ≡ 0)
            × (result.given.items ≡ []) }
        ensures script { (result.script.fails.items ≡ fails.items) × (result.script.stop ≡ stop) }
    {
        SharedDisk {
            alloc,
            start,
            changes,
            script: Script::new(fails, stop),
            len: 0,
            given: Vec::new(alloc),
        }
    }

    // Numbers a call, which may be one that fails.
    fn begin(&mut self) -> Result<(), Failed>
        ensures faults { CountsFault self.old.script.faults self.new.script.faults result }
        ensures script { TakesNumber self.old self.new result }
        ensures same { (self.new.len ≡ self.old.len) × (self.new.given ≡ self.old.given) }
    {
        if self.script.next() {
            return Err(self.script.fail());
        }
        Ok(())
    }

    // Whether so many bytes are shown now from `at` on.
    fn shows(&self, at: u64, count: usize) -> bool
        ensures { IsTrue result
            → at + count ≤ length
            (shown_at self.now.start.items self.now.changes.items self.now.script.made) }
    {
        let len = shown(&self.start, &self.changes, self.script.made).len() as u64;
        at <= len && count as u64 <= len - at
    }

    // Fills `into` with what is shown now, and keeps what it gave.
    fn give(&mut self, at: u64, into: &mut [u8]) -> Result<(), AllocError>
        requires { at + length into.old
            ≤ length (shown_at self.old.start.items self.old.changes.items self.old.script.made) }
        ensures given { OnOk result
            (into.new ≡ take (length into.old)
            (drop at (shown_at self.old.start.items self.old.changes.items self.old.script.made))) }
        ensures told { OnOk result
            (reads_given self.new.given.items ≡ reads_given self.old.given.items
            ++ (at, into.new) ∷ []) }
        ensures untold { OnErr result (self.new.given.items ≡ self.old.given.items) }
        ensures same { (self.new.start ≡ self.old.start) × (self.new.changes ≡ self.old.changes)
            × (self.new.len ≡ self.old.len) × (self.new.script ≡ self.old.script) }
    {
        let shown = shown(&self.start, &self.changes, self.script.made);
        let place = at as usize;
        into.copy_from_slice(&shown[place..place + into.len()]);
        let bytes = into.to_vec(self.alloc)?;
        self.given.push(Given { at, bytes })?;
        Ok(())
    }
}

// What is shown at the call of this number.
fn shown<'a>(start: &'a [u8], changes: &'a [Change], number: u64) -> &'a [u8]
    ensures { result.now ≡ shown_at start.now changes.now number }
{
    let mut shown = start;
    for change in changes {
        shown = later(shown, change, number);
    }
    shown
}

fn later<'a>(shown: &'a [u8], change: &'a Change, number: u64) -> &'a [u8]
    ensures { result.now
        ≡ (if nat_le change.now.call number then change.now.bytes.items else shown.now) }
{
    if change.call <= number {
        change.bytes.as_slice()
    } else {
        shown
    }
}

impl Disk for SharedDisk {
    ghost tells = { false };

    ghost bytes = { λ _. [] };

    ghost size = { λ disk. disk.len };

    ghost images = { λ _ _. ⊥ };

    ghost moment = { λ _. 0 };

    ghost images_at = { λ _ _ _. ⊥ };

    ghost tells_reads = { true };

    ghost reads = { λ disk. reads_given disk.given.items };

    ghost faults = { λ disk. disk.script.faults };

    ghost counts_bytes = { λ _ told. owes_nothing told };

    ghost reads_as_image = { λ _ told. owes_nothing told };

    ghost images_now = { λ _ _ told. owes_nothing told };

    fn faults(&self) -> u64 {
        self.script.faults
    }

    fn len(&mut self) -> Result<u64, Failed>
        ensures counted { IfOk result (λ n. (n ≡ self.new.len)
            × (n ≡ length
            (shown_at self.old.start.items self.old.changes.items self.new.script.made))) }
        ensures size_left { OnErr result (self.new.len ≡ self.old.len) }
        ensures reads { reads_given self.new.given.items ≡ reads_given self.old.given.items }
        ensures faults { CountsFault self.old.script.faults self.new.script.faults result }
        ensures script { TakesNumber self.old self.new result }
    {
        self.begin()?;
        self.len = shown(&self.start, &self.changes, self.script.made).len() as u64;
        Ok(self.len)
    }

    fn read(&mut self, at: u64, into: &mut [u8]) -> Result<(), Failed>
        requires { at + length into.old ≤ self.old.len }
        ensures shown { OnOk result (into.new ≡ take (length into.old)
            (drop at (shown_at self.old.start.items self.old.changes.items self.new.script.made))) }
        ensures told { OnOk result
            (reads_given self.new.given.items ≡ reads_given self.old.given.items
            ++ (at, into.new) ∷ []) }
        ensures untold { OnErr result
            (reads_given self.new.given.items ≡ reads_given self.old.given.items) }
        ensures size { self.new.len ≡ self.old.len }
        ensures faults { CountsFault self.old.script.faults self.new.script.faults result }
        ensures script { TakesNumber self.old self.new result }
    {
        self.begin()?;
        if !self.shows(at, into.len()) {
            return Err(self.script.fail());
        }
        match self.give(at, into) {
            Ok(()) => Ok(()),
            Err(_) => Err(self.script.fail()),
        }
    }

    fn write_at(&mut self, at: u64, from: &[u8]) -> Result<(), Failed>
        ensures refused { IsErr result }
        ensures size { self.new.len ≡ self.old.len }
        ensures reads { reads_given self.new.given.items ≡ reads_given self.old.given.items }
        ensures faults { CountsFault self.old.script.faults self.new.script.faults result }
        ensures script { TakesNumber self.old self.new result }
    {
        self.begin()?;
        Err(self.script.fail())
    }

    fn cut(&mut self, len: u64) -> Result<(), Failed>
        ensures refused { IsErr result }
        ensures size { self.new.len ≡ self.old.len }
        ensures reads { reads_given self.new.given.items ≡ reads_given self.old.given.items }
        ensures faults { CountsFault self.old.script.faults self.new.script.faults result }
        ensures script { TakesNumber self.old self.new result }
    {
        self.begin()?;
        Err(self.script.fail())
    }

    fn sync(&mut self) -> Result<(), Failed>
        ensures size { self.new.len ≡ self.old.len }
        ensures reads { reads_given self.new.given.items ≡ reads_given self.old.given.items }
        ensures faults { CountsFault self.old.script.faults self.new.script.faults result }
        ensures script { TakesNumber self.old self.new result }
    {
        self.begin()
    }
}
