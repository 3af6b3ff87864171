// A disk in memory, which can fail, stop, and show what a stop would leave.
ghost use Rattle.std.specs.Prelude.{◌≡◌, ◌<◌, ◌≤◌, ◌+◌, [], true, false, refl, length, take};
ghost use Rattle.std.specs.Prelude.{drop, vec_len, vec_capacity, IsErr, IfOk, IfSome, OnOk};
ghost use Rattle.std.specs.Prelude.{OnErr};
ghost use Rattle.std.proofs.Common.{inr};
ghost use Rattle.kom_disk.specs.Disk.{overwritten, IsTorn, IsShortened, ComesBy, AddsNone, Only};
ghost use Rattle.kom_disk.specs.Disk.{Passes};
ghost use Rattle.kom_disk.specs.Faults.{CountsFault};
ghost use Rattle.kom_disk.specs.Steps.{bytes_after, IsWrite, all_steps};

use crate::calls::Calls;
use crate::image::{replayed, synced, torn};
use crate::script::Script;
use crate::step::Step;
use crate::tear::{Tear, torn_range};
use crate::{Disk, Failed, Memory};
use std::alloc::Global;

/// Bytes in memory. Each call that succeeds is one moment of its clock. A call that fails changes
/// no byte and no image, unless a part of a failed write is to be left.
#[derive(Drop)]
pub struct MemoryDisk {
    alloc: Global,
    /// As it was made.
    start: Vec<u8>,
    bytes: Vec<u8>,
    room: usize,
    /// What is left of a write that fails.
    part: Tear,
    calls: Calls,
    ghost roomy: { room ≤ vec_capacity bytes },
    ghost replayed: { bytes.items ≡ bytes_after start.items calls.steps.items },
}

impl MemoryDisk {
    ghost use Rattle.kom_disk.specs.MemoryDisk.{bytes_of, stable_of, images_of, moment_of};
    ghost use Rattle.kom_disk.specs.MemoryDisk.{faults_of, room_of, fails_of, stop_of};
    ghost use Rattle.kom_disk.specs.MemoryDisk.{calls_of, part_of, images_after};
    ghost use Rattle.kom_disk.specs.declared.tear.Tear.TheVariants.{Nothing};

    /// A disk with these bytes, which a stop would leave. A write that ends past `room` fails, and
    /// so does each call whose number, from 1 on, stands in `fails`, and each after the first
    /// `stop` calls.
    pub fn make(
        alloc: Global,
        bytes: Vec<u8>,
        room: usize,
        fails: Vec<u64>,
        stop: Option<u64>,
    ) -> Result<MemoryDisk, Memory>
        ensures bytes { IfOk result (λ disk. bytes_of disk ≡ bytes.items) }
        ensures stable { IfOk result (λ disk. Only bytes.items (images_of disk)) }
        ensures no_call { IfOk result
            (λ disk. (moment_of disk ≡ 0) × (calls_of disk ≡ 0) × (faults_of disk ≡ 0)) }
        ensures no_part { IfOk result (λ disk. part_of disk ≡ Nothing) }
        ensures room { IfOk result (λ disk. room_of disk ≡ room) }
        ensures script { IfOk result
            (λ disk. (fails_of disk ≡ fails.items) × (stop_of disk ≡ stop)) }
    {
        let start = bytes.as_slice().to_vec(alloc)?;
        let mut bytes = bytes;
        bytes.reserve(room.saturating_sub(bytes.len()))?;
        Ok(MemoryDisk {
            alloc,
            start,
            bytes,
            room,
            part: Tear::Nothing,
            calls: Calls::new(alloc, Script::new(fails, stop)),
        })
    }

    /// One image of those that a stop now may leave. Choice 0 picks the stable bytes, choice 1 the
    /// bytes as they are read. A choice below 8 tears each write and cut since the last sync in one
    /// way, and greater ones tear them in different ways.
    pub fn image(&self, choice: u64) -> Result<Vec<u8>, Memory>
        ensures image { IfOk result (λ image. images_of self.now image.items) }
        ensures stable { choice ≡ 0 → IfOk result (λ image. image.items ≡ stable_of self.now) }
        ensures whole { choice ≡ 1 → IfOk result (λ image. image.items ≡ bytes_of self.now) }
    {
        if choice == 1 {
            return Ok(self.bytes.as_slice().to_vec(self.alloc)?);
        }
        let steps = self.calls.steps.as_slice();
        let (done, since) = steps.split_at(synced(steps));
        let stable = replayed(self.alloc, &self.start, done)?;
        Ok(torn(stable, since, &[], choice)?)
    }

    /// The image that is left where the writes and cuts since the last sync are torn so, in their
    /// order. Those after the last of the list leave nothing.
    pub fn image_torn(&self, tears: &[Tear]) -> Result<Vec<u8>, Memory>
        ensures image { IfOk result (λ image. images_of self.now image.items) }
    {
        let steps = self.calls.steps.as_slice();
        let (done, since) = steps.split_at(synced(steps));
        let stable = replayed(self.alloc, &self.start, done)?;
        Ok(torn(stable, since, tears, 0)?)
    }

    /// From now on a write that fails leaves this of its bytes, where that ends within the room.
    pub fn leave_parts(&mut self, part: Tear)
        ensures part { part_of self.new ≡ part }
        ensures bytes { bytes_of self.new ≡ bytes_of self.old }
        ensures stop { AddsNone (images_of self.old) (images_of self.new) }
        ensures script { (calls_of self.new ≡ calls_of self.old)
            × (fails_of self.new ≡ fails_of self.old)
            × (stop_of self.new ≡ stop_of self.old) × (room_of self.new ≡ room_of self.old) }
        ensures counts { (moment_of self.new ≡ moment_of self.old)
            × (faults_of self.new ≡ faults_of self.old) }
    {
        self.part = part;
    }

    // Leaves a part of a write that has failed, where it ends within the room and finds memory.
    fn leave_part(&mut self, at: usize, from: &[u8])
        requires { at ≤ length (bytes_of self.old) }
        ensures left { IsTorn at (length from.now) (bytes_of self.old) (bytes_of self.new) }
        ensures stop { ComesBy (IsTorn at (length from.now)) (images_of self.old)
            (images_of self.new) }
        ensures time { Passes true (moment_of self.old) (moment_of self.new) (images_after self.old)
            (images_after self.new) }
        ensures nothing { part_of self.old ≡ Nothing → self.new ≡ self.old }
        ensures script { self.new.calls.script ≡ self.old.calls.script }
        ensures same { (room_of self.new ≡ room_of self.old) × (part_of self.new ≡ part_of self.old)
            × (self.new.start ≡ self.old.start) }
    {
        if let Tear::Nothing = self.part {
            return;
        }
        if let Ok(left) = torn_range(self.alloc, self.part, &self.bytes, at, from) {
            self.leave(at, &left);
        }
    }

    // Writes bytes where they end within the room and find memory.
    fn leave(&mut self, at: usize, left: &[u8])
        requires { at ≤ length (bytes_of self.old) }
        ensures left { IsTorn at (length left.now) (bytes_of self.old) (bytes_of self.new) }
        ensures stop { ComesBy (IsTorn at (length left.now)) (images_of self.old)
            (images_of self.new) }
        ensures time { Passes true (moment_of self.old) (moment_of self.new) (images_after self.old)
            (images_after self.new) }
        ensures script { self.new.calls.script ≡ self.old.calls.script }
        ensures same { (room_of self.new ≡ room_of self.old) × (part_of self.new ≡ part_of self.old)
            × (self.new.start ≡ self.old.start) }
    {
        let Some(step) = write_step(self.alloc, self.room, at, left) else {
            return;
        };
        if self.calls.keep(step) {
            overwrite(&mut self.bytes, at, left);
        }
    }
}

impl Disk for MemoryDisk {
    ghost use Rattle.kom_disk.specs.MemoryDisk.{bytes_of, images_of, images_after, moment_of};
    ghost use Rattle.kom_disk.specs.MemoryDisk.{faults_of, room_of, KeepsToScript};

    ghost tells = { true };

    ghost bytes = { bytes_of };

    ghost size = { λ disk. length (bytes_of disk) };

    ghost images = { images_of };

    ghost moment = { moment_of };

    ghost images_at = { images_after };

    ghost tells_reads = { false };

    ghost reads = { λ _. [] };

    ghost faults = { faults_of };

    ghost counts_bytes = { λ disk _. refl };

    ghost reads_as_image = { λ disk _. inr disk.replayed };

    ghost images_now = { λ disk image _. all_steps disk.start.items disk.calls.steps.items image };

    fn faults(&self) -> u64 {
        self.calls.script.faults
    }

    fn len(&mut self) -> Result<u64, Failed>
        ensures counted { IfOk result (λ n. n ≡ length (bytes_of self.new)) }
        ensures bytes { bytes_of self.new ≡ bytes_of self.old }
        ensures stop { AddsNone (images_of self.old) (images_of self.new) }
        ensures time { Passes true (moment_of self.old) (moment_of self.new) (images_after self.old)
            (images_after self.new) }
        ensures faults { CountsFault (faults_of self.old) (faults_of self.new) result }
        ensures script { KeepsToScript self.old self.new result }
    {
        self.calls.begin(Some(Step::Pass))?;
        Ok(self.bytes.len() as u64)
    }

    fn read(&mut self, at: u64, into: &mut [u8]) -> Result<(), Failed>
        requires { at + length into.old ≤ length (bytes_of self.old) }
        ensures given { OnOk result
            (into.new ≡ take (length into.old) (drop at (bytes_of self.old))) }
        ensures bytes { bytes_of self.new ≡ bytes_of self.old }
        ensures stop { AddsNone (images_of self.old) (images_of self.new) }
        ensures time { Passes true (moment_of self.old) (moment_of self.new) (images_after self.old)
            (images_after self.new) }
        ensures faults { CountsFault (faults_of self.old) (faults_of self.new) result }
        ensures script { KeepsToScript self.old self.new result }
    {
        self.calls.begin(Some(Step::Pass))?;
        let at = at as usize;
        into.copy_from_slice(&self.bytes[at..at + into.len()]);
        Ok(())
    }

    fn write_at(&mut self, at: u64, from: &[u8]) -> Result<(), Failed>
        requires { at ≤ length (bytes_of self.old) }
        ensures written { OnOk result
            (bytes_of self.new ≡ overwritten (bytes_of self.old) at from.now) }
        ensures left { OnErr result
            (IsTorn at (length from.now) (bytes_of self.old) (bytes_of self.new)) }
        ensures room { room_of self.old < at + length from.now → IsErr result }
        ensures stop { ComesBy (IsTorn at (length from.now)) (images_of self.old)
            (images_of self.new) }
        ensures time { Passes true (moment_of self.old) (moment_of self.new) (images_after self.old)
            (images_after self.new) }
        ensures faults { CountsFault (faults_of self.old) (faults_of self.new) result }
        ensures script { KeepsToScript self.old self.new result }
    {
        let at = at as usize;
        let step = write_step(self.alloc, self.room, at, from);
        match self.calls.begin(step) {
            Ok(()) => {
                overwrite(&mut self.bytes, at, from);
                Ok(())
            }
            Err(failed) => {
                self.leave_part(at, from);
                Err(failed)
            }
        }
    }

    fn cut(&mut self, len: u64) -> Result<(), Failed>
        ensures cut { OnOk result (bytes_of self.new ≡ take len (bytes_of self.old)) }
        ensures left { OnErr result (bytes_of self.new ≡ bytes_of self.old) }
        ensures stop { ComesBy (IsShortened len) (images_of self.old) (images_of self.new) }
        ensures time { Passes true (moment_of self.old) (moment_of self.new) (images_after self.old)
            (images_after self.new) }
        ensures faults { CountsFault (faults_of self.old) (faults_of self.new) result }
        ensures script { KeepsToScript self.old self.new result }
    {
        let len = len as usize;
        self.calls.begin(Some(Step::Cut(len)))?;
        self.bytes.truncate(len);
        Ok(())
    }

    fn sync(&mut self) -> Result<(), Failed>
        ensures durable { OnOk result (Only (bytes_of self.new) (images_of self.new)) }
        ensures bytes { bytes_of self.new ≡ bytes_of self.old }
        ensures stop { AddsNone (images_of self.old) (images_of self.new) }
        ensures time { Passes true (moment_of self.old) (moment_of self.new) (images_after self.old)
            (images_after self.new) }
        ensures faults { CountsFault (faults_of self.old) (faults_of self.new) result }
        ensures script { KeepsToScript self.old self.new result }
    {
        self.calls.begin(Some(Step::Sync))
    }
}

// A copy of what is to be written, if that ends within the room and the copy finds memory.
fn write_step(alloc: Global, room: usize, at: usize, from: &[u8]) -> Option<Step>
    ensures fits { IfSome result (λ _. at + length from.now ≤ room) }
    ensures step { IfSome result (IsWrite at from.now) }
{
    if from.len() > room || at > room - from.len() {
        return None;
    }
    let copy = from.to_vec(alloc).ok()?;
    Some(Step::Write(at, copy))
}

/// Writes over what is there and past its end. Where there is room enough it takes no memory.
pub fn overwrite(bytes: &mut Vec<u8>, at: usize, from: &[u8])
    requires at { at ≤ vec_len bytes.old }
    requires room { at + length from.now ≤ vec_capacity bytes.old }
    ensures items { bytes.new.items ≡ overwritten bytes.old.items at from.now }
    ensures capacity { vec_capacity bytes.old ≤ vec_capacity bytes.new }
{
    let end = at + from.len();
    if end < bytes.len() {
        bytes[at..end].copy_from_slice(from);
    } else {
        bytes.truncate(at);
        bytes.extend_from_slice(from).unwrap();
    }
}
