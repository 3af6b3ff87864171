// A log of batches: what waits for a flush, and the flush.
ghost use Rattle.std.specs.Prelude.{◌≡◌, ◌≢◌, ◌<◌, ◌≤◌, ◌+◌, ◌^◌, ◌↔◌, ◌++◌, ℕ, [], ◌∷◌, take};
ghost use Rattle.std.specs.Prelude.{drop, length, vec_len, vec_capacity, IsTrue, OnOk, OnErr, IfOk};
ghost use Rattle.std.specs.Prelude.{IfErr, Ok, Err};
ghost use Rattle.kom_disk.specs.Faults.{CountsFault, Rose};
ghost use Rattle.kom_disk.specs.Moments.{LeavesOnly};
ghost use Rattle.batch_log.specs.Batches.{with_length, batches};
ghost use Rattle.batch_log.specs.Gates.{IsAtRest, IsStable, IsShutOrWhole, chunk_of};
ghost use Rattle.batch_log.specs.Log.{flush_of, size_after};

use crate::encode::Encode;
use crate::errors::FlushFault;
use crate::gates::write_gated;
use kom_disk::{Disk, Failed, Memory};
use std::alloc::Global;
use std::marker::Model;

// The greatest length of a file.
const MAX_SIZE: u64 = 1 << 40;

// The length of a body stands in so many bytes.
const HEAD: usize = 8;

/// Room for the body of a batch, taken before there is a log.
#[derive(Drop)]
pub struct Buffer {
    /// Room for a length.
    chunk: Vec<u8>,
}

impl Model for Buffer {
    ghost use Rattle.std.specs.Prelude.{◌≡◌, ◌<◌, ◌-◌, ℕ, vec_len, vec_capacity};

    /// How many bytes the body may get without taking memory.
    ghost Value = { ℕ };

    ghost view = { λ buffer. vec_capacity buffer.chunk - vec_len buffer.chunk - 1 };

    ghost invariant = { λ buffer. (vec_len buffer.chunk ≡ 8) × (8 < vec_capacity buffer.chunk) };
}

impl Buffer {
    pub fn new(alloc: Global) -> Result<Buffer, Memory> {
        Ok(Buffer {
            chunk: new_chunk(alloc)?,
        })
    }
}

/// A file whose last gate is closed, and the body of the batch that is to stand after it.
#[derive(Drop)]
pub struct Log<D: Disk> {
    disk: D,
    /// Of the closed gate.
    place: u64,
    /// Room for a length, and then the body.
    chunk: Vec<u8>,
    /// Before the closed gate.
    batches: u64,
}

impl<D: Disk> Model for Log<D> {
    ghost use Rattle.std.specs.Prelude.{◌-◌, drop, vec_len, vec_capacity};
    ghost use Rattle.batch_log.specs.Log.{LogView, IsKept};

    ghost Value = { LogView D };

    ghost view = { λ log. record {
      disk = log.disk;
      place = log.place;
      body = drop 8 log.chunk.items;
      spare = vec_capacity log.chunk - vec_len log.chunk - 1;
      batches = log.batches;
    } };

    ghost invariant = { λ log. IsKept (D.size log.disk) log.place log.batches (vec_len log.chunk)
        (vec_capacity log.chunk) };
}

impl<D: Disk> Log<D> {
    /// A log with nothing to flush, whose closed gate is at this place of the disk, after so many
    /// batches.
    pub fn new(buffer: Buffer, disk: D, place: u64, batches: u64) -> Log<D>
        requires { (place < D.size disk) × (batches ≤ place) }
        ensures disk { result.disk ≡ disk }
        ensures place { result.place ≡ place }
        ensures empty { result.body ≡ [] }
        ensures spare { result.spare ≡ buffer }
        ensures batches { result.batches ≡ batches }
    {
        Log {
            disk,
            place,
            chunk: buffer.chunk,
            batches,
        }
    }

    /// How many batches there are: those from before this log, and those that it has flushed.
    pub fn batches(&self) -> u64
        ensures { result ≡ self.now.batches }
    {
        self.batches
    }

    /// The disk. What waits is dropped.
    pub fn into_disk(self) -> D
        ensures { result ≡ self.disk }
    {
        self.disk
    }

    /// Makes room for so many bytes more.
    pub fn reserve(&mut self, more: usize) -> Result<(), Memory>
        ensures ok { OnOk result (more ≤ self.new.spare) }
        ensures err { OnErr result (self.old.spare < more) }
        ensures spare { self.old.spare ≤ self.new.spare }
        ensures same { self.new ≡ record self.old { spare = self.new.spare } }
    {
        if more < self.chunk.capacity() - self.chunk.len() {
            return Ok(());
        }
        let needed = more.checked_add(1).ok_or(Memory)?;
        self.chunk.reserve(needed)?;
        Ok(())
    }

    /// Adds the bytes of a value to the body, which takes no memory.
    pub fn append<T: Encode>(&mut self, value: &T)
        requires encodable { T.is_encodable value.now }
        requires room { length (T.bytes value.now) ≤ self.old.spare }
        ensures body { self.new.body ≡ self.old.body ++ T.bytes value.now }
        ensures spare { self.old.spare ≤ self.new.spare + length (T.bytes value.now) }
        ensures same { self.new ≡ record self.old { body = self.new.body; spare = self.new.spare } }
        ensures encoded { T.is_encoded value.now }
    {
        value.encode(&mut self.chunk);
    }

    /// Appends the body as one batch, where there is one: after the closed gate, which is opened
    /// once the batch and a closed gate after it are stable. It takes no memory. A stop at any
    /// moment leaves the closed gate, or all of the batch. After a fault the file has to be opened
    /// again.
    pub fn flush(&mut self) -> Result<(), FlushFault>
        requires { IsTrue D.tells
            → IsAtRest self.old.place (D.bytes self.old.disk) (D.images self.old.disk) }

        ensures nothing { self.old.body ≡ [] → (result ≡ Ok tt) × (self.new ≡ self.old) }
        ensures full { (n : ℕ) → (result ≡ Err (FlushFault.Full n)) ↔ ((self.old.body ≢ [])
            × (2 ^ 40 < n) × (n ≡ size_after self.old.place self.old.body)) }
        ensures refused { (n : ℕ) → result ≡ Err (FlushFault.Full n) → self.new ≡ self.old }

        // What is there after it.
        ensures appended { IsTrue D.tells → OnOk result (D.bytes self.new.disk
            ≡ take self.old.place (D.bytes self.old.disk) ++ batches (flush_of self.old.body)
            ++ 0 ∷ []) }
        ensures at_rest { IsTrue D.tells → OnOk result
            (IsAtRest self.new.place (D.bytes self.new.disk) (D.images self.new.disk)) }
        ensures place { OnOk result
            (self.new.place ≡ self.old.place + length (batches (flush_of self.old.body))) }
        ensures emptied { OnOk result (self.new.body ≡ []) }
        ensures counted { OnOk result
            (self.new.batches ≡ self.old.batches + length (flush_of self.old.body)) }

        // What a stop leaves.
        ensures any_moment { IsTrue D.tells
            → LeavesOnly D.moment D.images_at self.old.disk self.new.disk
            (IsShutOrWhole (take self.old.place (D.bytes self.old.disk)) (chunk_of self.old.body)) }

        // What stays where it is refused.
        ensures same_body { OnErr result (self.new.body ≡ self.old.body) }
        ensures same_place { OnErr result (self.new.place ≡ self.old.place) }
        ensures same_batches { OnErr result (self.new.batches ≡ self.old.batches) }
        ensures spare { self.old.spare ≤ self.new.spare }

        // Why it is.
        ensures cause { result ≡ Err FlushFault.Fault
            → Rose (D.faults self.old.disk) (D.faults self.new.disk) }
        ensures no_cause { OnOk result (D.faults self.new.disk ≡ D.faults self.old.disk) }
    {
        let len = (self.chunk.len() - HEAD) as u64;
        if len == 0 {
            return Ok(());
        }
        let size = self.place.saturating_add(10).saturating_add(len);
        if size > MAX_SIZE {
            return Err(FlushFault::Full(size));
        }
        match append_chunk(&mut self.disk, self.place, &mut self.chunk) {
            Ok(()) => {
                self.place += 9 + len;
                self.batches += 1;
                Ok(())
            }
            Err(_) => Err(FlushFault::Fault),
        }
    }
}

// Room for the length of a body, and for a gate after it.
fn new_chunk(alloc: Global) -> Result<Vec<u8>, Memory>
    ensures headed { IfOk result (λ chunk. vec_len chunk ≡ 8) }
    ensures roomy { IfOk result (λ chunk. 8 < vec_capacity chunk) }
{
    let mut chunk = Vec::with_capacity(alloc, HEAD + 1)?;
    chunk.extend_from_slice(&[0; HEAD])?;
    Ok(chunk)
}

// Appends the body of a chunk as one batch, and empties it, or leaves its body.
fn append_chunk<D: Disk>(disk: &mut D, place: u64, chunk: &mut Vec<u8>) -> Result<(), Failed>
    requires within { (place < D.size disk.old) × (place < 2 ^ 41) }
    requires headed { 8 ≤ vec_len chunk.old }
    requires roomy { vec_len chunk.old < vec_capacity chunk.old }
    requires at_rest { IsTrue D.tells → IsAtRest place (D.bytes disk.old) (D.images disk.old) }
    ensures opened { IsTrue D.tells → OnOk result
        (IsStable (take place (D.bytes disk.old) ++ 1 ∷ chunk_of (drop 8 chunk.old.items))
        (D.bytes disk.new) (D.images disk.new)) }
    ensures any_moment { IsTrue D.tells → LeavesOnly D.moment D.images_at disk.old disk.new
        (IsShutOrWhole (take place (D.bytes disk.old)) (chunk_of (drop 8 chunk.old.items))) }
    ensures size { OnOk result (place + 2 + vec_len chunk.old ≤ D.size disk.new) }
    ensures no_shorter { D.size disk.old ≤ D.size disk.new }
    ensures emptied { OnOk result (vec_len chunk.new ≡ 8) }
    ensures same_body { OnErr result (drop 8 chunk.new.items ≡ drop 8 chunk.old.items) }
    ensures same_len { OnErr result (vec_len chunk.new ≡ vec_len chunk.old) }
    ensures capacity { vec_capacity chunk.old ≤ vec_capacity chunk.new }
    ensures faults { CountsFault (D.faults disk.old) (D.faults disk.new) result }
{
    seal(chunk);
    match write_gated(disk, place, chunk) {
        Ok(()) => {
            chunk.truncate(HEAD);
            Ok(())
        }
        Err(failed) => {
            chunk.pop();
            Err(failed)
        }
    }
}

// Fills in the length of the body, and adds the closed gate after it.
fn seal(chunk: &mut Vec<u8>)
    requires headed { 8 ≤ vec_len chunk.old }
    requires roomy { vec_len chunk.old < vec_capacity chunk.old }
    ensures items { chunk.new.items ≡ chunk_of (drop 8 chunk.old.items) }
    ensures len { vec_len chunk.new ≡ vec_len chunk.old + 1 }
    ensures capacity { vec_capacity chunk.old ≤ vec_capacity chunk.new }
{
    let len = (chunk.len() - HEAD) as u64;
    overwrite(chunk.as_mut_slice(), &len.to_le_bytes());
    chunk.push(0).unwrap();
}

// Writes bytes over the first of others.
fn overwrite(bytes: &mut [u8], from: &[u8])
    requires { length from.now ≤ length bytes.old }
    ensures { bytes.new ≡ from.now ++ drop (length from.now) bytes.old }
{
    bytes[..from.len()].copy_from_slice(from);
}
