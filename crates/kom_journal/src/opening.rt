// Opening a store again.
ghost use Rattle.std.specs.Prelude.{◌≡◌, ◌<◌, ◌≤◌, ◌+◌, ◌-◌, take, drop, length};
ghost use Rattle.std.specs.Prelude.{vec_len};
ghost use Rattle.std.specs.Prelude.{IsTrue, IfOk, IfErr, OnOk, Ok, Err, MatchOption};
ghost use Rattle.kom_disk.specs.Faults.{Rose};
ghost use Rattle.kom_disk.specs.Moments.{LeavesOnly};
ghost use Rattle.batch_log.specs.Walk.{Stays};
ghost use Rattle.kom_model.specs.Db.{Db, empty_db};
ghost use Rattle.kom_journal.specs.Files.{header, IsStoreFrom, AreStoresOf, AreSoundFiles};
ghost use Rattle.kom_journal.specs.Journals.{IsStored};
ghost use Rattle.kom_journal.specs.Opening.{IsCauseInFile, IsForeignAt};
ghost use Rattle.kom_journal.specs.Opened.{IsMadeOf, IsLeftOfFile, Opens, CountsBatches};
ghost use Rattle.kom_journal.specs.Batch.{IsNext, IsNoNext, EndsBefore, IsWithin};

use crate::bodies::{make_body, new_buffer};
use crate::errors::OpenFault;
use crate::making::Stop;
use crate::rows::MadeRows;
use batch_log::{Found, look, read_block, repair};
use kom_disk::Disk;
use std::alloc::Global;

const HEADER: [u8; 16] = *b"KOMSTORE\x01\0\0\0\0\0\0\0";

/// Where the batches of a store end.
#[derive(Clone, Copy, Debug)]
pub(crate) struct End {
    /// Of the gate after the last batch.
    pub place: u64,
    pub gate: u8,
    pub batches: u64,
    /// Of the file.
    pub len: u64,
}

/// Compares the header of a file of this length.
pub(crate) fn check_header<D: Disk>(disk: &mut D, len: u64) -> Result<(), OpenFault>
    requires { len ≡ D.size disk.old }
    ensures ok { IsTrue D.tells → OnOk result (take 16 (D.bytes disk.old) ≡ header) }
    ensures long { OnOk result (17 ≤ len) }
    ensures cause { IsTrue D.tells → IfErr result (IsCauseInFile (D.bytes disk.old)) }
    ensures size { D.size disk.new ≡ D.size disk.old }
    ensures bytes { IsTrue D.tells → D.bytes disk.new ≡ D.bytes disk.old }
    ensures stop { IsTrue D.tells → LeavesOnly D.moment D.images_at disk.old disk.new
        (Stays (D.images disk.old)) }
    ensures fault { result ≡ Err OpenFault.Fault → Rose (D.faults disk.old) (D.faults disk.new) }
    ensures no_fault { OnOk result (D.faults disk.new ≡ D.faults disk.old) }
{
    let mut head = [0; 16];
    let held = match read_block(disk, 0, len, &mut head) {
        Ok(held) => held,
        Err(_) => return Err(OpenFault::Fault),
    };
    match first_other(&head[..held]) {
        Some((place, byte)) => Err(OpenFault::Foreign(place, byte)),
        None if len < 17 => Err(OpenFault::Short(len)),
        None => Ok(()),
    }
}

// The first place at which bytes are not those of the header, and the byte there.
fn first_other(head: &[u8]) -> Option<(u64, u8)>
    requires { length head.now ≤ 16 }
    ensures { MatchOption result (head.now ≡ take (length head.now) header)
        (λ found. IsForeignAt found.0 found.1 head.now) }
{
    for (place, byte) in head.iter().enumerate() {
        if *byte != HEADER[place] {
            return Some((place as u64, *byte));
        }
    }
    None
}

/// Makes the rows of a store of this length, whose header is that of a store, from its batches.
pub(crate) fn make_rows<D: Disk>(
    alloc: Global,
    disk: &mut D,
    len: u64,
) -> Result<(MadeRows, End), OpenFault>
    requires header { IsTrue D.tells → take 16 (D.bytes disk.old) ≡ header }
    requires long { (17 ≤ len) × (len ≡ D.size disk.old) }
    ensures made { IsTrue D.tells → IfOk result (λ made. IsMadeOf header empty_db made.1.place
        made.1.gate made.1.batches made.0.db (D.bytes disk.old)) }
    ensures within { IfOk result (λ made. IsWithin len made.1) }
    ensures cause { IsTrue D.tells → IfErr result (IsCauseInFile (D.bytes disk.old)) }
    ensures size { D.size disk.new ≡ D.size disk.old }
    ensures bytes { IsTrue D.tells → D.bytes disk.new ≡ D.bytes disk.old }
    ensures stop { IsTrue D.tells → LeavesOnly D.moment D.images_at disk.old disk.new
        (Stays (D.images disk.old)) }
    ensures fault { result ≡ Err OpenFault.Fault → Rose (D.faults disk.old) (D.faults disk.new) }
    ensures no_fault { IfOk result (λ made. D.faults disk.new ≡ D.faults disk.old) }
{
    let mut rows = MadeRows::empty(alloc);
    let mut buffer = new_buffer(alloc)?;
    let mut at = 16;
    let mut batches = 0;
    'gates: loop {
        match make_batch(alloc, disk, &mut rows, &mut buffer, at, len)? {
            Next::Batch(size) => {
                at += 9 + size;
                batches += 1;
            }
            Next::End(gate) => {
                let end = End {
                    place: at,
                    gate,
                    batches,
                    len,
                };
                return Ok((rows, end));
            }
        }
    }
}

/// What stands at a gate.
#[derive(Clone, Copy, Debug)]
pub(crate) enum Next {
    /// A batch whose body has this length.
    Batch(u64),
    /// A gate that is not open.
    End(u8),
}

// Makes the effects of the batch at this gate, if one is there.
fn make_batch<D: Disk>(
    alloc: Global,
    disk: &mut D,
    rows: &mut MadeRows,
    buffer: &mut Vec<u8>,
    at: u64,
    len: u64,
) -> Result<Next, OpenFault>
    requires within { (at < len) × (len ≡ D.size disk.old) }
    requires room { 0 < vec_len buffer.old }
    ensures next { IsTrue D.tells
        → IfOk result (IsNext (drop at (D.bytes disk.old)) rows.old.db rows.new.db) }
    ensures within { IfOk result (EndsBefore at len) }
    ensures none { IsTrue D.tells
        → IfErr result (IsNoNext at (drop at (D.bytes disk.old)) rows.old.db) }
    ensures room { 0 < vec_len buffer.new }
    ensures size { D.size disk.new ≡ D.size disk.old }
    ensures bytes { IsTrue D.tells → D.bytes disk.new ≡ D.bytes disk.old }
    ensures stop { IsTrue D.tells → LeavesOnly D.moment D.images_at disk.old disk.new
        (Stays (D.images disk.old)) }
    ensures fault { result ≡ Err OpenFault.Fault → Rose (D.faults disk.old) (D.faults disk.new) }
    ensures no_fault { IfOk result (λ next. D.faults disk.new ≡ D.faults disk.old) }
{
    let found = match look(disk, at, len) {
        Ok(found) => found,
        Err(_) => return Err(OpenFault::Fault),
    };
    let size = match found {
        Found::Batch(size) => size,
        Found::End(gate) => return Ok(Next::End(gate)),
        Found::Broken => return Err(OpenFault::Damaged(at)),
    };
    match make_body(alloc, disk, rows, buffer, at + 9, at + (9 + size)) {
        Ok(()) => Ok(Next::Batch(size)),
        Err(Stop::Fault) => Err(OpenFault::Fault),
        Err(Stop::Unfit) => Err(OpenFault::Damaged(at)),
        Err(Stop::Memory) => Err(OpenFault::Memory),
    }
}

// The rows of a stable store, and where it ends.
fn read_store<D: Disk>(alloc: Global, disk: &mut D) -> Result<(MadeRows, End), OpenFault>
    ensures made { IsTrue D.tells → IfOk result (λ made. IsMadeOf header empty_db made.1.place
        made.1.gate made.1.batches made.0.db (D.bytes disk.old)) }
    ensures within { IfOk result (λ made. IsWithin (D.size disk.new) made.1) }
    ensures cause { IsTrue D.tells → IfErr result (IsCauseInFile (D.bytes disk.old)) }
    ensures bytes { IsTrue D.tells → D.bytes disk.new ≡ D.bytes disk.old }
    ensures stop { IsTrue D.tells → LeavesOnly D.moment D.images_at disk.old disk.new
        (Stays (D.images disk.old)) }
    ensures fault { result ≡ Err OpenFault.Fault → Rose (D.faults disk.old) (D.faults disk.new) }
    ensures no_fault { IfOk result (λ made. D.faults disk.new ≡ D.faults disk.old) }
{
    let len = match disk.len() {
        Ok(len) => len,
        Err(_) => return Err(OpenFault::Fault),
    };
    check_header(disk, len)?;
    make_rows(alloc, disk, len)
}

/// Opens the store on a disk: makes it stable, makes its rows, and repairs its end.
pub(crate) fn open_rows<D: Disk>(alloc: Global, disk: &mut D) -> Result<(MadeRows, End), OpenFault>
    ensures stands { IsTrue D.tells
        → IfOk result (λ opened. IsStoreFrom header empty_db opened.0.db (D.bytes disk.old)) }
    ensures rows { IsTrue D.tells
        → IfOk result (λ opened. AreStoresOf header empty_db (D.images disk.new) opened.0.db) }
    ensures stored { IsTrue D.tells
        → IfOk result (λ opened. IsStored header opened.1.place (D.bytes disk.new)
        (D.images disk.new)) }
    ensures counts { IsTrue D.tells
        → IfOk result (λ opened. CountsBatches header opened.1.batches (D.bytes disk.old)) }
    ensures within { IfOk result (λ opened.
        (opened.1.place < D.size disk.new) × (opened.1.batches ≤ opened.1.place)) }
    ensures cause { IsTrue D.tells → IfErr result (IsCauseInFile (D.bytes disk.old)) }
    ensures any_moment { IsTrue D.tells → (db : Db)
        → IsStoreFrom header empty_db db (D.bytes disk.old)
        → AreSoundFiles header empty_db (D.images disk.old)
        → Opens D.moment D.images_at disk.old disk.new (D.images disk.old)
        (IsLeftOfFile header empty_db (D.bytes disk.old) db) }
    ensures kept { IsTrue D.tells → AreSoundFiles header empty_db (D.images disk.old)
        → AreSoundFiles header empty_db (D.images disk.new) }
    ensures fault { result ≡ Err OpenFault.Fault → Rose (D.faults disk.old) (D.faults disk.new) }
    ensures no_fault { IfOk result (λ opened. D.faults disk.new ≡ D.faults disk.old) }
{
    match disk.sync() {
        Ok(()) => {}
        Err(_) => return Err(OpenFault::Fault),
    }
    let (rows, end) = read_store(alloc, disk)?;
    match repair(disk, end.place, end.gate, end.len) {
        Ok(()) => Ok((rows, end)),
        Err(_) => Err(OpenFault::Fault),
    }
}
