// The effects that wait, and their flush.
ghost use Rattle.std.specs.Prelude.{◌≡◌, ◌≢◌, ◌<◌, ◌≤◌, ◌+◌, ◌^◌, ◌↔◌, ◌⊎◌, ◌++◌, ℕ, [], ◌∷◌};
ghost use Rattle.std.specs.Prelude.{true, false, length, IsTrue, OnOk, OnErr, IfOk, IfErr, Ok, Err};
ghost use Rattle.std.specs.Prelude.{MatchResult};
ghost use Rattle.kom_disk.specs.Faults.{CountsFault, Rose};
ghost use Rattle.kom_disk.specs.Moments.{LeavesOnly};
ghost use Rattle.batch_log.specs.Gates.{IsStable};
ghost use Rattle.batch_log.specs.Batches.{batches};
ghost use Rattle.batch_log.specs.Log.{flush_of, size_after};
ghost use Rattle.effect_codec.specs.Coding.{coded_effect, IsShortEnough};
ghost use Rattle.kom_model.specs.Db.{Db, empty_db};
ghost use Rattle.kom_model.specs.Effects.{apply_all, all_fit, IsProtected};
ghost use Rattle.kom_model.specs.Whole.{IsWhole};
ghost use Rattle.kom_snapshot.specs.Listed.{IsListed};
ghost use Rattle.kom_journal.specs.Files.{header, body_of};
ghost use Rattle.kom_journal.specs.Images.{StandsFor, AreFor, IsKept, IsForEither, IsCause};
ghost use Rattle.kom_journal.specs.Images.{HasCount, IsLeftOf, as_read, images, images_at, moment};
ghost use Rattle.kom_journal.specs.Journals.{EndsAtGate};
ghost use Rattle.kom_journal.specs.Opened.{Opens};
ghost use Rattle.kom_journal.specs.Opening.{IsMakeFault};

use crate::coded::{Coded, total_len};
use crate::errors::OpenFault;
use crate::opening::open_rows;
use batch_log::{Buffer, FlushFault, Log};
use kom_disk::{Disk, Failed};
use kom_state::StoredRows;
use kom_types::{Effect, Memory};
use std::alloc::Global;
use std::marker::Model;

// The header of a store, and a closed gate.
const EMPTY_STORE: [u8; 17] = *b"KOMSTORE\x01\0\0\0\0\0\0\0\0";

// The place of the first gate.
const FIRST_GATE: u64 = 16;

/// A store on a disk, and the effects that wait to be flushed to it as one batch.
#[derive(Drop)]
pub struct Journal<D: Disk> {
    log: Log<D>,
    /// A flush has failed.
    refused: bool,
    /// Of the store as it was opened.
    batches: u64,
}

impl<D: Disk> Model for Journal<D> {
    ghost use Rattle.kom_journal.specs.Journals.{JournalView, IsKeptWhole};
    ghost use Rattle.kom_journal.specs.Pending.{effects_in};

    ghost Value = { JournalView D };

    ghost view = { λ journal. record {
      disk = journal.log.disk;
      pending = effects_in journal.log.body;
      spare = journal.log.spare;
      refused = journal.refused;
      batches = journal.batches;
      place = journal.log.place;
    } };

    ghost invariant = { λ journal. IsKeptWhole D.tells journal.refused journal.log.place
        journal.log.body (D.bytes journal.log.disk) (D.images journal.log.disk) };
}

impl<D: Disk> Journal<D> {
    /// Makes a store without a batch on an empty disk.
    pub fn make(alloc: Global, mut disk: D) -> Result<Journal<D>, (D, OpenFault)>
        ensures pending { IfOk result (λ journal. journal.pending ≡ []) }
        ensures refused { IfOk result (λ journal. journal.refused ≡ false) }
        ensures batches { IfOk result (λ journal. journal.batches ≡ 0) }
        ensures place { IfOk result (λ journal. journal.place ≡ 16) }
        ensures rows { IsTrue D.tells
            → IfOk result (λ journal. AreFor (images D.images journal.disk) empty_db) }
        ensures kept { IsTrue D.tells →
            IfOk result (λ journal. IsKept (images D.images journal.disk)) }
        ensures new { IsTrue D.tells → IfOk result (λ journal. D.size disk ≡ 0) }

        // Why it is not made.
        ensures used { IsTrue D.tells → (n : ℕ) → IfErr result (λ refused.
            refused.1 ≡ OpenFault.Used n → (n ≢ 0) × (n ≡ D.size disk)) }
        ensures kinds { IfErr result (λ refused. IsMakeFault refused.1) }
        ensures out_of_memory { IfErr result (λ refused.
            refused.1 ≡ OpenFault.Memory → refused.0 ≡ disk) }
        ensures cause { IfErr result (λ refused. refused.1 ≡ OpenFault.Fault
            → Rose (D.faults disk) (D.faults refused.0)) }
        ensures no_cause { IfOk result (λ journal. D.faults journal.disk ≡ D.faults disk) }
    {
        let buffer = match Buffer::new(alloc) {
            Ok(buffer) => buffer,
            Err(_) => return Err((disk, OpenFault::Memory)),
        };
        match write_header(&mut disk) {
            Ok(()) => Ok(Journal {
                log: Log::new(buffer, disk, FIRST_GATE, 0),
                refused: false,
                batches: 0,
            }),
            Err(fault) => Err((disk, fault)),
        }
    }

    /// Opens the store on a disk, with the rows that it stands for. It first makes the store
    /// stable, reads it block by block, and closes and cuts off what stands after its last batch.
    /// Memory grows with its rows, and with the longest of its effects, and not with its length.
    pub fn open(alloc: Global, mut disk: D) -> Result<(Journal<D>, StoredRows), (D, OpenFault)>
        ensures stands { IsTrue D.tells
            → IfOk result (λ opened. StandsFor opened.1.db (as_read D.bytes disk)) }
        ensures rows { IsTrue D.tells
            → IfOk result (λ opened. AreFor (images D.images opened.0.disk) opened.1.db) }
        ensures pending { IfOk result (λ opened. opened.0.pending ≡ []) }
        ensures refused { IfOk result (λ opened. opened.0.refused ≡ false) }
        ensures batches { IsTrue D.tells
            → IfOk result (λ opened. HasCount opened.0.batches (as_read D.bytes disk)) }
        ensures protected { IfOk result (λ opened. IsProtected opened.1.db) }
        ensures whole { IfOk result (λ opened. IsWhole opened.1.db) }
        ensures listed { IfOk result (λ opened. IsListed opened.1.db) }

        // Why it is not opened.
        ensures cause { IsTrue D.tells
            → IfErr result (λ refused. IsCause (as_read D.bytes disk) refused.1) }
        ensures fault { IfErr result (λ refused. refused.1 ≡ OpenFault.Fault
            → Rose (D.faults disk) (D.faults refused.0)) }
        ensures no_fault { IfOk result (λ opened. D.faults opened.0.disk ≡ D.faults disk) }
        ensures undamaged { IsTrue D.tells → IsKept (images D.images disk) → (place : ℕ)
            → IfErr result (λ refused. refused.1 ≢ OpenFault.Damaged place) }

        // What a stop leaves.
        ensures any_moment { IsTrue D.tells → (db : Db) → StandsFor db (as_read D.bytes disk)
            → IsKept (images D.images disk)
            → MatchResult result
            (λ opened. Opens (moment D.moment) (images_at D.images_at) disk opened.0.disk
            (images D.images disk) (IsLeftOf (as_read D.bytes disk) db))
            (λ refused. Opens (moment D.moment) (images_at D.images_at) disk refused.0
            (images D.images disk) (IsLeftOf (as_read D.bytes disk) db)) }
        ensures kept { IsTrue D.tells → IsKept (images D.images disk) → MatchResult result
            (λ opened. IsKept (images D.images opened.0.disk))
            (λ refused. IsKept (images D.images refused.0)) }
    {
        let (rows, end) = match open_rows(alloc, &mut disk) {
            Ok(opened) => opened,
            Err(fault) => return Err((disk, fault)),
        };
        match Buffer::new(alloc) {
            Ok(buffer) => Ok((
                Journal {
                    log: Log::new(buffer, disk, end.place, end.batches),
                    refused: false,
                    batches: end.batches,
                },
                rows.into_stored(),
            )),
            Err(_) => Err((disk, OpenFault::Memory)),
        }
    }

    /// How many batches the store had when it was opened.
    pub fn batches(&self) -> u64
        ensures { result ≡ self.now.batches }
    {
        self.batches
    }

    /// The disk. What waits is dropped.
    pub fn into_disk(self) -> D
        ensures disk { result ≡ self.disk }
        ensures size { IsTrue D.tells → EndsAtGate D.size self }
    {
        self.log.into_disk()
    }

    /// Takes room for the bytes of effects.
    pub fn reserve_bytes(&mut self, effects: &[Effect]) -> Result<(), Memory>
        ensures room { OnOk result (length (body_of effects.now) ≤ self.new.spare) }
        ensures spare { self.old.spare ≤ self.new.spare }
        ensures same { self.new ≡ record self.old { spare = self.new.spare } }
    {
        let total = total_len(effects).ok_or(Memory)?;
        match self.log.reserve(total as usize) {
            Ok(()) => Ok(()),
            Err(_) => Err(Memory),
        }
    }

    /// Adds an effect after those that wait. It takes no memory.
    pub fn add(&mut self, effect: &Effect)
        requires lengths { IsShortEnough effect.now }
        requires room { length (coded_effect effect.now) ≤ self.old.spare }
        ensures pending { self.new.pending ≡ self.old.pending ++ effect.now ∷ [] }
        ensures spare { self.old.spare ≤ self.new.spare + length (coded_effect effect.now) }
        ensures same { self.new
            ≡ record self.old { pending = self.new.pending; spare = self.new.spare } }
    {
        self.log.append(&Coded(effect));
    }

    /// Appends what waits to the store as one batch, and makes it stable: with nothing waiting it
    /// makes no call of the disk. It takes no memory. Once a flush has failed so does each later
    /// one, and the store has to be opened again.
    pub fn flush(&mut self) -> Result<(), FlushFault>
        ensures nothing { self.old.pending ≡ [] → self.new.disk ≡ self.old.disk }
        ensures full { (n : ℕ) → (result ≡ Err (FlushFault.Full n)) ↔ ((self.old.refused ≡ false)
            × (self.old.pending ≢ []) × (2 ^ 40 < n)
            × (n ≡ size_after self.old.place (body_of self.old.pending))) }
        ensures left { (n : ℕ) → result ≡ Err (FlushFault.Full n) → self.new ≡ self.old }

        // What the store stands for after it.
        ensures rows { IsTrue D.tells → (db : Db) → AreFor (images D.images self.old.disk) db
            → all_fit self.old.pending db ≡ true
            → OnOk result (AreFor (images D.images self.new.disk) (apply_all self.old.pending db)) }
        ensures emptied { OnOk result (self.new.pending ≡ []) }

        // What a stop leaves.
        ensures any_moment { IsTrue D.tells → (db : Db) → AreFor (images D.images self.old.disk) db
            → all_fit self.old.pending db ≡ true
            → LeavesOnly (moment D.moment) (images_at D.images_at) self.old.disk self.new.disk
            (IsForEither db (apply_all self.old.pending db)) }
        ensures kept { IsTrue D.tells → (db : Db) → AreFor (images D.images self.old.disk) db
            → all_fit self.old.pending db ≡ true → IsKept (images D.images self.old.disk)
            → IsKept (images D.images self.new.disk) }

        // What stays.
        ensures same_pending { OnErr result (self.new.pending ≡ self.old.pending) }
        ensures spare { self.old.spare ≤ self.new.spare }
        ensures batches { self.new.batches ≡ self.old.batches }
        ensures place { OnOk result (self.new.place
            ≡ self.old.place + length (batches (flush_of (body_of self.old.pending)))) }
        ensures same_place { OnErr result (self.new.place ≡ self.old.place) }

        // Why it is refused.
        ensures refused { (self.new.refused ≡ true)
            ↔ ((self.old.refused ≡ true) ⊎ (result ≡ Err FlushFault.Fault)) }
        ensures later { self.old.refused ≡ true → result ≡ Err FlushFault.Fault }
        ensures cause { result ≡ Err FlushFault.Fault → (self.old.refused ≡ true)
            ⊎ Rose (D.faults self.old.disk) (D.faults self.new.disk) }
        ensures no_cause { OnOk result (D.faults self.new.disk ≡ D.faults self.old.disk) }
    {
        if self.refused {
            return Err(FlushFault::Fault);
        }
        match self.log.flush() {
            Ok(()) => Ok(()),
            Err(FlushFault::Fault) => {
                self.refused = true;
                Err(FlushFault::Fault)
            }
            Err(FlushFault::Full(len)) => Err(FlushFault::Full(len)),
        }
    }
}

// Writes the header and a closed gate to an empty disk, and makes them stable.
fn write_header<D: Disk>(disk: &mut D) -> Result<(), OpenFault>
    ensures written { IsTrue D.tells → OnOk result
        (IsStable (header ++ 0 ∷ []) (D.bytes disk.new) (D.images disk.new)) }
    ensures size { OnOk result (D.size disk.new ≡ 17) }
    ensures new { IsTrue D.tells → OnOk result (D.size disk.old ≡ 0) }
    ensures used { IsTrue D.tells → (n : ℕ) → result ≡ Err (OpenFault.Used n)
        → (n ≢ 0) × (n ≡ D.size disk.old) }
    ensures kinds { IfErr result IsMakeFault }
    ensures no_memory { result ≢ Err OpenFault.Memory }
    ensures cause { result ≡ Err OpenFault.Fault → Rose (D.faults disk.old) (D.faults disk.new) }
    ensures no_cause { OnOk result (D.faults disk.new ≡ D.faults disk.old) }
{
    let len = match disk.len() {
        Ok(len) => len,
        Err(_) => return Err(OpenFault::Fault),
    };
    if len != 0 {
        return Err(OpenFault::Used(len));
    }
    match write_first(disk) {
        Ok(()) => Ok(()),
        Err(_) => Err(OpenFault::Fault),
    }
}

fn write_first<D: Disk>(disk: &mut D) -> Result<(), Failed>
    requires { D.size disk.old ≡ 0 }
    ensures written { IsTrue D.tells → OnOk result
        (IsStable (header ++ 0 ∷ []) (D.bytes disk.new) (D.images disk.new)) }
    ensures size { OnOk result (D.size disk.new ≡ 17) }
    ensures faults { CountsFault (D.faults disk.old) (D.faults disk.new) result }
{
    disk.write_at(0, &EMPTY_STORE)?;
    disk.sync()
}
