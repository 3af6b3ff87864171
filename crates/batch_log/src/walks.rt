// Reading a file of batches: over its gates and lengths alone, and a body by blocks.
ghost use Rattle.std.specs.Prelude.{◌≡◌, ◌<◌, ◌≤◌, ◌+◌, ◌-◌, ◌++◌, ℕ, List, [], ◌∷◌, take, drop};
ghost use Rattle.std.specs.Prelude.{length, min, IsTrue, IfOk, OnErr};
ghost use Rattle.std.specs.Int.{w64, from_le_bytes};
ghost use Rattle.kom_disk.specs.Faults.{CountsFault};
ghost use Rattle.kom_disk.specs.Moments.{LeavesOnly};
ghost use Rattle.batch_log.specs.Batches.{AreBytes};
ghost use Rattle.batch_log.specs.Walk.{Stays, Stands, FitsIn, found_by, IsWalked};

use kom_disk::{Disk, Failed};

/// What stands at a gate.
#[derive(Clone, Copy, Debug, PartialEq, Eq)]
pub enum Found {
    /// A batch whose body has this length, and a gate after it.
    Batch(u64),
    /// A gate that is not open.
    End(u8),
    /// An open gate before bytes that are no batch with a gate after it.
    Broken,
}

/// Where the batches of a file end.
#[derive(Clone, Copy, Debug, PartialEq, Eq)]
pub struct Walked {
    /// Of the gate after the last batch.
    pub place: u64,
    pub batches: u64,
    /// That gate, or none where it is open and no batch stands after it.
    pub gate: Option<u8>,
}

/// What stands at the gate at this place of a file of this length. It reads the gate and the length
/// after it.
pub fn look<D: Disk>(disk: &mut D, place: u64, len: u64) -> Result<Found, Failed>
    requires { (place < len) × (len ≤ D.size disk.old) }
    ensures found { IsTrue D.tells → len ≡ length (D.bytes disk.old)
        → IfOk result (Stands (drop place (D.bytes disk.old))) }
    ensures within { IfOk result (FitsIn (len - place)) }
    ensures told { IsTrue D.tells_reads → IfOk result (λ found. (gate : ℕ) × (size : List ℕ)
        × (D.reads disk.new ≡ D.reads disk.old ++ (place, gate ∷ size) ∷ [])
        × (found ≡ found_by gate (from_le_bytes w64 size) (len - place))) }
    ensures untold { IsTrue D.tells_reads → OnErr result (D.reads disk.new ≡ D.reads disk.old) }
    ensures size { D.size disk.new ≡ D.size disk.old }
    ensures bytes { IsTrue D.tells → D.bytes disk.new ≡ D.bytes disk.old }
    ensures stop { IsTrue D.tells → LeavesOnly D.moment D.images_at disk.old disk.new
        (Stays (D.images disk.old)) }
    ensures faults { CountsFault (D.faults disk.old) (D.faults disk.new) result }
{
    let left = len - place;
    if left < 9 {
        let mut gate = [0; 1];
        disk.read(place, &mut gate)?;
        return Ok(found_at(gate[0], 0, left));
    }
    let mut head = [0; 9];
    disk.read(place, &mut head)?;
    Ok(found_at(head[0], size_in(&head), left))
}

// What a gate and the length after it say, with so many bytes from the gate on.
fn found_at(gate: u8, size: u64, left: u64) -> Found
    ensures found { result ≡ found_by gate size left }
    ensures within { FitsIn left result }
{
    if gate != 1 {
        Found::End(gate)
    } else if left.saturating_sub(9) <= size {
        Found::Broken
    } else {
        Found::Batch(size)
    }
}

// The length after a gate.
fn size_in(head: &[u8]) -> u64
    requires { length head.now ≡ 9 }
    ensures size { result ≡ from_le_bytes w64 (drop 1 head.now) }
    ensures bytes { AreBytes head.now }
{
    u64::from_le_bytes([
        head[1], head[2], head[3], head[4], head[5], head[6], head[7], head[8],
    ])
}

/// Walks from the gate at this place of a file of this length to the end of the batches, or to
/// where it breaks off.
pub fn walk<D: Disk>(disk: &mut D, place: u64, len: u64) -> Result<Walked, Failed>
    requires { (place < len) × (len ≤ D.size disk.old) }
    ensures walked { IsTrue D.tells → len ≡ length (D.bytes disk.old)
        → IfOk result (λ walked. IsWalked (take place (D.bytes disk.old)) (D.bytes disk.old)
        walked.place walked.batches walked.gate) }
    ensures within { IfOk result (λ walked. walked.place < len) }
    ensures counted { IfOk result (λ walked. walked.batches ≤ walked.place) }
    ensures size { D.size disk.new ≡ D.size disk.old }
    ensures bytes { IsTrue D.tells → D.bytes disk.new ≡ D.bytes disk.old }
    ensures stop { IsTrue D.tells → LeavesOnly D.moment D.images_at disk.old disk.new
        (Stays (D.images disk.old)) }
    ensures faults { CountsFault (D.faults disk.old) (D.faults disk.new) result }
{
    let mut at = place;
    let mut batches = 0;
    'gates: loop {
        let found = look(disk, at, len)?;
        match found {
            Found::Batch(size) => {
                at += 9 + size;
                batches += 1;
            }
            Found::End(gate) => {
                return Ok(Walked {
                    place: at,
                    batches,
                    gate: Some(gate),
                });
            }
            Found::Broken => {
                return Ok(Walked {
                    place: at,
                    batches,
                    gate: None,
                });
            }
        }
    }
}

/// Fills the first part of `into` with the next bytes of a body that ends at this place, and tells
/// how many bytes those are: none at its end alone, where `into` is not empty. After an error
/// `into` may hold anything.
pub fn read_block<D: Disk>(
    disk: &mut D,
    at: u64,
    end: u64,
    into: &mut [u8],
) -> Result<usize, Failed>
    requires { (at ≤ end) × (end ≤ D.size disk.old) }
    ensures count { IfOk result (λ n. n ≡ min (length into.old) (end - at)) }
    ensures given { IsTrue D.tells
        → IfOk result (λ n. into.new ≡ take n (drop at (D.bytes disk.old)) ++ drop n into.old) }
    ensures size { D.size disk.new ≡ D.size disk.old }
    ensures bytes { IsTrue D.tells → D.bytes disk.new ≡ D.bytes disk.old }
    ensures stop { IsTrue D.tells → LeavesOnly D.moment D.images_at disk.old disk.new
        (Stays (D.images disk.old)) }
    ensures told { IsTrue D.tells_reads → IfOk result
        (λ n. D.reads disk.new ≡ D.reads disk.old ++ (at, take n into.new) ∷ []) }
    ensures untold { IsTrue D.tells_reads → OnErr result (D.reads disk.new ≡ D.reads disk.old) }
    ensures faults { CountsFault (D.faults disk.old) (D.faults disk.new) result }
{
    let count = into.len().min((end - at) as usize);
    disk.read(at, &mut into[..count])?;
    Ok(count)
}
