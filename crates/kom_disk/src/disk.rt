// What a disk is.
ghost use Rattle.std.specs.Prelude.{◌≡◌, ◌≤◌, ◌↔◌, ◌+◌, [], ◌∷◌, ◌++◌, ℕ, Bool, IsTrue, List};
ghost use Rattle.std.specs.Prelude.{length, take, drop, min, max, IfOk, OnOk, OnErr};
ghost use Rattle.kom_disk.specs.Disk.{overwritten, IsTorn, IsShortened, ComesBy, AddsNone, Only};
ghost use Rattle.kom_disk.specs.Disk.{Passes};
ghost use Rattle.kom_disk.specs.Faults.{CountsFault};

use crate::Failed;

/// Bytes that are read and written in place. After a stop, at any moment, some image of them is
/// left. Between two syncs a stop may tear each write and each cut; after a sync that succeeds it
/// leaves what a read gives.
pub trait Disk {
    /// Whether the clauses on content hold. A disk in memory tells its content, a file does not.
    ghost tells: { Bool };

    /// The bytes that reads give.
    ghost bytes: { Self → List ℕ };

    /// How many bytes the disk counts, whether or not it tells them. One that tells nothing counts
    /// them anew in `len`.
    ghost size: { Self → ℕ };

    /// What a stop at this moment may leave.
    ghost images: { Self → List ℕ → Type 0 };

    /// The moment now on the disk's clock.
    ghost moment: { Self → ℕ };

    /// What a stop at a moment up to now could have left.
    ghost images_at: { Self → ℕ → List ℕ → Type 0 };

    /// Whether the clauses on reads hold. A disk may tell these while its content changes beside
    /// it.
    ghost tells_reads: { Bool };

    /// What its reads have given, each with its place, the first of them first.
    ghost reads: { Self → List (ℕ × List ℕ) };

    /// How many calls have failed. The count stands still at the end of its type.
    ghost faults: { Self → ℕ };

    fn faults(&self) -> u64
        ensures { result ≡ faults self.now };

    fn len(&mut self) -> Result<u64, Failed>
        ensures counted { IfOk result (λ n. n ≡ size self.new) }
        ensures size_left { OnErr result (size self.new ≡ size self.old) }
        ensures bytes { IsTrue tells → bytes self.new ≡ bytes self.old }
        ensures stop { IsTrue tells → AddsNone (images self.old) (images self.new) }
        ensures time { Passes tells (moment self.old) (moment self.new) (images_at self.old)
            (images_at self.new) }
        ensures reads { IsTrue tells_reads → reads self.new ≡ reads self.old }
        ensures faults { CountsFault (faults self.old) (faults self.new) result };

    /// Fills `into` with the bytes from `at` on. After an error it may hold anything.
    fn read(&mut self, at: u64, into: &mut [u8]) -> Result<(), Failed>
        requires { at + length into.old ≤ size self.old }
        ensures given { IsTrue tells
            → OnOk result (into.new ≡ take (length into.old) (drop at (bytes self.old))) }
        ensures size { size self.new ≡ size self.old }
        ensures bytes { IsTrue tells → bytes self.new ≡ bytes self.old }
        ensures stop { IsTrue tells → AddsNone (images self.old) (images self.new) }
        ensures time { Passes tells (moment self.old) (moment self.new) (images_at self.old)
            (images_at self.new) }
        ensures told { IsTrue tells_reads
            → OnOk result (reads self.new ≡ reads self.old ++ (at, into.new) ∷ []) }
        ensures untold { IsTrue tells_reads → OnErr result (reads self.new ≡ reads self.old) }
        ensures faults { CountsFault (faults self.old) (faults self.new) result };

    /// Writes over what is there, and past the end. A call that fails may have written a part of
    /// it.
    fn write_at(&mut self, at: u64, from: &[u8]) -> Result<(), Failed>
        requires { at ≤ size self.old }
        ensures written { IsTrue tells
            → OnOk result (bytes self.new ≡ overwritten (bytes self.old) at from.now) }
        ensures left { IsTrue tells
            → OnErr result (IsTorn at (length from.now) (bytes self.old) (bytes self.new)) }
        ensures size { OnOk result (size self.new ≡ max (size self.old) (at + length from.now)) }
        ensures size_left { OnErr result
            ((size self.old ≤ size self.new)
            × (size self.new ≤ max (size self.old) (at + length from.now))) }
        ensures stop { IsTrue tells
            → ComesBy (IsTorn at (length from.now)) (images self.old) (images self.new) }
        ensures time { Passes tells (moment self.old) (moment self.new) (images_at self.old)
            (images_at self.new) }
        ensures reads { IsTrue tells_reads → reads self.new ≡ reads self.old }
        ensures faults { CountsFault (faults self.old) (faults self.new) result };

    /// Keeps the first `len` bytes, and all where there are no more. A call that fails may have cut
    /// off fewer.
    fn cut(&mut self, len: u64) -> Result<(), Failed>
        ensures cut { IsTrue tells → OnOk result (bytes self.new ≡ take len (bytes self.old)) }
        ensures left { IsTrue tells
            → OnErr result (IsShortened len (bytes self.old) (bytes self.new)) }
        ensures size { OnOk result (size self.new ≡ min len (size self.old)) }
        ensures size_left { OnErr result
            ((min len (size self.old) ≤ size self.new) × (size self.new ≤ size self.old)) }
        ensures stop { IsTrue tells → ComesBy (IsShortened len) (images self.old) (images self.new) }
        ensures time { Passes tells (moment self.old) (moment self.new) (images_at self.old)
            (images_at self.new) }
        ensures reads { IsTrue tells_reads → reads self.new ≡ reads self.old }
        ensures faults { CountsFault (faults self.old) (faults self.new) result };

    /// Makes the bytes and their length outlast a stop. After a call that fails each image is one
    /// from before it.
    fn sync(&mut self) -> Result<(), Failed>
        ensures durable { IsTrue tells → OnOk result (Only (bytes self.new) (images self.new)) }
        ensures size { size self.new ≡ size self.old }
        ensures bytes { IsTrue tells → bytes self.new ≡ bytes self.old }
        ensures stop { IsTrue tells → AddsNone (images self.old) (images self.new) }
        ensures time { Passes tells (moment self.old) (moment self.new) (images_at self.old)
            (images_at self.new) }
        ensures reads { IsTrue tells_reads → reads self.new ≡ reads self.old }
        ensures faults { CountsFault (faults self.old) (faults self.new) result };

    /// The bytes that are told are as many as are counted.
    ghost counts_bytes: { (disk : Self) → IsTrue tells → size disk ≡ length (bytes disk) };

    /// As it reads it may be left by a stop.
    ghost reads_as_image: { (disk : Self) → IsTrue tells → images disk (bytes disk) };

    /// The last moment of the clock is now.
    ghost images_now: { (disk : Self) (image : List ℕ) → IsTrue tells
        → (images_at disk (moment disk) image ↔ images disk image) };
}
