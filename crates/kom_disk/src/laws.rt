// What follows for every disk from its meanings, for arguments over many calls.
ghost use Rattle.std.specs.Prelude.{◌≡◌, ◌≤◌, ◌+◌, ℕ, List, IsTrue, length, take, drop, max};
ghost use Rattle.kom_disk.specs.Disk.{overwritten, IsTorn, IsShortened, AddsNone, Passes};
ghost use Rattle.kom_disk.specs.Moments.{HasInside, LeftSince, LeavesOnly};

use crate::Disk;
use std::marker::Brand;

/// A fact about what a stop leaves at a moment. A caller of a law picks it where it passes `Brand`,
/// and it may speak of the value that the law is about.
pub trait Fact {
    ghost holds: { ℕ → List ℕ → Type 0 };
}

impl Fact for Brand {
    ghost holds = { λ _ _. Unit {0} };
}

/// What a stop may leave now is left at some moment since any earlier one, and since now nothing
/// else is.
pub fn images_since<D: Disk>()
    ensures counts_now { IsTrue D.tells → (disk : D) (first : ℕ) (image : List ℕ)
        → first ≤ D.moment disk
        → D.images disk image → LeftSince D.moment D.images_at disk first image }
    ensures only_now { IsTrue D.tells → (disk : D) (image : List ℕ)
        → LeftSince D.moment D.images_at disk (D.moment disk) image → D.images disk image }
{}

/// How a fact about what a stop leaves is followed over calls: before the first, over one more, and
/// over two stretches in turn.
pub fn calls_in_turn<D: Disk, T, P: Fact>(about: &T)
    ensures begins { IsTrue D.tells → (disk : D)
        → ((image : List ℕ) → D.images disk image → P.holds (D.moment disk) image)
        → LeavesOnly D.moment D.images_at disk disk P.holds }
    ensures goes_on { IsTrue D.tells → (old mid new : D)
        → LeavesOnly D.moment D.images_at old mid P.holds
        → Passes D.tells (D.moment mid) (D.moment new) (D.images_at mid) (D.images_at new)
        → HasInside (D.moment mid) (D.moment new) (D.images mid) (D.images new) P.holds
        → LeavesOnly D.moment D.images_at old new P.holds }
    ensures in_turn { (old mid new : D) → LeavesOnly D.moment D.images_at old mid P.holds
        → LeavesOnly D.moment D.images_at mid new P.holds
        → LeavesOnly D.moment D.images_at old new P.holds }
{}

/// Two calls in turn pass as one does, where the first adds no image.
pub fn passes_in_turn<D: Disk>()
    ensures { (old mid new : D)
        → Passes D.tells (D.moment old) (D.moment mid) (D.images_at old) (D.images_at mid)
        → Passes D.tells (D.moment mid) (D.moment new) (D.images_at mid) (D.images_at new)
        → (IsTrue D.tells → AddsNone (D.images old) (D.images mid))
        → Passes D.tells (D.moment old) (D.moment new) (D.images_at old) (D.images_at new) }
{}

/// A stretch that leaves only what has one fact leaves only what has a wider one.
pub fn wider_fact<D: Disk, T, P: Fact, Q: Fact>(about: &T)
    ensures { (old new : D) → LeavesOnly D.moment D.images_at old new P.holds
        → ((at : ℕ) (image : List ℕ) → D.moment old ≤ at → at ≤ D.moment new → P.holds at image
        → Q.holds at image)
        → LeavesOnly D.moment D.images_at old new Q.holds }
{}

/// What a call leaves that succeeds: it is one of what a stop may leave of it, and in the range of
/// a write stands what was written.
pub fn whole_calls()
    ensures write { (bytes from : List ℕ) (at : ℕ) → at ≤ length bytes
        → IsTorn at (length from) bytes (overwritten bytes at from) }
    ensures written { (bytes from : List ℕ) (at : ℕ) → at ≤ length bytes
        → take (length from) (drop at (overwritten bytes at from)) ≡ from }
    ensures longer { (bytes from : List ℕ) (at : ℕ) → at ≤ length bytes
        → length (overwritten bytes at from) ≡ max (length bytes) (at + length from) }
    ensures cut { (bytes : List ℕ) (n : ℕ) → IsShortened n bytes (take n bytes) }
{}
