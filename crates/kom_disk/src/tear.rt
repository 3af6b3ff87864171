// What a stop leaves of a write or of a cut.
ghost use Rattle.std.specs.Prelude.{◌≡◌, ◌<◌, ◌≤◌, ◌+◌, ◌^◌, length, take, drop, max, OnOk, IfOk};
ghost use Rattle.kom_disk.specs.Disk.{overwritten, IsTorn, IsShortened};
ghost use Rattle.kom_disk.specs.declared.tear.Tear.TheVariants.{Nothing, Whole};

use crate::memory_disk::overwrite;
use std::alloc::{AllocError, Global};

/// What is left of a write. Of a cut `First` cuts off so many bytes, `Whole` all of them, and any
/// other kind but `Nothing` half of them.
#[derive(Clone, Copy)]
pub enum Tear {
    /// None of it.
    Nothing,
    /// All of it.
    Whole,
    /// So many of its first bytes, and the file no longer than these reach.
    First(usize),
    /// Its bytes from this place on.
    Last(usize),
    /// The one byte at this place, and the file no longer than it reaches.
    One(usize),
    /// Other bytes than were written.
    Others,
    /// Other bytes than were written, and the file no longer than before.
    OthersWithin,
    /// No byte of it, but the file as long as it asked for.
    LengthAlone,
    /// Other bytes before this place, and its own from there on.
    OthersFirst(usize),
}

impl Tear {
    /// The kind of this number, from 0 on and again from 8 on, for n bytes that are written or cut
    /// off.
    pub fn of(number: u64, n: usize) -> Tear
        ensures nothing { number ≡ 0 → result ≡ Nothing }
        ensures whole { number ≡ 1 → result ≡ Whole }
    {
        match number % 8 {
            0 => Tear::Nothing,
            1 => Tear::Whole,
            2 => Tear::First(n / 2),
            3 => Tear::Last(n / 2),
            4 => Tear::Others,
            5 => Tear::OthersWithin,
            6 => Tear::LengthAlone,
            _ => Tear::OthersFirst(n / 2),
        }
    }

    // The byte at one place of the range, where this one was and that one was written.
    fn byte(self, place: usize, was: u8, written: u8) -> u8
        ensures { self ≡ Nothing → result ≡ was }
    {
        match self {
            Tear::Nothing | Tear::LengthAlone => was,
            Tear::Whole => written,
            Tear::First(count) => if place < count { written } else { was },
            Tear::Last(from) => if place < from { was } else { written },
            Tear::One(at) => if place == at { written } else { was },
            Tear::Others | Tear::OthersWithin => !written,
            Tear::OthersFirst(from) => if place < from { !written } else { written },
        }
    }

    // The length of a file of `len` bytes after a write of n bytes at `at`.
    fn reach(self, len: usize, at: usize, n: usize) -> usize
        requires { at + n < 2 ^ 64 }
        ensures no_shorter { len ≤ result }
        ensures no_longer { result ≤ max len (at + n) }
        ensures nothing { self ≡ Nothing → result ≡ len }
    {
        match self {
            Tear::Nothing | Tear::OthersWithin => len,
            Tear::First(count) => len.max(at + n.min(count)),
            Tear::One(place) => len.max(at + n.min(place.saturating_add(1))),
            _ => len.max(at + n),
        }
    }
}

// Writes into the bytes from `at` to `end`, where the first of them in `from` were to stand.
fn mix(tear: Tear, bytes: &mut [u8], at: usize, end: usize, from: &[u8])
    requires start { at ≤ end }
    requires end { end ≤ length bytes.old }
    requires enough { end ≤ at + length from.now }
    ensures prefix { take at bytes.new ≡ take at bytes.old }
    ensures suffix { drop end bytes.new ≡ drop end bytes.old }
    ensures nothing { tear ≡ Nothing → bytes.new ≡ bytes.old }
{
    for i in at..end {
        bytes[i] = tear.byte(i - at, bytes[i], from[i - at]);
    }
}

/// Leaves a torn write in `bytes`. One that begins past their end leaves nothing.
#[tactic(auto, using(crate::proofs::Torn::torn_whole))]
pub fn tear_write(tear: Tear, bytes: &mut Vec<u8>, at: usize, from: &[u8]) -> Result<(), AllocError>
    ensures torn { OnOk result (IsTorn at (length from.now) bytes.old.items bytes.new.items) }
    ensures nothing { tear ≡ Nothing → OnOk result (bytes.new.items ≡ bytes.old.items) }
    ensures whole { at ≤ length bytes.old.items → tear ≡ Whole
        → OnOk result (bytes.new.items ≡ overwritten bytes.old.items at from.now) }
{
    let end = at.checked_add(from.len()).ok_or(AllocError)?;
    if at > bytes.len() {
        return Ok(());
    }
    if let Tear::Whole = tear {
        bytes.reserve(from.len())?;
        overwrite(bytes, at, from);
        return Ok(());
    }
    let reach = tear.reach(bytes.len(), at, from.len());
    bytes.resize(reach, 0)?;
    mix(tear, bytes, at, reach.min(end), from);
    Ok(())
}

/// What a torn write leaves in its range, as far as the file then reaches.
pub fn torn_range(
    alloc: Global,
    tear: Tear,
    bytes: &[u8],
    at: usize,
    from: &[u8],
) -> Result<Vec<u8>, AllocError>
    ensures { IfOk result (λ left. length left.items ≤ length from.now) }
{
    let mut left = bytes.to_vec(alloc)?;
    tear_write(tear, &mut left, at, from)?;
    let there = left.get(at..).unwrap_or(&[]);
    there[..there.len().min(from.len())].to_vec(alloc)
}

/// Leaves a torn cut in `bytes`.
pub fn tear_cut(tear: Tear, bytes: &mut Vec<u8>, len: usize)
    ensures torn { IsShortened len bytes.old.items bytes.new.items }
    ensures nothing { tear ≡ Nothing → bytes.new.items ≡ bytes.old.items }
    ensures whole { tear ≡ Whole → bytes.new.items ≡ take len bytes.old.items }
{
    if len >= bytes.len() {
        return;
    }
    match tear {
        Tear::Nothing => {}
        Tear::Whole => bytes.truncate(len),
        Tear::First(count) => bytes.truncate(len.max(bytes.len().saturating_sub(count))),
        _ => bytes.truncate(len + (bytes.len() - len) / 2),
    }
}
