// The parts that bytes begin with, read and made one at a time.
ghost use Rattle.std.specs.Prelude.{◌≡◌, ◌≢◌, ◌++◌, ◌<◌, ℕ, List, length, IfOk, Err};
ghost use Rattle.kom_journal.specs.Opening.{BeginsUnfit};
ghost use Rattle.kom_journal.specs.Reading.{MakesNext, ComesNext, ComesSome};

use crate::rows::MadeRows;
use effect_codec::{ReadError, has_faulty_range, read};
use kom_types::Memory;
use std::alloc::Global;

/// Why no more of a body is made.
#[derive(Clone, Copy, Debug)]
pub(crate) enum Stop {
    /// The disk failed.
    Fault,
    /// No part that fits comes next.
    Unfit,
    Memory,
}

/// What makes a body from its bytes, part by part.
pub(crate) trait BodyMaker {
    ghost use Rattle.std.specs.Prelude.{ℕ, List};

    /// The parts that the first bytes begin with lead from the one to the other, and the second
    /// bytes are left.
    ghost makes: { Self → Self → List ℕ → List ℕ → Type 0 };

    /// A body of which these bytes are left is none.
    ghost refuses: { Self → List ℕ → Type 0 };

    /// Makes the part that the bytes begin with, and tells how many are its; or nothing, where more
    /// have to come.
    fn make_next(&mut self, alloc: Global, bytes: &[u8]) -> Result<Option<usize>, Stop>
        ensures made { IfOk result (ComesNext makes refuses bytes.now self.old self.new) }
        ensures unfit { result ≡ Err Stop.Unfit → (more : List ℕ)
            → refuses self.old (bytes.now ++ more) }
        ensures no_fault { result ≢ Err Stop.Fault };

    ghost none: { (one : Self) (bytes : List ℕ) → makes one one bytes bytes };

    ghost in_turn: { (one two three : Self) (a b c : List ℕ)
        → makes one two a b → makes two three b c → makes one three a c };

    ghost later: { (one two : Self) (a b : List ℕ) → makes one two a b → refuses two b
        → refuses one a };
}

impl BodyMaker for MadeRows {
    ghost use Rattle.kom_journal.specs.Opening.{IsUnfit};
    ghost use Rattle.kom_journal.specs.Reading.{MakesRows};

    ghost makes = { λ old new bytes rest. MakesRows old.db new.db bytes rest };

    ghost refuses = { λ rows bytes. IsUnfit rows.db bytes };

    ghost none = { λ one bytes. (λ last rest. rest, λ unfit. unfit) };

    ghost in_turn = { λ one two three a b c first second.
        (λ last rest. first.0 last (second.0 last rest), λ unfit. first.1 (second.1 unfit)) };

    ghost later = { λ one two a b first unfit. first.1 unfit };

    fn make_next(&mut self, alloc: Global, bytes: &[u8]) -> Result<Option<usize>, Stop> {
        make_effect(alloc, self, bytes)
    }
}

/// Makes the effect that the bytes begin with, and tells how many are its; or nothing, where more
/// have to come.
pub(crate) fn make_effect(
    alloc: Global,
    rows: &mut MadeRows,
    bytes: &[u8],
) -> Result<Option<usize>, Stop>
    ensures made { IfOk result (MakesNext bytes.now rows.old.db rows.new.db) }
    ensures unfit { result ≡ Err Stop.Unfit → (more : List ℕ)
        → BeginsUnfit rows.old.db (bytes.now ++ more) }
    ensures some { result ≡ Err Stop.Unfit → 0 < length bytes.now }
    ensures no_fault { result ≢ Err Stop.Fault }
{
    // Ranges are refused as they come: a set may declare more than there is memory for.
    if has_faulty_range(bytes) {
        return Err(Stop::Unfit);
    }
    let (effect, len) = match read(alloc, bytes) {
        Ok(Some(found)) => found,
        Ok(None) => return Ok(None),
        Err(ReadError::Wrong) => return Err(Stop::Unfit),
        Err(ReadError::Memory) => return Err(Stop::Memory),
    };
    if !rows.fits(&effect) {
        return Err(Stop::Unfit);
    }
    match rows.reserve_one(&effect) {
        Ok(()) => {}
        Err(Memory) => return Err(Stop::Memory),
    }
    rows.apply_effect(effect);
    Ok(Some(len))
}

/// Makes all whole parts that the bytes begin with, and tells how many bytes are theirs.
pub(crate) fn make_parts<M: BodyMaker>(
    alloc: Global,
    maker: &mut M,
    bytes: &[u8],
) -> Result<usize, Stop>
    ensures made { IfOk result (ComesSome M.makes M.refuses bytes.now maker.old maker.new) }
    ensures unfit { result ≡ Err Stop.Unfit → (more : List ℕ)
        → M.refuses maker.old (bytes.now ++ more) }
    ensures no_fault { result ≢ Err Stop.Fault }
{
    let mut used = 0;
    'parts: loop {
        match maker.make_next(alloc, &bytes[used..])? {
            Some(len) => used += len,
            None => return Ok(used),
        }
    }
}
