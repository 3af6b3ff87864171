ghost use Rattle.std.specs.Prelude.{◌≡◌, ◌+◌, ◌<◌, ◌≤◌, ◌^◌, true, false, length, All};
ghost use Rattle.std.specs.List.Sorted.{IsPartitionedBy, IsPartitionPoint};
ghost use Rattle.name_lookup.specs.Blocks.{numbers_in, numbers_at, place_at, IsWithin, IsUpTo};
ghost use Rattle.name_lookup.specs.Blocks.{IsBlock, StandsAt};
ghost use Rattle.name_lookup.specs.Order.{is_below, ends_below};

use crate::order::{By, is_below};
use indexmap::IndexMap;
use kom_types::Bytes;

/// A block, and how many of its numbers come before.
#[derive(Clone, Copy)]
pub(crate) struct Spot {
    pub(crate) block: usize,
    pub(crate) offset: usize,
}

/// The spot of a place.
pub(crate) fn spot_of(blocks: &[Vec<u32>], place: usize) -> Spot
    requires { place < length (numbers_in blocks.now) }
    ensures within { IsWithin blocks.now result }
    ensures place { place_at blocks.now result ≡ place }
{
    let mut offset = place;
    for (block, numbers) in blocks.iter().enumerate() {
        if offset < numbers.len() {
            return Spot { block, offset };
        }
        offset -= numbers.len();
    }
    unreachable!()
}

/// Where a number goes that is put at a place: right after the one before it.
pub(crate) fn spot_before(blocks: &[Vec<u32>], place: usize) -> Spot
    requires some { 0 < length blocks.now }
    requires within { place ≤ length (numbers_in blocks.now) }
    ensures within { IsUpTo blocks.now result }
    ensures place { place_at blocks.now result ≡ place }
{
    if place == 0 {
        return Spot {
            block: 0,
            offset: 0,
        };
    }
    let spot = spot_of(blocks, place - 1);
    Spot {
        block: spot.block,
        offset: spot.offset + 1,
    }
}

/// The numbers of a place's block from that place on.
pub(crate) fn ahead_of(blocks: &[Vec<u32>], place: usize) -> &[u32]
    requires { place < length (numbers_in blocks.now) }
    ensures { StandsAt result.now place (numbers_in blocks.now) }
{
    let spot = spot_of(blocks, place);
    &numbers_of(blocks, spot.block)[spot.offset..]
}

/// The numbers of a block.
fn numbers_of(blocks: &[Vec<u32>], block: usize) -> &[u32]
    requires { block < length blocks.now }
    ensures numbers { result.now ≡ numbers_at block blocks.now }
    ensures len { length result.now ≡ length (numbers_at block blocks.now) }
{
    blocks[block].as_slice()
}

/// How many numbers blocks have.
fn count_in(blocks: &[Vec<u32>]) -> usize
    requires { length (numbers_in blocks.now) < 2 ^ 64 }
    ensures { result ≡ length (numbers_in blocks.now) }
{
    let mut count = 0;
    for numbers in blocks {
        count += numbers.len();
    }
    count
}

/// The first place whose number has a name that does not come before what is asked for.
pub(crate) fn first_in(
    blocks: &[Vec<u32>],
    kept: &IndexMap<u32, Bytes>,
    asked: &[u8],
    by: By,
) -> usize
    requires parted { IsPartitionedBy (is_below kept.now.entries by asked.now)
        (numbers_in blocks.now) }
    requires blocks { All IsBlock blocks.now }
    requires fits { length (numbers_in blocks.now) < 2 ^ 64 }
    ensures bound { result ≤ length (numbers_in blocks.now) }
    ensures first { IsPartitionPoint
        (λ number. is_below kept.now.entries by asked.now number ≡ true)
        (λ number. is_below kept.now.entries by asked.now number ≡ false)
        (numbers_in blocks.now) result }
{
    let block = blocks.partition_point(|numbers| ends_below(kept, numbers.as_slice(), asked, by));
    let start = count_in(&blocks[..block]);
    if block == blocks.len() {
        return start;
    }
    start + first_among(numbers_of(blocks, block), kept, asked, by)
}

/// The first place of a block whose number has a name that does not come before what is asked for.
fn first_among(numbers: &[u32], kept: &IndexMap<u32, Bytes>, asked: &[u8], by: By) -> usize
    requires { IsPartitionedBy (is_below kept.now.entries by asked.now) numbers.now }
    ensures bound { result ≤ length numbers.now }
    ensures first { IsPartitionPoint
        (λ number. is_below kept.now.entries by asked.now number ≡ true)
        (λ number. is_below kept.now.entries by asked.now number ≡ false) numbers.now result }
{
    numbers.partition_point(|number| is_below(kept, *number, asked, by))
}

/// Whether the name of the last of some numbers comes before what is asked for.
fn ends_below(kept: &IndexMap<u32, Bytes>, numbers: &[u32], asked: &[u8], by: By) -> bool
    ensures { result ≡ ends_below kept.now.entries by asked.now numbers.now }
{
    match numbers.last() {
        Some(number) => is_below(kept, *number, asked, by),
        None => true,
    }
}
