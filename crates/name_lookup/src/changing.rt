ghost use Rattle.std.specs.Prelude.{◌≡◌, ◌+◌, ◌<◌, ◌≤◌, [], length, insert, All};
ghost use Rattle.std.specs.Prelude.{IfSome, vec_len, vec_capacity};
ghost use Rattle.std.specs.List.{remove};
ghost use Rattle.name_lookup.specs.Blocks.{numbers_in, place_at, IsWithin, IsUpTo};
ghost use Rattle.name_lookup.specs.Blocks.{IsBlock, IsFresh};
ghost use Rattle.name_lookup.specs.Changes.{Holds};

use crate::spots::{Spot, spot_before, spot_of};

/// A block that comes to so many numbers is cut into two halves.
pub(crate) const LIMIT: usize = 512;

const HALF: usize = 256;

/// What became of the next block when a number was put into another one.
#[derive(Drop)]
pub(crate) enum Room {
    /// It is left, without a number.
    Left(Vec<u32>),
    /// It has the upper half of the other one's numbers.
    Cut(Vec<u32>),
}

/// Puts a number at a place. The next block is returned unless it was needed. Takes no memory.
pub(crate) fn put(
    blocks: &mut Vec<Vec<u32>>,
    next: Vec<u32>,
    place: usize,
    number: u32,
) -> Option<Vec<u32>>
    requires blocks { All IsBlock blocks.old.items }
    requires next { IsFresh next }
    requires room { vec_len blocks.old < vec_capacity blocks.old }
    requires within { place ≤ length (numbers_in blocks.old.items) }
    ensures numbers { numbers_in blocks.new.items
        ≡ insert (numbers_in blocks.old.items) place number }
    ensures blocks { All IsBlock blocks.new.items }
    ensures next { IfSome result IsFresh }
{
    if blocks.is_empty() {
        begin(blocks, next, number);
        return None;
    }
    let spot = spot_before(blocks.as_slice(), place);
    put_at(blocks, next, spot, number)
}

/// Puts the first number.
fn begin(blocks: &mut Vec<Vec<u32>>, mut next: Vec<u32>, number: u32)
    requires none { blocks.old.items ≡ [] }
    requires next { IsFresh next }
    requires room { vec_len blocks.old < vec_capacity blocks.old }
    ensures numbers { numbers_in blocks.new.items ≡ insert [] 0 number }
    ensures blocks { All IsBlock blocks.new.items }
{
    next.push(number).unwrap();
    blocks.push(next).unwrap();
}

/// Puts a number at a spot.
fn put_at(blocks: &mut Vec<Vec<u32>>, next: Vec<u32>, spot: Spot, number: u32) -> Option<Vec<u32>>
    requires blocks { All IsBlock blocks.old.items }
    requires next { IsFresh next }
    requires room { vec_len blocks.old < vec_capacity blocks.old }
    requires within { IsUpTo blocks.old.items spot }
    ensures numbers { numbers_in blocks.new.items
        ≡ insert (numbers_in blocks.old.items) (place_at blocks.old.items spot) number }
    ensures blocks { All IsBlock blocks.new.items }
    ensures next { IfSome result IsFresh }
{
    let numbers = &mut blocks[spot.block];
    match put_into(numbers, next, spot.offset, number) {
        Room::Left(next) => Some(next),
        Room::Cut(upper) => {
            blocks.insert(spot.block + 1, upper).unwrap();
            None
        }
    }
}

/// Puts a number into a block, of which the next one takes a half if it is full then.
fn put_into(numbers: &mut Vec<u32>, next: Vec<u32>, offset: usize, number: u32) -> Room
    requires block { IsBlock numbers.old }
    requires next { IsFresh next }
    requires within { offset ≤ length numbers.old.items }
    ensures { Holds result numbers.new (insert numbers.old.items offset number) }
{
    numbers.insert(offset, number).unwrap();
    if numbers.len() < LIMIT {
        Room::Left(next)
    } else {
        Room::Cut(cut(numbers, next))
    }
}

/// Takes the upper half of a full block into the next one, which is returned.
fn cut(numbers: &mut Vec<u32>, mut upper: Vec<u32>) -> Vec<u32>
    requires full { length numbers.old.items ≡ 512 }
    requires room { 512 ≤ vec_capacity numbers.old }
    requires fresh { IsFresh upper }
    ensures { Holds (Room.Cut result) numbers.new numbers.old.items }
{
    upper.extend_from_slice(&numbers[HALF..]).unwrap();
    numbers.truncate(HALF);
    upper
}

/// Takes the number out that is at a place.
pub(crate) fn take(blocks: &mut Vec<Vec<u32>>, place: usize)
    requires blocks { All IsBlock blocks.old.items }
    requires within { place < length (numbers_in blocks.old.items) }
    ensures numbers { numbers_in blocks.new.items ≡ remove (numbers_in blocks.old.items) place }
    ensures blocks { All IsBlock blocks.new.items }
    ensures len { vec_len blocks.new ≤ vec_len blocks.old }
    ensures capacity { vec_capacity blocks.new ≡ vec_capacity blocks.old }
{
    let spot = spot_of(blocks.as_slice(), place);
    take_at(blocks, spot);
}

/// Takes the number at a spot out, and its block if that was its only one.
fn take_at(blocks: &mut Vec<Vec<u32>>, spot: Spot)
    requires blocks { All IsBlock blocks.old.items }
    requires within { IsWithin blocks.old.items spot }
    ensures numbers { numbers_in blocks.new.items
        ≡ remove (numbers_in blocks.old.items) (place_at blocks.old.items spot) }
    ensures blocks { All IsBlock blocks.new.items }
    ensures len { vec_len blocks.new ≤ vec_len blocks.old }
    ensures capacity { vec_capacity blocks.new ≡ vec_capacity blocks.old }
{
    let numbers = &mut blocks[spot.block];
    numbers.remove(spot.offset);
    if !numbers.is_empty() {
        return;
    }
    drop(blocks.remove(spot.block));
}
