#![tactic(auto, unfolding(crate::specs::Fields::value_at))]

ghost use Rattle.std.specs.Prelude.{◌≡◌, ◌≤◌, ◌*◌, length, drop, slice_index, IfOk};
ghost use Rattle.std.specs.Int.{w16, w32, w64, from_le_bytes, from_be_bytes};
ghost use Rattle.effect_codec.specs.Fields as field;
ghost use Rattle.effect_codec.specs.Fields.{value_at, limited_at, ranges_of};
ghost use Rattle.effect_codec.specs.Giving.{Gives};
ghost use Rattle.effect_codec.specs.Table.{set_part};

use crate::stop::Stop;
use kom_types::limits::LAST_MOMENT;
use kom_types::{Bytes, Memory, Moment, ReadRange, ReadRanges};
use std::alloc::Global;
use std::marker::Model;

/// The bytes that are left.
#[derive(Drop)]
pub(crate) struct Reader<'a> {
    alloc: Global,
    bytes: &'a [u8],
}

impl<'a> Model for Reader<'a> {
    ghost use Rattle.std.specs.Prelude.{List, ℕ};

    ghost Value = { List ℕ };

    ghost view = { λ r. r.bytes.now };
}

impl<'a> Reader<'a> {
    /// All bytes of a slice. What is read of them is allocated there.
    pub(crate) fn of(alloc: Global, bytes: &'a [u8]) -> Reader<'a>
        ensures { result ≡ bytes.now }
    {
        Reader { alloc, bytes }
    }

    /// How many bytes are left.
    pub(crate) fn len(&self) -> usize
        ensures { result ≡ length self.now }
    {
        self.bytes.len()
    }

    pub(crate) fn byte(&mut self) -> Result<u8, Stop>
        ensures { Gives (λ x. x) (value_at field.Byte self.old) result self.new }
    {
        match self.bytes.split_first() {
            Some((byte, rest)) => {
                self.bytes = rest;
                Ok(*byte)
            }
            None => Err(Stop::Short),
        }
    }

    pub(crate) fn flag(&mut self) -> Result<bool, Stop>
        ensures { Gives (λ x. x) (value_at field.Flag self.old) result self.new }
    {
        match self.byte()? {
            0 => Ok(false),
            1 => Ok(true),
            _ => Err(Stop::Wrong),
        }
    }

    pub(crate) fn half(&mut self) -> Result<u16, Stop>
        ensures { Gives (λ x. x) (value_at field.Half self.old) result self.new }
    {
        if self.bytes.len() < 2 {
            return Err(Stop::Short);
        }
        let number = u16::from_be_bytes([byte_of(self.bytes, 0), byte_of(self.bytes, 1)]);
        self.bytes = &self.bytes[2..];
        Ok(number)
    }

    pub(crate) fn number(&mut self) -> Result<u32, Stop>
        ensures { Gives (λ x. x) (value_at field.Number self.old) result self.new }
    {
        if self.bytes.len() < 4 {
            return Err(Stop::Short);
        }
        let number = number_of(self.bytes);
        self.bytes = &self.bytes[4..];
        Ok(number)
    }

    /// A number in four bytes that has a greatest one.
    pub(crate) fn limited_number(&mut self, greatest: u32) -> Result<u32, Stop>
        ensures gives { Gives (λ x. x) (limited_at w32 greatest self.old) result self.new }
        ensures most { IfOk result (λ number. number ≤ greatest) }
    {
        let number = number_of(self.bytes);
        if greatest < number {
            return Err(Stop::Wrong);
        }
        if self.bytes.len() < 4 {
            return Err(Stop::Short);
        }
        self.bytes = &self.bytes[4..];
        Ok(number)
    }

    /// A number in eight bytes that has a greatest one.
    pub(crate) fn limited_amount(&mut self, greatest: u64) -> Result<u64, Stop>
        ensures gives { Gives (λ x. x) (limited_at w64 greatest self.old) result self.new }
        ensures most { IfOk result (λ amount. amount ≤ greatest) }
    {
        let amount = amount_of(self.bytes);
        if greatest < amount {
            return Err(Stop::Wrong);
        }
        if self.bytes.len() < 8 {
            return Err(Stop::Short);
        }
        self.bytes = &self.bytes[8..];
        Ok(amount)
    }

    pub(crate) fn small(&mut self) -> Result<u8, Stop>
        ensures { Gives (λ x. x) (value_at field.Small self.old) result self.new }
    {
        let number = self.limited_number(255)?;
        Ok(number as u8)
    }

    pub(crate) fn moment(&mut self) -> Result<Moment, Stop>
        ensures { Gives (λ x. x) (value_at field.Moment self.old) result self.new }
    {
        let seconds = self.limited_amount(LAST_MOMENT)?;
        Ok(Moment::at_most(seconds))
    }

    /// Bytes of which there are at most so many. Their number is looked at before they are copied.
    pub(crate) fn text(&mut self, most: u32) -> Result<Bytes, Stop>
        ensures { Gives (λ x. x) (value_at (field.Text most) self.old) result self.new }
    {
        let many = self.limited_number(most)? as usize;
        if self.bytes.len() < many {
            return Err(Stop::Short);
        }
        let text = Bytes::copy_of(self.alloc, &self.bytes[..many])?;
        self.bytes = &self.bytes[many..];
        Ok(text)
    }

    pub(crate) fn hash(&mut self) -> Result<[u8; 32], Stop>
        ensures { Gives (λ x. x) (value_at (field.Fixed 32) self.old) result self.new }
    {
        match self.bytes.split_first_chunk::<32>() {
            Some((hash, rest)) => {
                self.bytes = rest;
                Ok(*hash)
            }
            None => Err(Stop::Short),
        }
    }

    /// Ranges. That all of them are there is looked at before memory is taken.
    pub(crate) fn ranges(&mut self) -> Result<ReadRanges, Stop>
        ensures { Gives (λ x. x) (value_at field.Ranges self.old) result self.new }
    {
        let many = self.number()? as usize;
        if self.bytes.len() < 8 * many {
            return Err(Stop::Short);
        }
        let ranges = so_many_ranges(self.alloc, self.bytes, many)?;
        self.bytes = &self.bytes[8 * many..];
        Ok(ranges)
    }

    /// The number of a part, and what it is set to: each part has a greatest value.
    pub(crate) fn setting(&mut self, greatest: &[u64]) -> Result<(u8, u64), Stop>
        ensures gives { Gives (λ x. set_part x.0 x.1) (value_at (field.OneOf greatest.now) self.old)
            result self.new }
        ensures range { IfOk result
            (λ x. field.IsIn (field.OneOf greatest.now) (set_part x.0 x.1)) }
    {
        let part = self.byte()?;
        if part == 0 {
            return Err(Stop::Wrong);
        }
        match greatest.get(part as usize - 1) {
            Some(greatest) => {
                let value = self.limited_amount(*greatest)?;
                Ok((part, value))
            }
            None => Err(Stop::Wrong),
        }
    }
}

pub(crate) fn byte_of(bytes: &[u8], place: usize) -> u8
    ensures { result ≡ slice_index bytes.now place }
{
    if place < bytes.len() { bytes[place] } else { 0 }
}

pub(crate) fn number_of(bytes: &[u8]) -> u32
    ensures { result ≡ from_le_bytes w32 bytes.now }
{
    u32::from_le_bytes([
        byte_of(bytes, 0),
        byte_of(bytes, 1),
        byte_of(bytes, 2),
        byte_of(bytes, 3),
    ])
}

pub(crate) fn amount_of(bytes: &[u8]) -> u64
    ensures { result ≡ from_le_bytes w64 bytes.now }
{
    u64::from_le_bytes([
        byte_of(bytes, 0),
        byte_of(bytes, 1),
        byte_of(bytes, 2),
        byte_of(bytes, 3),
        byte_of(bytes, 4),
        byte_of(bytes, 5),
        byte_of(bytes, 6),
        byte_of(bytes, 7),
    ])
}

fn so_many_ranges(alloc: Global, bytes: &[u8], many: usize) -> Result<ReadRanges, Memory>
    requires { 8 * many ≤ length bytes.now }
    ensures { IfOk result (λ ranges. ranges ≡ ranges_of many bytes.now) }
{
    let mut ranges = Vec::with_capacity(alloc, many)?;
    for place in 0..many {
        let rest = rest_of(bytes, 8 * place);
        let after = rest_of(rest, 4);
        let first = number_of(rest);
        let last = number_of(after);
        ranges.push(ReadRange { first, last })?;
    }
    Ok(ReadRanges::of(ranges))
}

pub(crate) fn rest_of(bytes: &[u8], place: usize) -> &[u8]
    requires { place ≤ length bytes.now }
    ensures { result.now ≡ drop place bytes.now }
{
    &bytes[place..]
}
