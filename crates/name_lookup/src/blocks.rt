ghost use Rattle.std.specs.Prelude.{◌≡◌, ◌<◌, ◌≤◌, [], true, false, length, insert, slice_index};
ghost use Rattle.std.specs.Prelude.{OnOk};
ghost use Rattle.std.specs.List.{remove};
ghost use Rattle.std.specs.List.Sorted.{IsPartitionedBy, IsPartitionPoint};
ghost use Rattle.name_lookup.specs.Blocks.{StandsAt};
ghost use Rattle.name_lookup.specs.Order.{is_below};

use crate::changing::{LIMIT, put, take};
use crate::order::By;
use crate::spots::{ahead_of, first_in};
use indexmap::IndexMap;
use kom_types::{Bytes, Memory};
use std::alloc::Global;
use std::marker::Model;

/// A list of numbers, in blocks of bounded length: a change in the midst of it moves few of them.
#[derive(Drop)]
pub(crate) struct Blocks {
    blocks: Vec<Vec<u32>>,
    /// The next block, for which memory was taken before.
    next: Option<Vec<u32>>,
    len: usize,
}

impl Model for Blocks {
    ghost use Rattle.std.specs.Prelude.{◌-◌, min, vec_len, vec_capacity, is_some, if◌then◌else◌};
    ghost use Rattle.name_lookup.specs.Blocks.{Listed, numbers_in, IsKept};

    ghost Value = { Listed };

    ghost view = { λ s. record {
      numbers = numbers_in s.blocks.items;
      spare = min (if is_some s.next then 1 else 0)
          (min (vec_capacity s.blocks - vec_len s.blocks) (4294967295 - s.len));
    } };

    ghost invariant = { λ s. IsKept s.blocks.items s.next s.len };
}

impl Blocks {
    pub(crate) fn new(alloc: Global) -> Blocks
        ensures { result.numbers ≡ [] }
    {
        Blocks {
            blocks: Vec::new(alloc),
            next: None,
            len: 0,
        }
    }

    pub(crate) fn alloc(&self) -> Global {
        *self.blocks.allocator()
    }

    pub(crate) fn len(&self) -> usize
        ensures { result ≡ length self.now.numbers }
    {
        self.len
    }

    /// Some numbers from a place on, one at least.
    pub(crate) fn ahead_of(&self, place: usize) -> &[u32]
        requires { place < length self.now.numbers }
        ensures { StandsAt result.now place self.now.numbers }
    {
        ahead_of(self.blocks.as_slice(), place)
    }

    /// The number at a place.
    pub(crate) fn get(&self, place: usize) -> u32
        requires { place < length self.now.numbers }
        ensures { result ≡ slice_index self.now.numbers place }
    {
        self.ahead_of(place)[0]
    }

    /// The first place whose number has a name that does not come before what is asked for.
    pub(crate) fn first_at(&self, kept: &IndexMap<u32, Bytes>, asked: &[u8], by: By) -> usize
        requires { IsPartitionedBy (is_below kept.now.entries by asked.now) self.now.numbers }
        ensures bound { result ≤ length self.now.numbers }
        ensures first { IsPartitionPoint
            (λ number. is_below kept.now.entries by asked.now number ≡ true)
            (λ number. is_below kept.now.entries by asked.now number ≡ false)
            self.now.numbers result }
    {
        first_in(self.blocks.as_slice(), kept, asked, by)
    }

    /// Makes room for one more number. There is none for more than 4294967295.
    pub(crate) fn reserve(&mut self) -> Result<(), Memory>
        ensures numbers { self.new.numbers ≡ self.old.numbers }
        ensures spare { self.old.spare ≤ self.new.spare }
        ensures ok { OnOk result (0 < self.new.spare) }
    {
        if self.len >= u32::MAX as usize {
            return Err(Memory);
        }
        self.blocks.reserve(1)?;
        if self.next.is_none() {
            self.next = Some(Vec::with_capacity(self.alloc(), LIMIT)?);
        }
        Ok(())
    }

    /// Puts a number at a place. Takes no memory.
    pub(crate) fn insert(&mut self, place: usize, number: u32)
        requires room { 0 < self.old.spare }
        requires within { place ≤ length self.old.numbers }
        ensures { self.new.numbers ≡ insert self.old.numbers place number }
    {
        let next = self.next.take().unwrap();
        self.next = put(&mut self.blocks, next, place, number);
        self.len += 1;
    }

    /// Takes the number out that is at a place.
    pub(crate) fn remove(&mut self, place: usize)
        requires { place < length self.old.numbers }
        ensures numbers { self.new.numbers ≡ remove self.old.numbers place }
        ensures spare { self.old.spare ≤ self.new.spare }
    {
        take(&mut self.blocks, place);
        self.len -= 1;
    }
}
