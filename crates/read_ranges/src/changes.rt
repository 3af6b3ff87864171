//! Ranges made of those of a set, with numbers more or less, and what is in them.
ghost use Rattle.std.specs.Prelude.{◌≡◌, ◌≢◌, ◌-◌, ◌↔◌, All, IfOk, IsTrue};
ghost use Rattle.read_ranges.specs.Changed as changed;
ghost use Rattle.read_ranges.specs.Changed.{size_of};
ghost use Rattle.read_ranges.specs.ListFault.{IsFaultless};
ghost use Rattle.read_ranges.specs.Numbers.{ranges_of};

use crate::Ranges;
use crate::list::first_fault;
use kom_types::{Memory, ReadRange};
use std::alloc::Global;

/// Ranges, and how many numbers they have more than those that they were made of.
#[derive(Debug, Drop)]
pub struct Marked {
    pub ranges: Vec<ReadRange>,
    pub newly: u32,
}

impl Ranges {
    /// The ranges of the set's numbers and these. The set stays as it is.
    pub fn all_marked(&self, numbers: &[u32]) -> Result<Marked, Memory>
        requires { All (λ n. n ≢ 0) numbers.now }
        ensures ranges { IfOk result (λ marked.
            marked.ranges.items ≡ changed.all_marked numbers.now (ranges_of self.now.numbers)) }
        ensures newly { IfOk result (λ marked.
            marked.newly ≡ size_of marked.ranges.items - size_of (ranges_of self.now.numbers)) }
    {
        let mut read = self.clone()?;
        let mut newly = 0;
        for &number in numbers {
            if !read.holds(number) {
                read.mark(number)?;
                newly += 1;
            }
        }
        Ok(Marked {
            ranges: read.into_list()?,
            newly,
        })
    }

    /// The ranges of the set's numbers but one. The set stays as it is.
    pub fn unmarked(&self, number: u32) -> Result<Vec<ReadRange>, Memory>
        requires { number ≢ 0 }
        ensures { IfOk result (λ list.
            list.items ≡ changed.mark_unread number (ranges_of self.now.numbers)) }
    {
        let mut read = self.clone()?;
        read.unmark(number)?;
        Ok(read.into_list()?)
    }

    /// Whether some number from the first to the last is not in the set.
    pub fn has_unread(&self, first: u32, last: u32) -> bool
        requires { first ≢ 0 }
        ensures { result ≡ changed.has_unread first last (ranges_of self.now.numbers) }
    {
        match self.next_unread(first) {
            Some(number) => number <= last,
            None => false,
        }
    }
}

/// The ranges of the numbers from 1 to the last, which take memory unless it is 0.
pub fn up_to(alloc: Global, last: u32) -> Result<Vec<ReadRange>, Memory>
    ensures { IfOk result (λ list. list.items ≡ changed.up_to last) }
{
    let mut list = Vec::new(alloc);
    if last > 0 {
        list.push(ReadRange { first: 1, last })?;
    }
    Ok(list)
}

/// Whether a list can be made a set: its ranges rise, though they may touch.
pub fn rise(list: &[ReadRange]) -> bool
    ensures rise { result ≡ changed.rise_after 0 list.now }
    ensures faultless { IsTrue result ↔ IsFaultless list.now }
{
    first_fault(list).is_none()
}
