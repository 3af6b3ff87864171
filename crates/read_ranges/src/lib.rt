//! Exact sets of the numbers that a member has read, kept as ranges.
//!
//! A set has numbers from 1 to 4294967295. It is kept as its ranges in rising order, none of which
//! meets or touches another. A set of one range, as 1 to n, needs no memory.
#![tactic(auto)]

ghost use Rattle.std.specs.Prelude.{◌≡◌, ◌≢◌, ◌≤◌, ◌<◌, ◌↔◌, ℕ, List, [], length};
ghost use Rattle.std.specs.Prelude.{OnOk, OnErr, IfOk, IfErr, IsErrOf, IsNone, IfSome};
ghost use Rattle.std.specs.Ordering.{nat_cmp};
ghost use Rattle.std.specs.FinSet as set;
ghost use Rattle.kom_types.specs.declared.memberships.ReadRange.{ReadRange};
ghost use Rattle.read_ranges.specs.Numbers.{AreRanges, AreRangesOf, union_of, ranges_of};
ghost use Rattle.read_ranges.specs.Numbers.{count_of, made_by, IsWithinBounds};
ghost use Rattle.read_ranges.specs.Numbers.{IsNextUnread, IsReadFrom};
ghost use Rattle.read_ranges.specs.ListFault.{IsFaultless, IsErrExactlyAt};
ghost use Rattle.read_ranges.specs.ListFault.{IsFirstInvalid, IsFirstOutOfOrder};
ghost use Rattle.read_ranges.specs.Merged.{merge_all};

mod changes;
mod edit;
mod kept;
pub mod list;
mod search;

pub use changes::{Marked, rise, up_to};
use kept::Kept;
use kom_types::{Memory, ReadRange};
use std::alloc::{AllocError, AllocFailed, Global};
use std::marker::Model;

/// Why a list of ranges is refused. The set stays as it was.
#[derive(Clone, Copy, Debug, PartialEq, Eq)]
pub enum RangeFault {
    /// The range at this place begins with 0 or after its end.
    Invalid(usize),
    /// The range at this place begins at or before the end of the one before.
    Order(usize),
    /// There was no memory.
    Memory,
}

impl From<Memory> for RangeFault {
    ghost use Rattle.read_ranges.specs.declared.RangeFault.TheVariants as faults;

    ghost from_gives = { λ _ fault. fault ≡ faults.Memory };

    fn from(_error: Memory) -> RangeFault {
        RangeFault::Memory
    }
}

/// A set of numbers from 1 to 4294967295, which contracts see as such a set, with the number of
/// ranges that there is room for in all.
#[derive(Debug, Drop)]
pub struct Ranges {
    kept: Kept,
}

impl Model for Ranges {
    ghost use Rattle.read_ranges.specs.Numbers.{ReadSet, read_set_code, AreRanges, union_of};

    ghost Value = { ReadSet };

    ghost coded = { read_set_code };

    ghost view = { λ a. record { numbers = union_of a.kept.items; spare = a.kept.spare } };

    ghost invariant = { λ a. AreRanges a.kept.items };
}

impl Clone for Ranges {
    ghost is_clone = { λ read copy. copy.numbers ≡ read.numbers };

    // No memory is wanted for the copy of a set of one range.
    ghost is_infallible = { λ read. count_of read.numbers ≤ 1 };

    fn clone(&self) -> Result<Ranges, AllocError> {
        Ok(Ranges {
            kept: self.kept.clone()?,
        })
    }
}

impl Ranges {
    /// The empty set. It takes no memory, and has room for one range.
    pub fn new(alloc: Global) -> Ranges
        ensures empty { result.numbers ≡ set.empty }
        ensures none { ranges_of result.numbers ≡ [] }
        ensures spare { 1 ≤ result.spare }
    {
        Ranges {
            kept: Kept::new(alloc),
        }
    }

    /// The set of the numbers of a list, whose memory becomes the set's own. The ranges may touch.
    pub fn from_list(list: Vec<ReadRange>) -> Ranges
        requires { IsFaultless list.items }
        ensures numbers { result.numbers ≡ union_of list.items }
        ensures ranges { ranges_of result.numbers ≡ merge_all list.items }
        ensures spare { length list.items ≤ result.spare }
    {
        Ranges {
            kept: Kept::of_list(list),
        }
    }

    /// The ranges of the set as a list, which has the set's memory.
    pub fn into_list(self) -> Result<Vec<ReadRange>, AllocFailed<Ranges>>
        ensures ok { IfOk result (λ list. list.items ≡ ranges_of self.numbers) }

        // Memory is wanted for a set of one range alone. Without it the set comes back.
        ensures full { OnErr result (count_of self.numbers ≡ 1) }
        ensures err { IfErr result (λ refused. refused.value.numbers ≡ self.numbers) }
    {
        let Ranges { kept } = self;
        match kept.into_list() {
            Ok(list) => Ok(list),
            Err(refused) => Err(AllocFailed {
                value: Ranges {
                    kept: refused.value,
                },
            }),
        }
    }

    /// Whether a number is in the set.
    pub fn holds(&self, n: u32) -> bool
        ensures { result ≡ set.contains self.now.numbers n }
    {
        search::holds(self.kept.as_slice(), n)
    }

    /// The first number from here on that is not in the set.
    pub fn next_unread(&self, from: u32) -> Option<u32>
        requires { from ≢ 0 }
        ensures found { IfSome result (IsNextUnread self.now.numbers from) }
        ensures none { IsNone result ↔ IsReadFrom self.now.numbers from }
    {
        search::next_unread(self.kept.as_slice(), from)
    }

    /// How many ranges the set has.
    pub fn count(&self) -> usize
        ensures { result ≡ count_of self.now.numbers }
    {
        self.ranges().len()
    }

    /// The ranges of the set, in rising order.
    pub fn ranges(&self) -> &[ReadRange]
        ensures ranges { result.now ≡ ranges_of self.now.numbers }
        ensures rising { AreRanges result.now }
        ensures union { union_of result.now ≡ self.now.numbers }
        ensures bounds { IsWithinBounds self.now.numbers }
    {
        self.kept.as_slice()
    }

    /// Adds a number.
    pub fn mark(&mut self, n: u32) -> Result<(), Memory>
        requires { n ≢ 0 }
        ensures ok { OnOk result (self.new.numbers ≡ set.insert self.old.numbers n) }
        ensures err { OnErr result (self.new.numbers ≡ self.old.numbers) }
        ensures spare { self.old.spare ≤ self.new.spare }

        // Memory is wanted only for more ranges than there is room for.
        ensures full { OnErr result (self.old.spare < count_of (set.insert self.old.numbers n)) }
    {
        edit::mark(&mut self.kept, n)
    }

    /// Takes a number away.
    pub fn unmark(&mut self, n: u32) -> Result<(), Memory>
        requires { n ≢ 0 }
        ensures ok { OnOk result (self.new.numbers ≡ set.remove self.old.numbers n) }
        ensures err { OnErr result (self.new.numbers ≡ self.old.numbers) }
        ensures spare { self.old.spare ≤ self.new.spare }

        // Memory is wanted only for more ranges than there is room for.
        ensures full { OnErr result (self.old.spare < count_of (set.remove self.old.numbers n)) }
    {
        edit::unmark(&mut self.kept, n)
    }

    /// Makes the set the numbers of a list of rising ranges, which may touch.
    pub fn set(&mut self, list: &[ReadRange]) -> Result<(), RangeFault>
        ensures ok { OnOk result (self.new.numbers ≡ union_of list.now) }
        ensures err { OnErr result (self.new.numbers ≡ self.old.numbers) }
        ensures spare { self.old.spare ≤ self.new.spare }

        // The first faulty range of the list is told, as invalid where it is that.
        ensures invalid { IsErrExactlyAt result RangeFault.Invalid (IsFirstInvalid list.now) }
        ensures order { IsErrExactlyAt result RangeFault.Order (IsFirstOutOfOrder list.now) }
        ensures faultless { OnOk result (IsFaultless list.now) }

        // Memory is wanted only for a faultless list, and only for more ranges than there is
        // room for.
        ensures memory { IsErrOf result RangeFault.Memory → IsFaultless list.now }
        ensures full { IsErrOf result RangeFault.Memory → self.old.spare < made_by list.now }
        ensures long { IsErrOf result RangeFault.Memory → self.old.spare < length list.now }
    {
        list::check(list)?;
        self.kept.reserve(list::merged_count(list))?;
        list::refill(&mut self.kept, list);
        Ok(())
    }

    /// Makes room for so many ranges in all.
    pub fn reserve(&mut self, n: usize) -> Result<(), Memory>
        ensures numbers { self.new.numbers ≡ self.old.numbers }
        ensures ok { OnOk result (n ≤ self.new.spare) }
        ensures spare { self.old.spare ≤ self.new.spare }
        ensures full { OnErr result (self.old.spare < n) }
    {
        self.kept.reserve(n)
    }
}

/// The ranges of a set are the one list of rising, disjoint, non-touching ranges whose union is the
/// set.
pub fn one_list_of_ranges()
    ensures exists { (s : set.FinSet nat_cmp) → IsWithinBounds s → AreRangesOf (ranges_of s) s }
    ensures only { (rs : List ReadRange) → AreRanges rs → ranges_of (union_of rs) ≡ rs }
{}
