//! A list of ranges that keeps a single one in itself, and takes memory from the second on.
ghost use Rattle.std.specs.Prelude.{◌≡◌, ◌≤◌, ◌<◌, ◌++◌, ◌∷◌, [], length, slice_set};
ghost use Rattle.std.specs.Prelude.{OnOk, OnErr, IfOk, IfErr, option_to_list};
ghost use Rattle.std.specs.List.{insert, remove};
ghost use Rattle.read_ranges.specs.ListFault.{EndWithinBelow};
ghost use Rattle.read_ranges.specs.Merged.{merge_all};

use crate::list::merge;
use kom_types::{Memory, ReadRange};
use std::alloc::{AllocError, AllocFailed, Global};
use std::marker::Model;

/// While there is one range it stands in `one`, and `many` is empty.
#[derive(Debug, Drop)]
pub(crate) struct Kept {
    one: Option<ReadRange>,
    many: Vec<ReadRange>,
}

impl Model for Kept {
    ghost use Rattle.std.specs.Prelude.{◌≡◌, [], vec_capacity, OnSome};
    ghost use Rattle.read_ranges.specs.Kept.{KeptRanges, kept_ranges};

    ghost Value = { KeptRanges };

    ghost view = { λ k. kept_ranges k.one k.many.items (vec_capacity k.many) };

    ghost invariant = { λ k. OnSome k.one (k.many.items ≡ []) };
}

impl Clone for Kept {
    ghost is_clone = { λ kept copy. copy.items ≡ kept.items };

    ghost is_infallible = { λ kept. length kept.items ≤ 1 };

    fn clone(&self) -> Result<Kept, AllocError> {
        let alloc = *self.many.allocator();
        match self.as_slice() {
            [] => Ok(Kept::new(alloc)),
            [range] => Ok(Kept {
                one: Some(*range),
                many: Vec::new(alloc),
            }),
            ranges => Ok(Kept {
                one: None,
                many: Vec::from_slice(alloc, ranges)?,
            }),
        }
    }
}

impl Kept {
    pub fn new(alloc: Global) -> Kept
        ensures { result.items ≡ [] }
    {
        Kept {
            one: None,
            many: Vec::new(alloc),
        }
    }

    /// Keeps a given list, with one range in place of those that touch.
    pub fn of_list(list: Vec<ReadRange>) -> Kept
        ensures items { result.items ≡ merge_all list.items }
        ensures bounds { EndWithinBelow list.items (length list.items) }
        ensures spare { length list.items ≤ result.spare }
    {
        let mut many = list;
        let count = merge(&mut many);
        many.truncate(count);
        Kept { one: None, many }
    }

    /// The ranges as a list. Memory is wanted for a single range alone, and where there is none the
    /// ranges come back.
    pub fn into_list(self) -> Result<Vec<ReadRange>, AllocFailed<Kept>>
        ensures ok { IfOk result (λ list. list.items ≡ self.items) }
        ensures err { IfErr result (λ refused. refused.value.items ≡ self.items) }
        ensures full { OnErr result (length self.items ≡ 1) }
    {
        let Kept { one, mut many } = self;
        let Some(range) = one else {
            return Ok(many);
        };
        match many.push(range) {
            Ok(()) => Ok(many),
            Err(_) => Err(AllocFailed {
                value: Kept { one, many },
            }),
        }
    }

    pub fn as_slice(&self) -> &[ReadRange]
        ensures { result.now ≡ self.now.items }
    {
        match &self.one {
            Some(range) => std::slice::from_ref(range),
            None => self.many.as_slice(),
        }
    }

    /// Keeps this range alone, or none.
    pub fn keep_only(&mut self, range: Option<ReadRange>)
        ensures items { self.new.items ≡ option_to_list range }
        ensures spare { self.new.spare ≡ self.old.spare }
    {
        self.many.clear();
        self.one = range;
    }

    /// Makes room for so many ranges in all.
    pub fn reserve(&mut self, count: usize) -> Result<(), Memory>
        ensures items { self.new.items ≡ self.old.items }
        ensures ok { OnOk result (count ≤ self.new.spare) }
        ensures spare { self.old.spare ≤ self.new.spare }
        ensures full { OnErr result (self.old.spare < count) }
    {
        if count > 1 && count > self.many.len() {
            self.many.reserve(count - self.many.len())?;
        }
        Ok(())
    }

    /// Writes a range in the place of another.
    pub fn write(&mut self, at: usize, range: ReadRange)
        requires { at < length self.old.items }
        ensures items { self.new.items ≡ slice_set self.old.items at range }
        ensures spare { self.new.spare ≡ self.old.spare }
    {
        if self.one.is_some() {
            self.one = Some(range);
        } else {
            self.many[at] = range;
        }
    }

    pub fn remove(&mut self, at: usize)
        requires { at < length self.old.items }
        ensures items { self.new.items ≡ remove self.old.items at }
        ensures spare { self.new.spare ≡ self.old.spare }
    {
        if self.one.is_some() {
            self.one = None;
        } else {
            self.many.remove(at);
        }
    }

    pub fn insert(&mut self, at: usize, range: ReadRange) -> Result<(), Memory>
        requires { at ≤ length self.old.items }
        ensures ok { OnOk result (self.new.items ≡ insert self.old.items at range) }
        ensures err { OnErr result (self.new.items ≡ self.old.items) }
        ensures spare { self.old.spare ≤ self.new.spare }
        ensures full { OnErr result (self.old.spare ≤ length self.old.items) }
    {
        match self.one {
            None => {
                if self.many.is_empty() {
                    self.one = Some(range);
                } else {
                    self.many.insert(at, range)?;
                }
            }
            Some(alone) => {
                self.many.reserve(2)?;
                let (first, second) = if at == 0 {
                    (range, alone)
                } else {
                    (alone, range)
                };
                self.many.push(first).unwrap();
                self.many.push(second).unwrap();
                self.one = None;
            }
        }
        Ok(())
    }

    /// Adds a range at the end, where there is room.
    pub fn push(&mut self, range: ReadRange)
        requires { length self.old.items < self.old.spare }
        ensures items { self.new.items ≡ self.old.items ++ range ∷ [] }
        ensures spare { self.old.spare ≤ self.new.spare }
    {
        if self.many.is_empty() {
            let at = self.as_slice().len();
            self.insert(at, range).unwrap();
        } else {
            self.many.push(range).unwrap();
        }
    }
}
