ghost use Rattle.std.specs.Prelude.{◌≡◌, ◌<◌, ◌≤◌, [], None, filter, not, nat_eq, IfOk, OnOk};
ghost use Rattle.name_lookup.specs.NamedRows.{with_name, without_name, clash_of, matches_of};
ghost use Rattle.name_lookup.specs.NamedRows.{NoneClash};
ghost use Rattle.name_lookup.specs.Order.{IsOrder};

use crate::alphabet::clashes;
use crate::blocks::Blocks;
use crate::letters::Letters;
use crate::order::{By, name_of};
use crate::walking::walk;
use indexmap::IndexMap;
use kom_types::{Bytes, Memory, Numbers};
use std::alloc::Global;
use std::marker::Model;

/// Names by number, and their numbers in the order of the names.
#[derive(Drop)]
pub(crate) struct Index {
    kept: IndexMap<u32, Bytes>,
    order: Blocks,
}

impl Model for Index {
    ghost use Rattle.std.specs.Prelude.{min};
    ghost use Rattle.indexmap.specs.IndexMap.{spare};
    ghost use Rattle.name_lookup.specs.Order.{Indexed, rows_of, IsOrder};

    ghost Value = { Indexed };

    ghost view = { λ index. record {
      names = rows_of index.kept.entries;
      spare = min (spare index.kept) index.order.spare;
    } };

    ghost invariant = { λ index. IsOrder index.kept.entries index.order.numbers };
}

impl Index {
    pub(crate) fn new(alloc: Global) -> Index
        ensures { result.names ≡ [] }
    {
        Index {
            kept: IndexMap::new(alloc),
            order: Blocks::new(alloc),
        }
    }

    pub(crate) fn alloc(&self) -> Global {
        self.order.alloc()
    }

    /// Makes room for one more name.
    pub(crate) fn reserve(&mut self) -> Result<(), Memory>
        ensures names { self.new.names ≡ self.old.names }
        ensures spare { self.old.spare ≤ self.new.spare }
        ensures ok { OnOk result (0 < self.new.spare) }
    {
        self.order.reserve()?;
        self.kept.reserve(1)?;
        Ok(())
    }

    /// Puts the name of a number. Takes no memory.
    pub(crate) fn put(&mut self, number: u32, name: Bytes)
        requires room { 0 < self.old.spare }
        requires free { clash_of name (without_name number self.old.names) ≡ None }
        ensures { self.new.names ≡ with_name number name self.old.names }
    {
        take_out(&self.kept, &mut self.order, number);
        let place = self.order.first_at(&self.kept, name.as_slice(), By::Name);
        self.order.insert(place, number);
        self.kept.insert(number, name).unwrap();
    }

    /// Takes out the name of a number, if it has one.
    pub(crate) fn remove(&mut self, number: u32)
        ensures names { self.new.names ≡ without_name number self.old.names }
        ensures spare { self.old.spare ≤ self.new.spare }
    {
        take_out(&self.kept, &mut self.order, number);
        self.kept.swap_remove(&number);
    }

    /// The number whose name clashes with this one, if one does.
    pub(crate) fn taken(&self, name: &[u8]) -> Option<u32>
        ensures number { result ≡ clash_of name.now self.now.names }
        ensures none_clash { NoneClash self.now.names }
    {
        let place = self.order.first_at(&self.kept, name, By::Name);
        if place >= self.order.len() {
            return None;
        }
        let number = self.order.get(place);
        if clashes(name, name_of(&self.kept, number)) {
            return Some(number);
        }
        None
    }

    /// The numbers of the names that a pattern finds, rising.
    pub(crate) fn find(&self, pattern: &[u8]) -> Result<Numbers, Memory>
        ensures { IfOk result (λ numbers. numbers ≡ matches_of pattern.now self.now.names) }
    {
        let letters: Vec<u8> = Letters::of(pattern).collect(self.alloc())?;
        let mut numbers = walk(&self.kept, &self.order, letters.as_slice())?;
        numbers.sort_unstable();
        Ok(Numbers::of(numbers))
    }
}

/// Takes a number out of the order, if it is there.
fn take_out(kept: &IndexMap<u32, Bytes>, order: &mut Blocks, number: u32)
    requires { IsOrder kept.now.entries order.old.numbers }
    ensures rest { order.new.numbers
        ≡ filter (λ one. not (nat_eq number one)) order.old.numbers }
    ensures spare { order.old.spare ≤ order.new.spare }
{
    if let Some(name) = kept.get(&number) {
        let place = order.first_at(kept, name.as_slice(), By::Name);
        order.remove(place);
    }
}
