ghost use Rattle.std.specs.Prelude.{◌≡◌, [], None, Some, IfOk, OnOk, OnErr, IsOk};
ghost use Rattle.std.specs.Prelude.{IsTrue, ◌↔◌};
ghost use Rattle.name_lookup.specs.NamedRows.{with_name, without_name, clash_of, matches_of};
ghost use Rattle.name_lookup.specs.NamedRows.{NoneClash};

use crate::index::Index;
use kom_types::{Bytes, Memory, Numbers};
use std::alloc::Global;
use std::marker::Model;

/// The names of conferences, by rising number. Of two names that clash one alone is kept.
pub struct Names {
    index: Index,
    next: Option<Bytes>,
}

// A call of its own, so that whoever lets the names go has one step to prove and not one for each
// part.
impl Drop for Names {
    fn drop(self) {
        let Names { index, next } = self;
        drop((index, next));
    }
}

impl Model for Names {
    ghost use Rattle.std.specs.Prelude.{◌<◌, IsSome};
    ghost use Rattle.name_lookup.specs.NamedRows.{Lookup};

    ghost Value = { Lookup };

    ghost view = { λ s. record { names = s.index.names; ready = s.next } };

    ghost invariant = { λ s. IsSome s.next → 0 < s.index.spare };
}

impl Names {
    pub fn new(alloc: Global) -> Names
        ensures { result ≡ record { names = []; ready = None } }
    {
        Names {
            index: Index::new(alloc),
            next: None,
        }
    }

    /// Makes a name ready in place of another: the next put of it takes no memory.
    pub fn reserve(&mut self, name: &[u8]) -> Result<(), Memory>
        ensures names { self.new.names ≡ self.old.names }
        ensures ok { OnOk result (self.new.ready ≡ Some name.now) }
        ensures err { OnErr result (self.new ≡ self.old) }
        ensures succeeds { self.old.ready ≡ Some name.now → IsOk result }
    {
        if self.is_ready(name) {
            return Ok(());
        }
        let copy = Bytes::copy_of(self.index.alloc(), name)?;
        self.index.reserve()?;
        self.next = Some(copy);
        Ok(())
    }

    /// Puts the name of a number, in place of the one that it had.
    pub fn put(&mut self, number: u32, name: &[u8]) -> Result<(), Memory>
        requires { clash_of name.now (without_name number self.old.names) ≡ None }
        ensures ok { OnOk result (self.new.names ≡ with_name number name.now self.old.names) }
        ensures spent { OnOk result (self.new.ready ≡ None) }
        ensures err { OnErr result (self.new ≡ self.old) }
        ensures succeeds { self.old.ready ≡ Some name.now → IsOk result }
    {
        self.reserve(name)?;
        let copy = self.next.take().unwrap();
        self.index.put(number, copy);
        Ok(())
    }

    /// Takes out the name of a number, if it has one.
    pub fn remove(&mut self, number: u32)
        ensures { self.new
            ≡ record { names = without_name number self.old.names; ready = self.old.ready } }
    {
        self.index.remove(number);
    }

    /// The number whose name clashes with this one, if one does.
    pub fn taken(&self, name: &[u8]) -> Option<u32>
        ensures number { result ≡ clash_of name.now self.now.names }
        ensures none_clash { NoneClash self.now.names }
    {
        self.index.taken(name)
    }

    /// The numbers of the names that a pattern finds, rising: all for a pattern without a word.
    pub fn find(&self, pattern: &[u8]) -> Result<Numbers, Memory>
        ensures { IfOk result (λ numbers. numbers ≡ matches_of pattern.now self.now.names) }
    {
        self.index.find(pattern)
    }

    /// Whether this name is ready.
    fn is_ready(&self, name: &[u8]) -> bool
        ensures { IsTrue result ↔ (self.now.ready ≡ Some name.now) }
    {
        match &self.next {
            Some(next) => next.as_slice() == name,
            None => false,
        }
    }
}
