//! The nodes of a list, each in a block of its own.
ghost use Rattle.std.specs.Prelude.{◌≡◌, ℕ, List, [], ◌∷◌, ◌++◌, slice_get, Some, remove};
ghost use types.Logic.{sem};
ghost use denote.RawPtr.{Ptr, null_ptr};
ghost use Rattle.map_chain.specs.Nodes.{IsAt};
ghost use Rattle.map_chain.specs.Ownership.{nodes_own, nodes_lent};

use crate::loose::Loose;
use std::alloc::Allocator;
use std::marker::{Model, PhantomData, Send, Sync};
use std::ptr::null_mut;

/// Where a node lies. It owns nothing.
#[derive(Clone, Copy)]
pub(crate) struct Place {
    pub(crate) ptr: *mut u8,
}

impl Place {
    pub(crate) fn nowhere() -> Place
        ensures { result.ptr ≡ null_ptr }
    {
        Place { ptr: null_mut() }
    }
}

unsafe impl Send for Place {}

unsafe impl Sync for Place {}

/// The owner of the nodes' memory, which came from `alloc`. It takes no space.
pub(crate) struct Nodes<T, A: Allocator> {
    mark: PhantomData<*const (T, A)>,
    ghost alloc: { A },
    ghost nodes: { List (Ptr × T) },
}

impl<T, A: Allocator> Model for Nodes<T, A> {
    ghost also_owns = { λ n. nodes_own (A.dealloc_token n.alloc) T.row n.nodes };

    ghost also_shares = { λ n _ κ. nodes_lent T.row n.nodes κ };
}

unsafe impl<T: Send, A: Allocator + Send> Send for Nodes<T, A> {}

unsafe impl<T: Sync, A: Allocator> Sync for Nodes<T, A> {}

impl<T, A: Allocator> Nodes<T, A> {
    ghost use Rattle.map_chain.specs.Lends.{nodes_follow};

    pub(crate) fn new(_alloc: &A) -> Nodes<T, A>
        ensures { (result.alloc ≡ _alloc.now) × (result.nodes ≡ []) }
    {
        Nodes { mark: PhantomData }
    }

    /// Adds a node at the end. Its own handle of the allocator comes back.
    pub(crate) fn push(&mut self, node: Loose<T, A>) -> (Place, A)
        requires { node.alloc ≡ self.old.alloc }
        ensures nodes { self.new.nodes ≡ self.old.nodes ++ (result.0.ptr, node.value) ∷ [] }
        ensures allocator { (self.new.alloc ≡ self.old.alloc) × (result.1 ≡ node.alloc) }
    {
        let Loose { at, alloc } = node;
        (Place { ptr: at as *mut u8 }, alloc)
    }

    /// Takes the i-th node out.
    pub(crate) fn take(&mut self, at: Place, i: usize, alloc: A) -> Loose<T, A>
        requires place { IsAt self.old.nodes i at.ptr }
        requires allocator { alloc ≡ self.old.alloc }
        ensures node { slice_get self.old.nodes i ≡ Some (at.ptr, result.value) }
        ensures nodes { self.new.nodes ≡ remove self.old.nodes i }
        ensures allocator { (self.new.alloc ≡ self.old.alloc) × (result.alloc ≡ alloc) }
    {
        Loose {
            at: at.ptr as *mut T,
            alloc,
        }
    }

    pub(crate) fn get(&self, at: Place, i: usize) -> &T
        requires { IsAt self.now.nodes i at.ptr }
        ensures { slice_get self.now.nodes i ≡ Some (at.ptr, result.now) }
    {
        let node = at.ptr as *mut T;
        unsafe { &*node }
    }

    pub(crate) fn get_mut(&mut self, at: Place, i: usize) -> &mut T
        requires { IsAt self.old.nodes i at.ptr }
        ensures* writes_back { sem 𝓛
            (nodes_follow T.row A.row A.Allocator self.entry i at.ptr result) }
        ensures value { slice_get self.old.nodes i ≡ Some (at.ptr, result.now) }
    {
        let node = at.ptr as *mut T;
        unsafe { &mut *node }
    }

    /// Ends the owner of no nodes.
    pub(crate) fn close(self)
        requires { self.nodes ≡ [] }
    {
        let Nodes { mark: _ } = self;
    }
}
