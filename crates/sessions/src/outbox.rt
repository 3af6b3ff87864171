ghost use Rattle.std.specs.Prelude.{◌≡◌, ◌^◌, ◌-◌, ◌++◌, ◌∷◌, [], length, min, map, take, drop};
ghost use Rattle.std.specs.Prelude.{false, if◌then◌else◌, IfOk, MatchOption, IsTrue, ◌↔◌};
ghost use Rattle.std.specs.VecDeque.{deque_capacity};
ghost use Rattle.kom_types.specs.Printing.{print_of};
ghost use Rattle.kom_types.specs.Sessions.{fits, waiting_limits, drained_count};
ghost use Rattle.sessions.specs.Outboxes.{is_below_first, TakesFirstBelow};

use crate::queued::Queued;
use arrayvec::ArrayVec;
use kom_types::limits::{MOST_WAITING_BYTES, MOST_WAITING_ITEMS};
use kom_types::{Item, Memory};
use std::alloc::Global;
use std::collections::VecDeque;
use std::marker::Model;
use std::mem::replace;

/// The items that wait for a session, in the order in which they were queued.
#[derive(Drop)]
pub(crate) struct Outbox {
    ring: VecDeque<Queued>,
    /// How many bytes they print to.
    printed: u64,
}

impl Model for Outbox {
    ghost use Rattle.std.specs.Prelude.{List};
    ghost use Rattle.kom_types.specs.Sessions.{Waiting};
    ghost use Rattle.std.specs.VecDeque.{deque_capacity};
    ghost use Rattle.sessions.specs.Outboxes.{IsOutbox};

    ghost Value = { List Waiting };

    ghost view = { λ outbox. outbox.ring.items };

    ghost invariant = { λ outbox.
        IsOutbox outbox.ring.items (deque_capacity outbox.ring) outbox.printed };
}

impl Outbox {
    /// An outbox in which nothing waits. It takes all the memory that it will ever want.
    pub(crate) fn new(alloc: Global) -> Result<Outbox, Memory>
        ensures { IfOk result (λ outbox. outbox ≡ []) }
    {
        Ok(Outbox {
            ring: VecDeque::with_capacity(alloc, MOST_WAITING_ITEMS)?,
            printed: 0,
        })
    }

    pub(crate) fn is_empty(&self) -> bool
        ensures { IsTrue result ↔ (self.now ≡ []) }
    {
        self.ring.is_empty()
    }

    /// Queues an item that prints to so many bytes after the others, if it still fits, and says
    /// whether it does.
    pub(crate) fn queue(&mut self, item: Item, len: u64, entry: u64) -> bool
        requires { len ≡ min (length (print_of item)) (2 ^ 64 - 1) }
        ensures fits { result ≡ fits waiting_limits self.old item }
        ensures items { self.new ≡ (if fits waiting_limits self.old item
            then self.old ++ record { item = item; entry = entry } ∷ [] else self.old) }
    {
        if self.ring.len() >= MOST_WAITING_ITEMS {
            return false;
        }
        if len > MOST_WAITING_BYTES - self.printed {
            return false;
        }
        self.ring.push_back_reserved(Queued::new(item, entry, len));
        self.printed += len;
        true
    }

    /// Moves the first items, 64 at most, of entries below this one into an array.
    pub(crate) fn drain_into(&mut self, below: u64, into: &mut ArrayVec<Item, 64>)
        requires { into.old.items ≡ [] }
        ensures given { into.new.items
            ≡ map (λ one. one.item) (take (drained_count below self.old) self.old) }
        ensures rest { self.new ≡ drop (drained_count below self.old) self.old }
    {
        while !into.is_full() {
            let Some(item) = self.next_below(below) else {
                return;
            };
            into.push(item);
        }
    }

    /// Takes the first item, if its entry is below this one.
    fn next_below(&mut self, below: u64) -> Option<Item>
        ensures { MatchOption result
            ((is_below_first below self.old ≡ false) × (self.new ≡ self.old))
            (TakesFirstBelow below self.old self.new) }
    {
        if !self.is_first_below(below) {
            return None;
        }
        let one = self.ring.pop_front()?;
        rewind(&mut self.ring);
        self.printed -= one.printed();
        Some(one.into_item())
    }

    /// Whether an item waits, and the first is of an entry below this one.
    fn is_first_below(&self, below: u64) -> bool
        ensures { result ≡ is_below_first below self.now }
    {
        match self.ring.front() {
            Some(one) => one.entry() < below,
            None => false,
        }
    }
}

/// Lets a ring begin anew at its first place once it is empty. So a session that keeps up writes to
/// the first places alone, and the others take no memory of the machine.
fn rewind(ring: &mut VecDeque<Queued>)
    ensures items { ring.new.items ≡ ring.old.items }
    ensures capacity { deque_capacity ring.new ≡ deque_capacity ring.old }
{
    if ring.is_empty() {
        let alloc = *ring.allocator();
        let emptied = replace(ring, VecDeque::new(alloc));
        *ring = VecDeque::from_vec(emptied.into_vec());
    }
}
