ghost use Rattle.std.specs.Prelude.{◌≡◌, ◌≤◌, map, length, vec_len, vec_capacity};
ghost use Rattle.memory_links.specs.PlannedItems.{item_of};

use arrayvec::ArrayVec;
use kom_types::{Item, Reply};

/// An item that a desk in memory makes.
#[derive(Clone, Copy, Debug)]
pub(crate) enum PlannedItem {
    Hello,
    /// A reply whose result is the number of its session.
    Reply { reference: u32, session: u32 },
    Fault,
}

impl PlannedItem {
    /// The item itself.
    fn item(self) -> Item
        ensures { result ≡ item_of self }
    {
        match self {
            PlannedItem::Hello => Item::Hello,
            PlannedItem::Reply { reference, session } => Item::Reply {
                reference,
                body: Reply::Number(session),
            },
            PlannedItem::Fault => Item::Fault,
        }
    }
}

/// An item that waits for a session.
#[derive(Clone, Copy, Debug)]
pub(crate) struct Waiting {
    pub session: u32,
    pub item: PlannedItem,
}

/// The items that a drain of a session gave.
#[derive(Drop)]
pub(crate) struct Drained {
    pub session: u32,
    pub items: Vec<PlannedItem>,
}

/// Takes the first items that wait for a session, as many as there is room for.
pub(crate) fn take_waiting(waiting: &mut Vec<Waiting>, session: u32, into: &mut Vec<PlannedItem>)
    ensures room { vec_capacity into.new ≡ vec_capacity into.old }
    ensures few { vec_len into.new ≤ vec_capacity into.new }
{
    let mut place = 0;
    while place < waiting.len() && into.len() < into.capacity() {
        if waiting[place].session == session {
            into.push_reserved(waiting.remove(place).item);
        } else {
            place += 1;
        }
    }
}

/// Puts items into an array, in place of what stood there.
pub(crate) fn put_items(items: &[PlannedItem], into: &mut ArrayVec<Item, 64>)
    requires { length items.now ≤ 64 }
    ensures { into.new.items ≡ map item_of items.now }
{
    into.clear();
    for item in items {
        into.push(item.item());
    }
}
