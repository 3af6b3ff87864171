ghost use Rattle.std.specs.Prelude.{◌≡◌, length};
ghost use Rattle.kom_types.specs.Printing.{print_of};

use kom_types::Item;
use std::marker::Model;

/// An item that waits for a session, the place in the history of the entry that queued it, and how
/// many bytes the item prints to.
#[derive(Drop)]
pub(crate) struct Queued {
    item: Item,
    entry: u64,
    printed: u64,
}

impl Model for Queued {
    ghost use Rattle.std.specs.Prelude.{◌≡◌, length};
    ghost use Rattle.kom_types.specs.Printing.{print_of};
    ghost use Rattle.kom_types.specs.Sessions.{Waiting};

    ghost Value = { Waiting };

    ghost view = { λ one. record { item = one.item; entry = one.entry } };

    ghost invariant = { λ one. one.printed ≡ length (print_of one.item) };
}

impl Queued {
    pub(crate) fn new(item: Item, entry: u64, printed: u64) -> Queued
        requires { printed ≡ length (print_of item) }
        ensures { result ≡ record { item = item; entry = entry } }
    {
        Queued {
            item,
            entry,
            printed,
        }
    }

    pub(crate) fn entry(&self) -> u64
        ensures { result ≡ self.now.entry }
    {
        self.entry
    }

    /// How many bytes the item prints to.
    pub(crate) fn printed(&self) -> u64
        ensures { result ≡ length (print_of self.now.item) }
    {
        self.printed
    }

    pub(crate) fn into_item(self) -> Item
        ensures { result ≡ self.item }
    {
        self.item
    }
}
