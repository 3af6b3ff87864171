//! Rows in the order of adding, each in a slot of its own, found by its place; and lists of places,
//! each found by a key.
#![tactic(auto)]

mod block;
mod dense_lists;
mod lists;
mod page;
mod slots;
mod walk;

// A crate can name the slots in a contract only if the types of their fields are exported.
#[doc(hidden)]
pub use block::Block;
pub use dense_lists::DenseLists;
pub use lists::Lists;
pub use slots::Slots;
pub use walk::SlotWalk;
