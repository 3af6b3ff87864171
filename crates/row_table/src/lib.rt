//! A table of rows that are found by number, in constant time.
#![tactic(auto)]

mod keyed;
mod table;

pub use keyed::{Change, Keyed};
pub use table::Table;
