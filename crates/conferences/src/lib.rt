//! The rows of the conferences, each found by its number.
#![tactic(auto)]

mod changes;
mod keyed;
mod row;
mod secret;
mod table;

pub use row::fresh_conference;
pub use table::Conferences;
