//! The rows of the persons, each found by the number of its letterbox.
#![tactic(auto)]

mod changes;
mod keyed;
mod row;
mod table;

pub use row::fresh_person;
pub use table::Persons;
