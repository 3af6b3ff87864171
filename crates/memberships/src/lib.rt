//! The memberships of persons in conferences, found by the person, by the conference and by both.
#![tactic(auto)]

mod kept;
mod table;

// A crate can name the table in a contract only if the types of its fields are exported.
#[doc(hidden)]
pub use kept::Kept;
pub use table::Memberships;
