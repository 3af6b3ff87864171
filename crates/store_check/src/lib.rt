//! The program's word `check`: it opens a store, and tells what it holds. Why a store is not
//! opened, and what that comes to, is said here for the other words too.
#![tactic(auto)]

mod checking;
mod unopened;

pub use checking::{Checked, check};
pub use unopened::cases_of;
