//! The snapshot of the stored rows, written into a file of a store in one walk over them.
#![tactic(auto)]

mod coder;
mod errors;
mod writing;

pub use errors::Unwritten;
pub use writing::write_snapshot;
