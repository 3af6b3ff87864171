//! The stored rows told to a sink as the parts of their snapshot, with their lists borrowed.
#![tactic(auto)]

mod added;
mod keys;
mod numbered;
mod on_conferences;
mod on_memberships;
mod on_persons;
mod section;
mod sections;
mod sink;
mod telling;

pub use sink::PartSink;
pub use telling::{Untold, tell};
