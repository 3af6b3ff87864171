//! The journal of a store: effects that wait until they are flushed as one batch, and opening one
//! again.
#![tactic(auto)]

mod bodies;
mod coded;
mod errors;
mod journal;
mod keeping;
mod laws;
mod making;
mod opening;
mod restoring;
mod rows;
mod snapshots;

pub use errors::{NotSnapshot, OpenFault};
pub use journal::Journal;
pub use laws::{effects_are_kept, images_stand_for_one, snapshots_stand_for_one};
pub use snapshots::read_snapshot;
