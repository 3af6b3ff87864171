//! What a snapshot of the stored rows is: effects that make them from no row on, and the counters
//! that these leave too low.
#![tactic(auto)]

mod laws;

pub use laws::{effects_leave_listed, raises_leave_restorable, snapshots_stand, worked_snapshots};
