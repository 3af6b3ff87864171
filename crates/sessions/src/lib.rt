//! The rows of the sessions: the seat of each, and the items that wait for it in a ring.
#![tactic(auto)]

mod accepting;
mod changing;
mod outbox;
mod queued;
mod row;
mod table;

pub use row::SessionRow;
pub use table::Sessions;
