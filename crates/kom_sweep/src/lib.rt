//! The gardener: one session of a desk walks over the conferences and the texts by calls, finds by
//! the replies which texts nobody keeps any more, and deletes these.
#![tactic(auto)]

mod ages;
mod ends;
mod looking;
mod names;
mod replies;
mod rows;
mod rule;
mod sweeping;
mod talk;
mod visiting;

pub use ends::SweepEnd;
pub use rows::worked_texts;
pub use sweeping::sweep;
