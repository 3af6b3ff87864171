//! The service of a link: what it gives and takes is the print of one session's entries. A machine
//! that never waits, and a loop that drives one over one link.
#![tactic(auto)]

mod acting;
mod ending;
mod events;
mod machine;
mod phase;
mod resting;
mod serving;

pub use machine::{Machine, Wants};
pub use phase::{Phase, Stage};
pub use serving::serve_link;
