//! A log of batches on a disk that a stop may tear: what it appends counts once the gate before it
//! is open.
#![tactic(auto)]

mod encode;
mod errors;
mod gates;
mod laws;
mod log;
mod repairs;
mod walks;

pub use encode::Encode;
pub use errors::FlushFault;
pub use gates::set_gate;
pub use laws::{batches_are_kept, batches_are_whole};
pub use log::{Buffer, Log};
pub use repairs::repair;
pub use walks::{Found, Walked, look, read_block, walk};
