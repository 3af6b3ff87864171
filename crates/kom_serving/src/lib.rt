//! How the passes of a hall serve the links of gates, over any server: over standard input and
//! output one pass the one gate, at a port a worker for each gate, with a thread and a pass of its
//! own.
#![tactic(auto)]

mod closing;
mod crowds;
mod ports;
mod serving;
mod spaces;
mod standard;
mod workers;

pub use closing::Closing;
pub use ports::serve_port;
pub use standard::{Left, serve_standard, unserved};
