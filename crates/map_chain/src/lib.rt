//! A chain of blocks for the texts of a conference.
#![tactic(auto)]

mod block;
mod blocks;
mod chain;
mod index;
mod joining;
mod loose;
mod memory;
mod node;
mod nodes;
mod search;
mod walks;

pub use chain::Chain;
pub use memory::Memory;
pub use walks::{Downward, Upward};
