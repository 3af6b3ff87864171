//! The names of conferences, by number: which of them clash, and which a pattern finds.
#![tactic(auto)]

mod alphabet;
mod blocks;
mod changing;
mod index;
mod letters;
mod matching;
mod names;
mod order;
mod spots;
mod steps;
mod walking;

pub use alphabet::{fold_byte, is_name};
pub use names::Names;
