//! A cell of eight bytes on any disk: a stop leaves its content from before a replacement, or from
//! after it.
#![tactic(auto)]

mod cell;

pub use cell::{Cell, OpenError};

#[cfg(test)]
mod tests;
