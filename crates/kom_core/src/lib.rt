//! The core of the server: one act at a time is made on its rows, and answered.
#![tactic(auto)]

mod asking;
mod calls;
mod decide;
mod server_core;
mod server_state;

pub use server_core::Core;
