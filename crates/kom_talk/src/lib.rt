//! The conversation of a link among many: a machine that is driven in rounds, and never waits.
#![tactic(auto)]

mod conversation;
mod turns;

pub use conversation::Conversation;
