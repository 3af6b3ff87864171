//! The messages that a call sends: to each session that accepts them, and in which somebody is
//! logged in, what that person may know.
#![tactic(auto)]

mod added;
mod deliveries;
mod messages;
mod on_aux_items;
mod on_conferences;
mod on_memberships;
mod on_persons;
mod on_server;
mod on_sessions;
mod on_texts;

pub use deliveries::Delivery;
pub use messages::{fan_out, is_silent};
