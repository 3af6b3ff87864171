//! Tests of the core: several sessions and what they are sent, what a keeper gets, and the time
//! that a session is told.
#![tactic(auto)]

#[cfg(test)]
mod keeper_tests;
#[cfg(test)]
mod kept;
#[cfg(test)]
mod message_tests;
#[cfg(test)]
mod time_tests;
#[cfg(test)]
mod tried;
#[cfg(test)]
mod world_tests;
