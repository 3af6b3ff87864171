//! What no clause says of the adapters to the outside: that links over scripted streams and over
//! sockets, those of a client too, say what they move, that gates at a port let clients in, one at
//! a time or many, that a link fails which is silent or stalls, and that the process's own world
//! works.
#![tactic(auto)]

#[cfg(test)]
mod client_tests;
#[cfg(test)]
mod door_tests;
#[cfg(test)]
mod fakes;
#[cfg(test)]
mod link_tests;
#[cfg(test)]
mod polled_tests;
#[cfg(test)]
mod world_tests;
