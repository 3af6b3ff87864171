//! The doors to the outside, each a trait with a written meaning and a count of faults, and the
//! adapters over standard input, standard output, sockets and the system's clock.
#![tactic(auto)]

mod accepted_socket;
mod bells;
mod client_links;
mod clock;
mod deeds;
mod desk;
mod doors;
mod gate;
mod keep_alive;
mod link;
mod polled_gate;
mod port_gate;
mod rise;
mod served;
mod sink;
mod standard_descriptors;
mod std_gate;
mod std_link;
mod std_sink;
mod std_world;
mod streams;
mod system_clock;
mod world;
mod world_counts;

pub use client_links::{KeysLink, SocketLink};
pub use clock::Clock;
pub use deeds::Deed;
pub use desk::{Desk, NewsDesk};
pub use gate::{Gate, Next};
pub use link::{Got, Link, Took};
pub use polled_gate::PolledGate;
pub use rise::has_risen;
pub use served::{Served, SessionEnd};
pub use sink::{Failed, Sink};
pub use standard_descriptors::StandardDescriptors;
pub use std_gate::StdGate;
pub use std_link::StdLink;
pub use std_sink::StdSink;
pub use std_world::StdWorld;
pub use system_clock::SystemClock;
pub use world::{World, WorldFault};
pub use world_counts::WorldCounts;
