//! The doors of `kom_links` in memory: each keeps to a script or a plan, and tells what it took and
//! gave.
#![tactic(auto)]

mod desk_plan;
mod file_plan;
mod flags;
mod memory_clock;
mod memory_desk;
mod memory_gate;
mod memory_link;
mod memory_sink;
mod memory_world;
mod open_keys;
mod planned_items;
mod port_gates;
mod read_log;

pub use desk_plan::DeskPlan;
pub use file_plan::FilePlan;
pub use flags::{Flag, Flags, Hold, Signal};
pub use memory_clock::MemoryClock;
pub use memory_desk::MemoryDesk;
pub use memory_gate::{Client, MemoryGate};
pub use memory_link::{LinkPlan, MemoryLink, Script};
pub use memory_sink::MemorySink;
pub use memory_world::{GatePlan, MemoryWorld};
