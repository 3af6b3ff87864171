//! Tests of what waits, over doors in memory whose waits, faults and ends come by script: the loop
//! of a session at a scripted desk, runs of the top call, with workers side by side too, and over a
//! store that is swept, the talk of a client; of these doors themselves; and of a server and a
//! client in one process, over a socket.
#![tactic(auto)]

#[cfg(test)]
mod desk_tests;
#[cfg(test)]
mod hub_tests;
#[cfg(test)]
mod run_tests;
#[cfg(test)]
mod serve_tests;
#[cfg(test)]
mod session_tests;
#[cfg(test)]
mod side_by_side_tests;
#[cfg(test)]
mod sweep_tests;
#[cfg(test)]
mod talk_tests;
#[cfg(test)]
mod world_tests;
