//! What no clause says of disks: what their scripts and tears leave in worked cases, and that disks
//! over files, real ones and fakes that fail by script, do what they say.
#![tactic(auto)]

#[cfg(test)]
mod fake_tests;
#[cfg(test)]
mod fakes;
#[cfg(test)]
mod file_tests;
#[cfg(test)]
mod generic;
#[cfg(test)]
mod memory_tests;
#[cfg(test)]
mod shared_tests;
