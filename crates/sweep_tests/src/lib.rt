//! Tests of a sweep over a desk in memory.
#![tactic(auto)]

#[cfg(test)]
mod desk_tests;
