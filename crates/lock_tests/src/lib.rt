//! Turns that threads take in a hall: what no clause says of real threads, and that waiting takes
//! next to no processor time.
#![tactic(auto)]

#[cfg(test)]
mod turn_tests;
