//! What no clause says of the two structures that the tables keep local numbers and read texts in:
//! that their calls succeed where there is memory, and that they may go to another thread.
#![tactic(auto)]

#[cfg(test)]
mod chain_tests;
#[cfg(test)]
mod range_tests;
