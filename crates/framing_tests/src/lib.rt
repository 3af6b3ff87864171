//! What no clause says of a splitter: that the definition of a stream means what was worked out by
//! hand at each of its edges, and that lines that are as long as they may be take no more memory
//! than they need.
#![tactic(auto)]

#[cfg(test)]
mod long_tests;
#[cfg(test)]
mod row_tests;
#[cfg(test)]
mod shown;
