//! What no clause says of what a client reads: that lines of each kind are read, where there is
//! memory, so that their print is the same line again, and lines that depart are refused; and which
//! letters are shown of bytes, and which bytes are sent of typed letters.
#![tactic(auto)]

#[cfg(test)]
mod letter_tests;
#[cfg(test)]
mod row_tests;
