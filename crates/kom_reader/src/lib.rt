//! What a reader has not read yet, which text comes next, what each message changes of that, and
//! what a typed line asks for.
#![tactic(auto)]

mod commands;
mod finding;
mod keeping;
mod messages;
mod numbers;
mod reader;
mod recipients;
mod rows;
mod steps;
mod words;

pub use commands::{Command, command_of, first_word, rest_of};
pub use numbers::number_in;
pub use reader::Reader;
pub use recipients::{Part, parts_of};
pub use rows::{Place, Row};
pub use steps::Step;
pub use words::{Choice, WORDS, Word, fits, word_of};
