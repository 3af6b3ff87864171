//! The marks that persons set on texts, found by the person and by the text.
#![tactic(auto)]

mod table;

pub use table::MarkTable;
