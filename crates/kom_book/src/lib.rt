//! The book: a server as a value that a hall keeps, each act of which is one entry.
#![tactic(auto)]

mod acting;
mod book;
mod booked;
mod inner;
mod starting;
mod storing;
mod ticked;

pub use book::Book;
pub use ticked::Ticked;
