//! A visit: a person reads and writes at a terminal, line by line, over one link to a server.
#![tactic(auto)]

mod asking;
mod conferences;
mod drafts;
mod entering;
mod fetching;
mod finding;
mod helping;
mod letters;
mod looking;
mod names;
mod news;
mod people;
mod prompting;
mod reading;
mod replies;
mod skipping;
mod taking;
mod typing;
mod visitor;
mod writing;

pub use drafts::Drafts;
pub use letters::Zone;
pub use visitor::{Guest, Visited, visit};
