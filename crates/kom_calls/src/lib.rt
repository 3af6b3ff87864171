//! The reader of calls: a line of tokens is a reference and a call, or it is refused.
#![tactic(auto)]

mod arguments;
mod arrays;
mod aux_items;
mod bits;
mod conferences;
mod elements;
mod fault;
mod memberships;
mod persons;
mod reader;
mod server;
mod sessions;
mod shapes;
mod texts;

pub use reader::{CallFault, read_call};
