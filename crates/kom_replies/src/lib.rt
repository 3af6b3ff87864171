//! The printer: each item of a session's output has one spelling.
#![tactic(auto)]

mod arrays;
mod aux_items;
mod conferences;
mod cutting;
mod lengths;
mod memberships;
mod messages;
mod persons;
mod printer;
mod replies;
mod server;
mod sessions;
mod sinks;
mod spelled;
mod texts;

pub use cutting::cut_one_way;
pub use lengths::printed_len;
pub use printer::print_item;
