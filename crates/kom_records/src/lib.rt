//! The reader of what a server writes: a line of tokens is a reply or a message, or it is refused.
#![tactic(auto)]

mod arrays;
mod conferences;
mod elements;
mod fault;
mod laws;
mod memberships;
mod messages;
mod numbers;
mod replies;
mod texts;
mod times;
mod tokens;

pub use fault::ReadFault;
pub use laws::{printed_messages_are_read, printed_replies_are_read, references_are_told};
pub use messages::read_message;
pub use replies::{ResultKind, read_reply, reference_of};
