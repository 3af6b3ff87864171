//! A client: what is typed, line by line, is sent to a server as requests, and what the server
//! answers is shown.
#![tactic(auto)]

mod buffer;
mod hearing;
mod keys;
mod replies;
mod requests;
mod rows;
mod saying;
mod talk_end;
mod talker;
mod talking;

pub use rows::worked_talks;
pub use talk_end::TalkEnd;
pub use talking::talk;
