//! The splitter of a stream, a client's or a server's, into its greeting and its lines, and the
//! writer of replies.
#![tactic(auto)]

mod begun;
mod fault;
mod greeting;
mod lexer;
mod line;
mod lines;
mod placing;
mod splitter;
mod token;
mod tokens;
mod units;
mod whole;
mod writer;

pub use line::Line;
pub use placing::digit_count;
pub use splitter::{FeedRefusal, Splitter};
pub use token::Token;
pub use tokens::Tokens;
pub use units::Unit;
pub use writer::{Place, Writer};
