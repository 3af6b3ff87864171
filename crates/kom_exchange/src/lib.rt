//! What goes to and fro between a person and a server: what is typed, asked, heard and shown. A
//! text counts as read only where it was shown whole, or skipped, or is the person's own.
#![tactic(auto)]

mod buffer;
mod contacts;
mod exchange;
mod keys;
mod lines;
mod pages;
mod reading;
mod request;
mod requests;
mod server;
mod told;
mod visit_end;
mod waiting;

pub use contacts::Ended;
pub use exchange::Exchange;
pub use lines::first_line;
pub use pages::Pace;
pub use reading::{Counted, Fetched};
pub use request::{Argument, Request};
pub use requests::{Requests, log_in};
pub use told::{Told, charset_by};
pub use visit_end::VisitEnd;
pub use waiting::{Ready, Waiting};
