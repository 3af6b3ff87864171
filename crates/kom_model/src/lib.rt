//! What the server is: its rows, the step of each act, its legal histories, and what its sessions
//! are sent.
#![tactic(auto)]

mod call_errors;
mod kinds;
mod laws;
mod stored;
mod text_heads;
mod viewers;

pub use call_errors::{CallError, Refused};
pub use kinds::{ASKING_NUMBERS, FIRM_NUMBERS, HIDING_NUMBERS, SENDING_NUMBERS};
pub use laws::{drains_give_all, effects_leave_whole, kept_effects_are_made, raises_leave_whole};
pub use stored::Rows;
pub use text_heads::TextHead;
pub use viewers::Viewer;
