//! The texts, and all that hangs on them: recipients, links, marks, and the local numbers by which
//! they are found.
#![tactic(auto)]

mod changes;
mod keyed;
mod needs;
mod reading;
mod row;
mod table;
mod texts;

pub use needs::Need;
pub use row::fresh_text;
pub use texts::Texts;
