//! Rows that were worked out by hand, of the stream and of the server: the definitions of kom_types
//! and of kom_model give each of them.
#![tactic(auto)]

mod model;
mod types;

pub use model::{
    worked_calls, worked_histories, worked_items, worked_memberships, worked_messages,
    worked_rights, worked_shown, worked_texts,
};
pub use types::{worked_rows, worked_tables};
