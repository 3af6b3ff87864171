//! The calls that change memberships and what was read in them: what each is answered, and what it
//! changes.
#![tactic(auto)]

mod on_members;
mod on_reads;
mod reading;

pub use on_members::{add_member, set_membership_type, sub_member};
pub use on_reads::{mark_as_read, mark_as_unread, set_last_read, set_read_ranges, set_unread};
