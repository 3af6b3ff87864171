//! The stored rows, kept in tables: whether an effect fits, room for effects, and what they make;
//! and all that a call may read, with the guards that look at these rows alone.
#![tactic(auto)]

mod applying;
mod asked;
mod fitting;
mod guards;
mod item_changes;
mod keeper;
mod listing;
mod opening;
mod raising;
mod reading;
mod reserving;
mod rights;
mod stored_rows;
mod walks;

pub use asked::{Asked, push_count};
pub use fitting::{is_recipient_tag, most_links};
pub use item_changes::{item_effects, new_items, push_items, push_items_gone};
pub use keeper::{Keeper, Unkept};
pub use opening::initial_effects;
pub use stored_rows::StoredRows;
pub use walks::{MemberWalk, MembershipWalk};
