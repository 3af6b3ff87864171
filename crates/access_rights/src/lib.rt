//! The rights of persons over conferences and texts, over any stored rows, and the guards that
//! calls share.
//! No function but `items_shown`, `push_item`, `shown_stat` and `stat_of` takes memory.
#![tactic(auto)]

mod guards;
mod items;
mod memberships;
mod messages;
mod rights;
mod text_stat;
mod texts;

pub use guards::{
    conference_guard, conference_or_none_guard, login_guard, name_guard, reads_guard,
    session_guard, size_guard, strong_guard, submit_guard, supervisor_guard, text_guard,
    text_or_none_guard, type_guard, unless,
};
pub use items::{
    ItemsOf, conference_adder, items_guard, items_shown, new_items_guard, push_item, text_adder,
};
pub use memberships::{is_reserved, member_guard, row_guard, shows_membership, shows_reads};
pub use messages::{gets_text, hears, takes};
pub use rights::{reads_conference, sees, supervises, working_shown};
pub use text_stat::{shown_stat, stat_of, told_count};
pub use texts::{is_author, may_submit, reads, shows_recipient};
