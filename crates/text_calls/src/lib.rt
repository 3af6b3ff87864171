//! The calls about texts: what each is answered, and what it changes.
#![tactic(auto)]

mod deleting;
mod inheriting;
mod making;
mod naming;
mod on_aux_items;
mod on_links;
mod on_marks;
mod on_recipients;
mod on_texts;
mod owning;

pub use making::{create_anonymous_text, create_text};
pub use on_aux_items::modify_text_info;
pub use on_links::{add_comment, add_footnote, sub_comment, sub_footnote};
pub use on_marks::{mark_text, unmark_text};
pub use on_recipients::{add_recipient, sub_recipient};
pub use on_texts::{delete_text, get_text};
