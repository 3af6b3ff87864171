//! Aux-items: the table of them, which may be deleted and added, and which a comment inherits.
#![tactic(auto)]

mod checking;
mod inheriting;
mod kinds;
mod list;
mod objects;
mod of_object;
mod standing;
mod table;

pub use checking::check_items;
pub use inheriting::inherit;
pub use kinds::is_known;
pub use list::ItemList;
// A crate can name the items in a contract only if the types of their fields are exported.
#[doc(hidden)]
pub use objects::ObjectLists;
pub use of_object::ItemsOf;
pub use table::Items;
