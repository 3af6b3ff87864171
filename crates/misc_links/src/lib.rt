//! What texts are linked to: the texts that they are comments or footnotes to, found from either
//! end, and the conferences that are their recipients.
#![tactic(auto)]

mod kinds;
mod links;
mod recipients;

// A crate can name the links in a contract only if the types of their fields are exported.
#[doc(hidden)]
pub use kinds::KindLists;
pub use links::Links;
pub use recipients::Recipients;
