//! Letters on a terminal: which letters the bytes of a text are, what is shown of them, in lines
//! that no text can forge, and as which bytes typed letters are sent.
#![tactic(auto)]

mod charsets;
mod cutting;
mod decoding;
mod kinds;
mod names;
mod showing;
mod spacing;
mod typing;
mod unsendable;

pub use charsets::{Charset, charset_of, reads_as_utf8};
pub use decoding::decode;
pub use kinds::{columns_of, is_plain, shown_letter};
pub use names::show_name;
pub use showing::{Start, show};
pub use typing::{Sent, name_bytes, text_bytes};
pub use unsendable::Unsendable;
