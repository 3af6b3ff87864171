//! Effects as bytes, as the store keeps them.
#![tactic(auto)]

mod faulty;
mod fields;
mod laws;
mod parts;
mod raised;
mod reader;
mod reading;
mod rows;
mod settings;
mod sizes;
mod stop;
mod writing;

pub use faulty::has_faulty_range;
pub use laws::{effects_are_read_again, raised_counters_stand, readings_stay};
pub use parts::{append_part, part_len};
pub use raised::{NotRaised, read_raised};
pub use reading::{ReadError, read};
pub use sizes::coded_len;
pub use writing::append;
