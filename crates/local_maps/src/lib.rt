//! The texts of conferences and of authors by their local numbers, and the parts of them that are
//! told.
#![tactic(auto)]

mod map;
mod mapping;
mod maps;
mod walks;

pub use map::LocalMap;
pub use mapping::upward;
pub use maps::LocalMaps;
pub use walks::PairsFrom;
