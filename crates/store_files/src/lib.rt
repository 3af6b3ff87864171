//! The two files of a store: which of them is chosen, and how a snapshot is written into the other.
#![tactic(auto)]

mod choices;
mod cuts;
mod heads;
mod laws;
mod snapshot_file;
mod writing;

pub use choices::{Choice, NotChosen, choose};
pub use cuts::cut_to_header;
pub use heads::{Head, Side, read_head};
pub use laws::{pairs_stand, worked_heads};
pub use snapshot_file::SnapshotFile;
