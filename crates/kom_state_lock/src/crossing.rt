// Between threads. Nothing calls these functions: that they are proved is what they are for.
use crate::booked::Booked;
use crate::hall::Hall;
use crate::held::Held;
use crate::pass::Pass;

fn may_go<T: Send>() {}

fn may_be_shared<T: Sync>() {}

/// Where a value may go to another thread, so may its hall, a pass and the held value, and threads
/// may share the hall.
pub fn may_cross<B: Booked + Send>() {
    may_go::<Hall<B>>();
    may_be_shared::<Hall<B>>();
    may_go::<Pass<B>>();
    may_go::<Held<B>>();
}

/// Where threads may share a value, they may share the held one.
pub fn may_be_read<B: Sync>() {
    may_be_shared::<Held<B>>();
}

/// Where a value may go to another thread and threads may share it and its entries, they may share
/// a pass. No search finds the proof: whoever shares one names `pass_sync`, of proofs/Sharing.
pub fn may_be_seen<B: Booked<Entry: Sync> + Send + Sync>() {
    may_be_shared::<Pass<B>>();
}
