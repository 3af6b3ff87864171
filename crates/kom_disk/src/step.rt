// What a call of a disk in memory has done.

/// A call that only looked, or that failed, is a `Pass`.
#[derive(Drop)]
pub enum Step {
    Write(usize, Vec<u8>),
    Cut(usize),
    Sync,
    Pass,
}
