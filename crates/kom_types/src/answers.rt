use crate::items::Item;
use arrayvec::ArrayVec;

/// Why a session is served no longer.
#[derive(Clone, Copy, Debug, PartialEq, Eq)]
pub enum Why {
    /// A call ended the session.
    Dropped,
    /// More waited for the session than may wait.
    Overrun,
    /// The server was shut down, or its store refused a flush.
    Stopped,
    /// There is no such session.
    Absent,
}

/// Why an act is not made.
#[derive(Clone, Copy, Debug, PartialEq, Eq)]
pub enum NotMade {
    /// Its session is served no longer, or the server is not.
    Gone(Why),
    /// This many were made already: sessions, or turns of the server's lock.
    Full(u64),
    /// Memory ran out.
    Memory,
}

/// What an act is answered.
#[derive(Drop)]
pub enum Answer {
    /// The number of the new session.
    Connected(u32),
    /// The act was made.
    Taken,
    /// What a drain took, in order.
    Items(ArrayVec<Item, 64>),
    /// The act was not made, since its session is served no longer.
    Gone(Why),
    /// The act was not made, since this many were made already.
    Full(u64),
}
