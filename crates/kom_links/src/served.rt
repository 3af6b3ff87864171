/// How the service of a link ended.
#[derive(Clone, Copy, Debug, PartialEq, Eq)]
pub enum SessionEnd {
    /// The client's stream came to its end.
    End,
    /// The client's stream is at fault at this place, counted from 0.
    Broken(u64),
    /// More waited for the session than may wait.
    Overrun,
    /// A call ended the session.
    Dropped,
    /// The server was shut down, or its store refused a flush.
    Stopped,
    /// The link failed.
    LinkFault,
    /// This many were made already: sessions of the run, or turns of its lock.
    Full(u64),
    /// Memory ran out.
    Memory,
}

/// How a link was served: in which session, 0 where none was connected, and how that ended.
#[derive(Clone, Copy, Debug, PartialEq, Eq)]
pub struct Served {
    pub session: u32,
    pub end: SessionEnd,
}
