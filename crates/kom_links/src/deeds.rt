/// What a desk was asked for, as clauses read it in the log of its answers.
#[derive(Clone, Copy, Debug, PartialEq, Eq)]
pub enum Deed {
    /// The Connect of a session.
    Connect,
    /// A call of this session.
    Call(u32),
    /// That the stream of this session is at fault.
    Broken(u32),
    /// A drain of this session, and whether it gave nothing.
    Drain(u32, bool),
    /// A flush.
    Flush,
    /// The Close of this session.
    Close(u32),
    /// Whether the desk is stopped.
    Ask,
}
