use crate::lists::Bytes;

/// One change of a session, whose number stands first; `Stop` changes the server.
#[derive(Drop)]
pub enum SessionChange {
    /// This person logs in, invisibly or not; person 0 logs out whoever is logged in.
    Person(u32, u32, bool),
    /// The level of rights that the client asked for.
    Level(u32, u8),
    /// The conference that the person is in, or 0.
    Working(u32, u32),
    /// What the person is said to be doing.
    Doing(u32, Bytes),
    /// The client's name and version.
    Client(u32, Bytes, Bytes),
    /// The messages that the session accepts: bit n is set where it accepts number n.
    Accept(u32, u32),
    /// The person did something.
    Active(u32),
    /// The session was ended by a call, and makes no call any more.
    Ended(u32),
    /// The server was shut down.
    Stop,
}
