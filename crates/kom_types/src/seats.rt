use crate::lists::Bytes;
use crate::times::Moment;

/// All that a call may read of a session.
#[derive(Drop)]
pub struct Seat {
    pub number: u32,
    /// The pass of its Connect.
    pub pass: u32,
    /// The user name of its greeting.
    pub user: Bytes,
    /// Where its client is.
    pub host: Bytes,
    pub connected: Moment,
    /// When its person logged in.
    pub login: Moment,
    /// When its client last said that the person was active; a Connect and a login say so too.
    pub active: Moment,
    /// The person that is logged in, or 0.
    pub person: u32,
    pub level: u8,
    /// The conference that the person is in, or 0.
    pub working: u32,
    pub doing: Bytes,
    /// Whether the client told its name and version.
    pub client_set: bool,
    pub client: Bytes,
    pub version: Bytes,
    /// The messages that it accepts: bit n is set where it accepts number n.
    pub accepted: u32,
    /// The flags invisible, user-active-used and user-absent, and five reserved ones, the first bit
    /// highest.
    pub flags: u8,
    /// Whether a call has ended it.
    pub ended: bool,
}
