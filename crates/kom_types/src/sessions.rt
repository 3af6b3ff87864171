use crate::lists::Bytes;
use crate::sequence::Sequence;
use crate::times::Moment;

/// What changes in a session while it lasts. (Protocol A, "Who is Logged On".)
#[derive(Drop)]
pub struct DynamicSession {
    pub session: u32,
    /// The person that is logged in, or 0.
    pub person: u32,
    /// A conference, or 0.
    pub working: u32,
    /// Seconds.
    pub idle: u32,
    /// The eight bits invisible, user-active-used, user-absent and five reserved ones, the first
    /// bit highest.
    pub flags: u8,
    pub doing: Bytes,
}

pub type DynamicSessions = Sequence<DynamicSession>;

/// What does not change in a session. (Protocol A, "Who is Logged On".)
#[derive(Drop)]
pub struct StaticSession {
    pub user: Bytes,
    pub host: Bytes,
    pub ident_user: Bytes,
    pub connected: Moment,
}

/// What a client tells of itself.
#[derive(PartialEq, Drop)]
pub struct ClientVersion {
    pub name: Bytes,
    pub version: Bytes,
}
