use crate::sequence::Sequence;
use crate::times::Moment;

/// Texts that are read: all local numbers from the first to the last. (Protocol A, "Read-Range".)
#[derive(Clone, Copy, Debug, PartialEq, Eq)]
pub struct ReadRange {
    pub first: u32,
    pub last: u32,
}

pub type ReadRanges = Sequence<ReadRange>;

/// The ranges of a membership, or only how many they are.
#[derive(Drop)]
pub enum RangesShown {
    Count(u32),
    All(ReadRanges),
}

/// A person's membership in a conference. (Protocol A, "Membership".)
#[derive(Drop)]
pub struct Membership {
    /// Its place among the memberships that are shown, from 0 on.
    pub position: u32,
    pub last_time_read: Moment,
    pub conference: u32,
    pub priority: u8,
    pub ranges: RangesShown,
    pub added_by: u32,
    pub added_at: Moment,
    /// The eight bits invitation, passive, secret, passive-message-invert and four reserved ones,
    /// the first bit highest.
    pub kind: u8,
}

pub type Memberships = Sequence<Membership>;

/// A membership as the server keeps it, but for what was read in it.
#[derive(Clone, Copy, Debug)]
pub struct MembershipRow {
    pub person: u32,
    pub conference: u32,
    /// Its place among all memberships of the person, from 0 on.
    pub position: u32,
    pub priority: u8,
    pub added_by: u32,
    pub added_at: Moment,
    /// When the record of what was read was last set; its adding until then.
    pub last_time_read: Moment,
    /// The eight bits of its type.
    pub kind: u8,
}

/// Where a membership stands among those of its person.
#[derive(Clone, Copy, Debug)]
pub struct Placed {
    pub person: u32,
    pub conference: u32,
    /// Its place among all memberships of the person, from 0 on.
    pub position: u32,
}

/// A member of a conference. (Protocol A, "Member".)
#[derive(Clone, Copy, Debug)]
pub struct Member {
    pub person: u32,
    pub added_by: u32,
    pub added_at: Moment,
    pub kind: u8,
}

pub type Members = Sequence<Member>;
