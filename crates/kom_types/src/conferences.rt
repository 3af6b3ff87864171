use crate::aux_items::AuxRows;
use crate::lists::Bytes;
use crate::sequence::Sequence;
use crate::times::Moment;

/// A conference as it is shown. (Protocol A, "Conferences".)
#[derive(Drop)]
pub struct Conference {
    pub name: Bytes,
    /// The eight bits rd-prot, original, secret, letterbox, allow-anonymous, forbid-secret and two
    /// reserved ones, the first bit highest.
    pub kind: u8,
    pub created: Moment,
    pub last_written: Moment,
    pub creator: u32,
    /// A text, or 0.
    pub presentation: u32,
    /// A conference, or 0, as the next two.
    pub supervisor: u32,
    pub submitters: u32,
    pub super_conference: u32,
    /// A text, or 0.
    pub motd: u32,
    /// For how many days its texts are kept.
    pub nice: u32,
    pub keep_commented: u32,
    pub members: u32,
    pub first_local: u32,
    pub texts: u32,
    pub expire: u32,
    pub aux_items: AuxRows,
}

/// A conference as the server keeps it; its members, texts and aux-items are rows of their own.
#[derive(Drop)]
pub struct ConferenceRow {
    pub number: u32,
    pub name: Bytes,
    /// The eight bits of its type.
    pub kind: u8,
    pub created: Moment,
    pub last_written: Moment,
    pub creator: u32,
    /// A text, or 0.
    pub presentation: u32,
    /// A text, or 0.
    pub motd: u32,
    /// A conference, or 0, as the next two.
    pub supervisor: u32,
    pub submitters: u32,
    pub super_conference: u32,
    /// For how many days its texts are kept.
    pub nice: u32,
    pub keep_commented: u32,
    pub expire: u32,
    /// The number that its next text gets in it.
    pub next_local: u32,
    /// The number that its next aux-item gets.
    pub next_item: u32,
}

/// What of a conference the rights of persons hang on.
#[derive(Clone, Copy, Debug, PartialEq, Eq)]
pub struct ConferenceHead {
    /// The eight bits of its type.
    pub kind: u8,
    /// A conference, or 0, as the next one.
    pub supervisor: u32,
    pub submitters: u32,
}

/// What of a conference most clients want. (Protocol A, "Conferences".)
#[derive(Drop)]
pub struct UConference {
    pub name: Bytes,
    pub kind: u8,
    pub highest_local: u32,
    pub nice: u32,
}

/// What a look-up by name gives of a conference. (Protocol A, "Conferences".)
#[derive(Drop)]
pub struct ConferenceName {
    pub name: Bytes,
    /// The first four bits of the type, the first bit highest of eight.
    pub kind: u8,
    pub number: u32,
}

/// What a look-up by name gives.
pub type ConferenceNames = Sequence<ConferenceName>;

/// A conference that is to be made.
#[derive(PartialEq, Drop)]
pub struct NewConference {
    pub name: Bytes,
    /// The eight bits of a conference's type.
    pub kind: u8,
    pub aux_items: crate::aux_items::AuxInputs,
}
