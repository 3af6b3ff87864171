use crate::aux_items::AuxRow;
use crate::lists::Bytes;
use crate::memberships::ReadRanges;
use crate::texts::{Recipient, TextLink};
use crate::times::Moment;

/// One change of the stored rows: rows are added, set or removed. That the server's state changes
/// by a closed list of effects is its own choice, not the protocol's.
#[derive(Drop)]
pub enum Effect {
    /// A conference is added; all that is not told here is 0, but for nice and keep-commented,
    /// which are 77, and last-written, which is its creation.
    ConfAdded {
        number: u32,
        name: Bytes,
        /// The eight bits of a conference's type.
        kind: u8,
        at: Moment,
        creator: u32,
        supervisor: u32,
    },
    ConfGone {
        number: u32,
    },
    ConfNamed {
        number: u32,
        name: Bytes,
    },
    ConfField {
        number: u32,
        field: ConfField,
    },
    /// A person is added to a letterbox; all that is not told here is 0 or empty.
    PersonAdded {
        number: u32,
        /// The sixteen bits of a person's privileges.
        privileges: u16,
        /// The eight bits of a person's flags.
        flags: u8,
        /// What is told as its last login until there is one.
        last_login: Moment,
    },
    PersonGone {
        number: u32,
    },
    PersonField {
        number: u32,
        field: PersonField,
    },
    /// A person has another password, of which a hash alone is kept.
    Password {
        number: u32,
        hash: [u8; 32],
    },
    /// A person logs in: the last login, the user name that is told of it, and one session more.
    LoggedIn {
        number: u32,
        at: Moment,
        /// At most 1,024 bytes.
        user: Bytes,
    },
    /// A counter of a person rises, and stops at 4294967295.
    Counted {
        number: u32,
        counter: Counter,
        by: u64,
    },
    TextAdded {
        number: u32,
        /// 0 for an anonymous text.
        author: u32,
        at: Moment,
        body: Bytes,
    },
    TextGone {
        number: u32,
    },
    RecipientAdded(Recipient),
    RecipientGone {
        text: u32,
        conference: u32,
    },
    LinkAdded(TextLink),
    LinkGone {
        child: u32,
        parent: u32,
        footnote: bool,
    },
    /// A membership is added, or changed: its place among the person's memberships too.
    MemberSet {
        person: u32,
        conference: u32,
        position: u32,
        priority: u8,
        added_by: u32,
        added_at: Moment,
        /// The eight bits of a membership's type.
        kind: u8,
    },
    MemberGone {
        person: u32,
        conference: u32,
    },
    /// A person has read these local numbers of a conference, and no others.
    ReadSet {
        person: u32,
        conference: u32,
        at: Moment,
        ranges: ReadRanges,
    },
    MarkSet {
        person: u32,
        text: u32,
        kind: u8,
    },
    MarkGone {
        person: u32,
        text: u32,
    },
    AuxAdded {
        /// Whether the object is a text; else it is a conference.
        on_text: bool,
        object: u32,
        item: AuxRow,
    },
    AuxGone {
        /// Whether the object is a text; else it is a conference.
        on_text: bool,
        object: u32,
        number: u32,
    },
    /// A text gets a local number among those that its author made.
    Created {
        person: u32,
        local: u32,
        text: u32,
    },
}

/// What of a conference is set, and to what.
#[derive(Clone, Copy, Debug)]
pub enum ConfField {
    Presentation(u32),
    Motd(u32),
    Supervisor(u32),
    PermittedSubmitters(u32),
    SuperConference(u32),
    /// The eight bits of its type.
    Kind(u8),
    Nice(u32),
    KeepCommented(u32),
    Expire(u32),
    LastWritten(Moment),
}

/// What of a person is set, and to what.
#[derive(Clone, Copy, Debug)]
pub enum PersonField {
    /// The sixteen bits of its privileges.
    Privileges(u16),
    /// The eight bits of its flags.
    Flags(u8),
    UserArea(u32),
}

/// What is counted of a person.
#[derive(Clone, Copy, Debug, PartialEq, Eq)]
pub enum Counter {
    /// The seconds that it was logged in.
    TimePresent,
    CreatedLines,
    CreatedBytes,
    ReadTexts,
    TextFetches,
    CreatedPersons,
    CreatedConferences,
}
