//! The bits of types, flags and privileges, as the bytes and words in which they are on. (Protocol
//! A, "Bit String".)
ghost use Rattle.std.specs.Prelude.{◌≡◌};
ghost use Rattle.kom_types.specs.tables.Conferences.{is_letterbox, is_secret_conference};

/// Of a conference's type: its texts are hidden from strangers. (Protocol A, "Conferences".)
pub const READ_PROTECTED: u8 = 128;

/// Of a conference's type: it is itself hidden from strangers. (Protocol A, "Conferences".)
pub const SECRET_CONFERENCE: u8 = 32;

/// Of a conference's type: it is a person's letterbox. (Protocol A, "Conferences".)
pub const LETTERBOX: u8 = 16;

/// Of a conference's type: texts without an author may be sent to it. (Protocol A, "Conferences".)
pub const ALLOWS_ANONYMOUS: u8 = 8;

/// Of a conference's type: it takes no secret memberships. (Protocol A, "Conferences".)
pub const FORBIDS_SECRET: u8 = 4;

/// The first four bits of a conference's type, which are all that a look-up by name tells.
/// (Protocol A, "lookup-z-name".)
pub const FIRST_CONFERENCE_BITS: u8 = 240;

/// The type of a letterbox as it is made: read-protected, a letterbox, and open to texts without an
/// author. (docs/protocol.md, call 89.)
pub const LETTERBOX_TYPE: u8 = 152;

/// The type of the first conferences of a new server, which are open to all, and to texts without
/// an author. (docs/protocol.md, "What calls are refused for, and what they change", at its end.)
pub const TYPE_FOR_ALL: u8 = 8;

/// Of a membership's type: the person was invited, and has not joined yet. (Protocol A,
/// "Membership".)
pub const INVITATION: u8 = 128;

/// Of a membership's type: the person takes no messages of new texts. (Protocol A, "Membership".)
pub const PASSIVE_MEMBERSHIP: u8 = 64;

/// Of a membership's type: it is shown to few. (Protocol A, "Membership".)
pub const SECRET_MEMBERSHIP: u8 = 32;

/// Of a membership's type: what is sent to the conference by call 53 is heard if the membership is
/// passive, and else not. (Protocol A, "Membership".)
pub const PASSIVE_MESSAGE_INVERT: u8 = 16;

/// Of a person's flags: it keeps to itself what it has read. (Protocol A, "Persons".)
pub const UNREAD_IS_SECRET: u8 = 128;

/// Of an aux-item's flags: comments of its text inherit it. (Protocol A, "Auxiliary Information".)
pub const INHERITED_ITEM: u8 = 64;

/// Of an aux-item's flags: it is shown to few. (Protocol A, "Auxiliary Information".)
pub const SECRET_ITEM: u8 = 32;

/// Of an aux-item's flags: who added it is told to few. (Protocol A, "Auxiliary Information".)
pub const HIDE_CREATOR: u8 = 16;

/// Of an aux-item's flags: deleted, and those that are reserved, which no client may set.
/// (docs/protocol.md, "Aux-items".)
pub const WRONG_ITEM_FLAGS: u8 = 135;

/// Of a session's flags: who is logged in is so invisibly. (Protocol A, "Who is Logged On".)
pub const INVISIBLE_SESSION: u8 = 128;

/// All of a session's flags but invisible, which a login sets anew. (docs/protocol.md, call 62.)
pub const ALL_BUT_INVISIBLE: u8 = 127;

/// Of a session's flags: its client has told by call 82 that somebody is active, user-active-used.
/// (Protocol A, "Who is Logged On".)
pub const USER_ACTIVE_USED: u8 = 64;

/// All of a session's flags but user-active-used and user-absent. (docs/protocol.md, call 82.)
pub const ALL_BUT_ACTIVE_AND_ABSENT: u8 = 159;

/// The privileges wheel and admin, either of which lets a session be strong. (docs/protocol.md,
/// guard strong.)
pub const WHEEL_AND_ADMIN: u16 = 49_152;

/// The privilege create-pers, to make persons. (Protocol A, "Persons".)
pub const CREATES_PERSONS: u16 = 4096;

/// The privilege create-conf, to make conferences. (Protocol A, "Persons".)
pub const CREATES_CONFERENCES: u16 = 2048;

/// The privileges of a person as it is made: create-pers, create-conf and change-name.
/// (docs/protocol.md, call 89.)
pub const FIRST_PRIVILEGES: u16 = 7168;

/// Every privilege. (Protocol A, "Persons".)
pub const ALL_PRIVILEGES: u16 = 64_512;

/// Whether a conference of this type is a person's letterbox.
pub fn is_letterbox(kind: u8) -> bool
    ensures { result ≡ is_letterbox kind }
{
    kind & LETTERBOX != 0
}

/// Whether a conference of this type is hidden from strangers.
pub fn is_secret_conference(kind: u8) -> bool
    ensures { result ≡ is_secret_conference kind }
{
    kind & SECRET_CONFERENCE != 0
}
