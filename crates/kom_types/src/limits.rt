//! The limits of what clients send, of what is kept, and of what is told: what has a guard for it
//! stands in docs/protocol.md, "What calls are refused for, and what they change".

/// The last moment: the end of the year 9999. (Protocol A, "Time"; that there is a last one is this
/// server's choice.)
pub const LAST_MOMENT: u64 = 253_402_300_799;

/// How many bytes a stream has at most. (docs/protocol.md, "The stream".)
pub const LONGEST_STREAM: u64 = 1 << 62;

/// How many bytes a line that is read has at most, its line feed counted, a server's line by a
/// client too. (docs/protocol.md, "The stream".)
pub const LONGEST_LINE: usize = 2_097_152;

/// How many bytes the line of a reply has at most, its line feed counted. (docs/protocol.md, "The
/// stream".)
pub const LONGEST_REPLY: usize = 4_194_304;

/// How many elements an array has at most that a client sends. (docs/protocol.md, "Calls".)
pub const LONGEST_ARRAY: u32 = 2_048;

/// How many bytes a name has at most, and a pattern for names, what a person is said to be doing,
/// and the name and the version of a client. (docs/protocol.md, guard name, calls 4, 69 and 76.)
pub const LONGEST_NAME: u32 = 60;

/// How many bytes the user name of a greeting has at most. (docs/protocol.md, "The stream".)
pub const LONGEST_USER_NAME: usize = 1024;

/// How many bytes a password has at most. (docs/protocol.md, calls 8 and 89.)
pub const LONGEST_PASSWORD: u32 = 128;

/// How many bytes there are at most in what a session sends to others. (docs/protocol.md, call 53.)
pub const LONGEST_MESSAGE: u32 = 10_000;

/// How many bytes a text has at most. (docs/protocol.md, call 86.)
pub const LONGEST_BODY: u32 = 1_048_576;

/// How many bytes the contents of an aux-item have at most. (docs/protocol.md, "Aux-items".)
pub const LONGEST_CONTENT: usize = 16_384;

/// The greatest number that a conference gets. (docs/protocol.md, guard drawn.)
pub const LAST_CONFERENCE: u32 = 65_535;

/// The greatest number that a text gets, in all and in a conference or among those of its author,
/// and that an aux-item gets among those of a text or a conference. (docs/protocol.md, calls 30, 86
/// and 92, where no number is left.)
pub const LAST_DRAWN: u32 = 4_294_967_294;

/// How many memberships a person has at most. (docs/protocol.md, call 100.)
pub const MOST_MEMBERSHIPS: usize = 2000;

/// How many recipients a text has at most. (docs/protocol.md, call 30.)
pub const MOST_RECIPIENTS: usize = 100;

/// How many comments a text has at most, and to how many texts it is one. (docs/protocol.md, call
/// 32.)
pub const MOST_COMMENTS: usize = 1000;

/// How many footnotes a text has at most, and to how many texts it is one. (docs/protocol.md, call
/// 37.)
pub const MOST_FOOTNOTES: usize = 100;

/// How many marks a person has at most. (docs/protocol.md, call 72.)
pub const MOST_MARKS: usize = 2000;

/// How many aux-items a text, or a conference, has at most. (docs/protocol.md, "Aux-items".)
pub const MOST_AUX_ITEMS: usize = 100;

/// How many texts a mapping tells of at most. (docs/protocol.md, guard count.)
pub const MOST_MAPPED: u32 = 255;

/// How many sessions are opened at most while a server runs. (docs/protocol.md, "Sessions".)
pub const MOST_SESSIONS: u32 = u32::MAX;

/// How many items wait for a session at most. (docs/protocol.md, "Sessions".)
pub const MOST_WAITING_ITEMS: usize = 4096;

/// How many bytes the items that wait for a session print to at most. (docs/protocol.md,
/// "Sessions".)
pub const MOST_WAITING_BYTES: u64 = 33_554_432;
