//! The codes with which calls are refused: each that a call, or the reader of calls, can answer.
//! (Protocol A, "Error Codes"; docs/protocol.md, "What calls are refused for, and what they
//! change".)

/// There is no call of this number.
pub const NOT_IMPLEMENTED: u32 = 2;

/// The password is another.
pub const INVALID_PASSWORD: u32 = 4;

/// A string has too many bytes; the status tells how many it may have.
pub const STRING_TOO_LONG: u32 = 5;

/// Nobody is logged in.
pub const LOGIN_FIRST: u32 = 6;

/// 0 is given in the place of a conference or a person.
pub const CONFERENCE_ZERO: u32 = 8;

/// The conference is not there, or is not seen.
pub const UNDEFINED_CONFERENCE: u32 = 9;

/// The person is not there.
pub const UNDEFINED_PERSON: u32 = 10;

/// The caller may not read, write to or join the conference.
pub const ACCESS_DENIED: u32 = 11;

/// The caller may not do this.
pub const PERMISSION_DENIED: u32 = 12;

/// There is no such membership, or it is not shown.
pub const NOT_MEMBER: u32 = 13;

/// The text is not there, or is not read.
pub const NO_SUCH_TEXT: u32 = 14;

/// 0 is given in the place of a text.
pub const TEXT_ZERO: u32 = 15;

/// The local number is above those that were given.
pub const NO_SUCH_LOCAL_TEXT: u32 = 16;

/// 0 is given in the place of a local number.
pub const LOCAL_TEXT_ZERO: u32 = 17;

/// The bytes are no name.
pub const BAD_NAME: u32 = 18;

/// A place or a count is past what there is, or what is told.
pub const INDEX_OUT_OF_RANGE: u32 = 19;

/// A conference that is no letterbox has a name that clashes.
pub const CONFERENCE_EXISTS: u32 = 20;

/// A letterbox has a name that clashes.
pub const PERSON_EXISTS: u32 = 21;

/// A secret conference would not be read-protected.
pub const SECRET_PUBLIC: u32 = 22;

/// A conference would become a letterbox, or a letterbox none.
pub const LETTERBOX: u32 = 23;

/// What a new text names is of no kind that a client may name.
pub const ILLEGAL_MISC: u32 = 25;

/// There is no such kind of recipient.
pub const ILLEGAL_INFO_TYPE: u32 = 26;

/// The conference is a recipient of the text.
pub const ALREADY_RECIPIENT: u32 = 27;

/// The text is a comment to the other.
pub const ALREADY_COMMENT: u32 = 28;

/// The text is a footnote to the other.
pub const ALREADY_FOOTNOTE: u32 = 29;

/// The conference is no recipient of the text, or it is not shown.
pub const NOT_RECIPIENT: u32 = 30;

/// The text is no comment to the other.
pub const NOT_COMMENT: u32 = 31;

/// The text is no footnote to the other.
pub const NOT_FOOTNOTE: u32 = 32;

/// The text has as many recipients as it may have.
pub const RECIPIENT_LIMIT: u32 = 33;

/// The text has, or is, a comment as often as it may.
pub const COMMENT_LIMIT: u32 = 34;

/// The text has, or is, a footnote as often as it may.
pub const FOOTNOTE_LIMIT: u32 = 35;

/// The person has as many marks as it may have.
pub const MARK_LIMIT: u32 = 36;

/// The caller is not the author.
pub const NOT_AUTHOR: u32 = 37;

/// Memory ran out, and nothing was changed.
pub const OUT_OF_MEMORY: u32 = 39;

/// The session has told this before.
pub const CLIENT_IS_CRAZY: u32 = 41;

/// The session is not there, or a call has ended it.
pub const UNDEFINED_SESSION: u32 = 42;

/// The caller has no mark on the text.
pub const NOT_MARKED: u32 = 44;

/// No number is left, or no room for one more membership.
pub const TEMPORARY_FAILURE: u32 = 45;

/// An array that a client sends, or the line of a reply, is too long.
pub const LONG_ARRAY: u32 = 46;

/// The conference takes no texts without an author.
pub const ANONYMOUS_REJECTED: u32 = 47;

/// An aux-item may not be, or is not there.
pub const ILLEGAL_AUX_ITEM: u32 = 48;

/// The caller may not add, or delete, this aux-item.
pub const AUX_ITEM_PERMISSION: u32 = 49;

/// There is no message of this number; the known ones are accepted all the same.
pub const UNKNOWN_ASYNC: u32 = 50;

/// Nobody is there to whom the message is sent.
pub const MESSAGE_NOT_SENT: u32 = 53;

/// The conference takes no secret memberships.
pub const INVALID_MEMBERSHIP_TYPE: u32 = 54;

/// A range begins at 0, or ends before it begins.
pub const INVALID_RANGE: u32 = 55;

/// A range does not begin after the end of the one before it.
pub const INVALID_RANGE_LIST: u32 = 56;

/// A truth value is neither 0 nor 1.
pub const BAD_BOOL: u32 = 61;
