//! The tags of the aux-items that this server knows, by the names of Protocol A. (Protocol A,
//! "Predefined Aux-Items".)

/// The type of the contents of a text.
pub const CONTENT_TYPE: u32 = 1;

/// A short reply to a text.
pub const FAST_REPLY: u32 = 2;

/// A text, a conference or a person that an object refers to.
pub const CROSS_REFERENCE: u32 = 3;

/// The author wants no comments.
pub const NO_COMMENTS: u32 = 4;

/// The author wants comments for itself alone.
pub const PERSONAL_COMMENT: u32 = 5;

/// The author wants to be told who has read a text.
pub const REQUEST_CONFIRMATION: u32 = 6;

/// A person has read a text.
pub const READ_CONFIRM: u32 = 7;

/// Where a person wants to be sent letters.
pub const REDIRECT: u32 = 8;

/// Another name of a conference.
pub const ALTERNATE_NAME: u32 = 10;

/// The address of a conference for electronic mail.
pub const E_MAIL_ADDRESS: u32 = 13;

/// A text that answers what is often asked.
pub const FAQ_TEXT: u32 = 14;

/// The client that made a text.
pub const CREATING_SOFTWARE: u32 = 15;
