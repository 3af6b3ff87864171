//! The numbers of messages, by the names of Protocol A. (Protocol A, "Asynchronous Messages".)

/// A text was made, told without its aux-items: no session is sent it.
pub const NEW_TEXT_OLD: u32 = 0;

/// Obsolete: no session is sent it.
pub const I_AM_OFF: u32 = 1;

/// Obsolete: no session is sent it.
pub const I_AM_ON_OBSOLETE: u32 = 2;

/// A conference was named anew.
pub const NEW_NAME: u32 = 5;

/// A session changed what it is doing: no session is sent it.
pub const I_AM_ON: u32 = 6;

/// The server makes all stable.
pub const SYNC_DB: u32 = 7;

/// The receiver's membership in a conference ended.
pub const LEAVE_CONF: u32 = 8;

/// A person logged in.
pub const LOGIN: u32 = 9;

/// A connection was refused: no session is sent it.
pub const REJECTED_CONNECTION: u32 = 11;

/// Somebody says something to the members of a conference, or to all.
pub const SEND_MESSAGE: u32 = 12;

/// A person logged out.
pub const LOGOUT: u32 = 13;

/// A text went.
pub const DELETED_TEXT: u32 = 14;

/// A text was made.
pub const NEW_TEXT: u32 = 15;

/// A text got a recipient.
pub const NEW_RECIPIENT: u32 = 16;

/// A text lost a recipient.
pub const SUB_RECIPIENT: u32 = 17;

/// The receiver became a member of a conference.
pub const NEW_MEMBERSHIP: u32 = 18;

/// The receiver has another user area.
pub const NEW_USER_AREA: u32 = 19;

/// A conference has another presentation.
pub const NEW_PRESENTATION: u32 = 20;

/// Another text is shown on a conference's door.
pub const NEW_MOTD: u32 = 21;

/// Aux-items of a text went and came.
pub const TEXT_AUX_CHANGED: u32 = 22;

/// The numbers of messages that a session may accept, rising.
pub const MESSAGE_NUMBERS: [u32; 20] = [
    NEW_TEXT_OLD,
    I_AM_OFF,
    I_AM_ON_OBSOLETE,
    NEW_NAME,
    I_AM_ON,
    SYNC_DB,
    LEAVE_CONF,
    LOGIN,
    REJECTED_CONNECTION,
    SEND_MESSAGE,
    LOGOUT,
    DELETED_TEXT,
    NEW_TEXT,
    NEW_RECIPIENT,
    SUB_RECIPIENT,
    NEW_MEMBERSHIP,
    NEW_USER_AREA,
    NEW_PRESENTATION,
    NEW_MOTD,
    TEXT_AUX_CHANGED,
];
