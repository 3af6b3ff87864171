use crate::aux_items::AuxInputs;
use crate::lists::Bytes;
use crate::times::Moment;

/// A person as it is shown. (Protocol A, "Persons".)
#[derive(Drop)]
pub struct Person {
    /// The user name that was told at its last login.
    pub user: Bytes,
    /// The sixteen bits wheel, admin, statistic, create-pers, create-conf, change-name and ten
    /// spare ones, the first bit highest.
    pub privileges: u16,
    /// The eight bits unread-is-secret and seven reserved ones, the first bit highest.
    pub flags: u8,
    pub last_login: Moment,
    /// A text, or 0.
    pub user_area: u32,
    /// Seconds.
    pub time_present: u32,
    pub sessions: u32,
    pub created_lines: u32,
    pub created_bytes: u32,
    pub read_texts: u32,
    pub text_fetches: u32,
    pub created_persons: u32,
    pub created_conferences: u32,
    pub first_created_local: u32,
    pub created_texts: u32,
    pub marks: u32,
    pub conferences: u32,
}

/// A person as the server keeps it; what it owns, as its texts and memberships, are rows of their
/// own.
#[derive(Drop)]
pub struct PersonRow {
    /// The number of its letterbox.
    pub number: u32,
    /// The sixteen bits of its privileges.
    pub privileges: u16,
    /// The eight bits of its flags.
    pub flags: u8,
    pub last_login: Moment,
    /// The user name that was told at its last login; empty until there is one.
    pub user: Bytes,
    /// A text, or 0.
    pub user_area: u32,
    /// The hash of its number and its password.
    pub hash: [u8; 32],
    /// Seconds; it stops at 4294967295, as all that is counted of a person.
    pub time_present: u32,
    pub sessions: u32,
    pub created_lines: u32,
    pub created_bytes: u32,
    pub read_texts: u32,
    pub text_fetches: u32,
    pub created_persons: u32,
    pub created_conferences: u32,
    /// The number that its next text gets among those that it made.
    pub next_created: u32,
}

/// A person that is to be made.
#[derive(PartialEq, Drop)]
pub struct NewPerson {
    pub name: Bytes,
    pub password: Bytes,
    /// The eight bits of a person's flags.
    pub flags: u8,
    pub aux_items: AuxInputs,
}

/// A person's new password.
#[derive(PartialEq, Drop)]
pub struct PasswordChange {
    pub person: u32,
    /// The password of the caller's person.
    pub old_password: Bytes,
    pub new_password: Bytes,
}
