use crate::aux_items::AuxRows;
use crate::boxed::Boxed;
use crate::lists::Bytes;
use crate::texts::TextStat;

/// What a session is told without having asked, if it accepts the number. Longer ones stand in a
/// box. (Protocol A, "Asynchronous Messages".)
#[derive(Drop)]
pub enum Message {
    /// Message 5: a conference was named anew.
    NewName(Boxed<NewName>),
    /// Message 7: the server makes all stable.
    SyncDatabase,
    /// Message 8: the receiver's membership in a conference ended.
    LeaveConference {
        conference: u32,
    },
    /// Message 9: a person logged in.
    Login {
        person: u32,
        session: u32,
    },
    /// Message 12: somebody says something to the members of a conference.
    SendMessage(Boxed<SentMessage>),
    /// Message 13: a person logged out.
    Logout {
        person: u32,
        session: u32,
    },
    /// Message 14: a text went.
    DeletedText {
        text: u32,
        stat: Boxed<TextStat>,
    },
    /// Message 15: a text was made.
    NewText {
        text: u32,
        stat: Boxed<TextStat>,
    },
    /// Message 16: a text got a recipient.
    NewRecipient {
        text: u32,
        conference: u32,
        kind: u32,
    },
    /// Message 17: a text lost a recipient.
    SubRecipient {
        text: u32,
        conference: u32,
        kind: u32,
    },
    /// Message 18: the receiver became a member of a conference.
    NewMembership {
        person: u32,
        conference: u32,
    },
    /// Message 19: the receiver has another user area.
    NewUserArea {
        person: u32,
        old_text: u32,
        new_text: u32,
    },
    /// Message 20: a conference has another presentation.
    NewPresentation {
        conference: u32,
        old_text: u32,
        new_text: u32,
    },
    /// Message 21: another text is shown on a conference's door.
    NewMotd {
        conference: u32,
        old_text: u32,
        new_text: u32,
    },
    /// Message 22: aux-items of a text went and came.
    TextAuxChanged(Boxed<ChangedItems>),
}

/// A conference's old name and its new one.
#[derive(Drop)]
pub struct NewName {
    pub conference: u32,
    pub old_name: Bytes,
    pub new_name: Bytes,
}

/// What somebody says.
#[derive(Drop)]
pub struct SentMessage {
    /// A conference, or 0 for everybody.
    pub recipient: u32,
    pub sender: u32,
    pub text: Bytes,
}

/// The aux-items that a text lost and got.
#[derive(Drop)]
pub struct ChangedItems {
    pub text: u32,
    pub deleted: AuxRows,
    pub added: AuxRows,
}
