ghost use Rattle.std.specs.Prelude.{◌≡◌};
ghost use Rattle.kom_types.specs.calls.Numbers.{number_of_call};

use crate::aux_items::AuxChange;
use crate::boxed::Boxed;
use crate::conferences::NewConference;
use crate::lists::{Bytes, Numbers};
use crate::memberships::ReadRanges;
use crate::passwords::LoginPassword;
use crate::persons::{NewPerson, PasswordChange};
use crate::sessions::ClientVersion;
use crate::texts::NewText;

/// What a client asks, with its arguments in the order of the protocol. Larger arguments stand in a
/// box. (Protocol A, "Protocol Requests".)
#[derive(PartialEq, Drop)]
pub enum Call {
    /// Call 1: whoever is logged in is logged out.
    Logout,
    /// Call 2: the person goes to a conference, or with 0 to none.
    ChangeConference {
        conference: u32,
    },
    /// Call 4: what the person is said to be doing.
    ChangeWhatIAmDoing {
        doing: Bytes,
    },
    /// Call 42: the person uses its rights, or with 0 does not.
    Enable {
        level: u8,
    },
    /// Call 53: a message for the members of a conference, or with 0 for everybody.
    SendMessage {
        recipient: u32,
        message: Bytes,
    },
    /// Call 55: a session is ended, the caller's own with 0.
    Disconnect {
        session: u32,
    },
    /// Call 56: the number of the caller's session.
    WhoAmI,
    /// Call 62: a person is logged in.
    Login {
        person: u32,
        password: Boxed<LoginPassword>,
        invisible: bool,
    },
    /// Call 69: what the client tells of itself.
    SetClientVersion(Boxed<ClientVersion>),
    /// Call 70: the name of a session's client.
    GetClientName {
        session: u32,
    },
    /// Call 71: the version of a session's client.
    GetClientVersion {
        session: u32,
    },
    /// Call 80: which messages the session accepts.
    AcceptAsync {
        numbers: Numbers,
    },
    /// Call 81: which messages it accepts is asked.
    QueryAsync,
    /// Call 82: the person did something.
    UserActive,
    /// Call 83: the sessions that are visible, or invisible, and idle for at most so many
    /// seconds; with 0 for however long.
    WhoIsOnDynamic {
        visible: bool,
        invisible: bool,
        idle: u32,
    },
    /// Call 84: what does not change in a session.
    GetStaticSessionInfo {
        session: u32,
    },
    /// Call 35: what time it is.
    GetTime,
    /// Call 43: the server is to make all stable.
    SyncKom,
    /// Call 44: the server is to end.
    ShutdownKom {
        value: u32,
    },
    /// Call 75: what the server speaks, and what it is.
    GetVersionInfo,
    /// Call 85: how letters of names are folded.
    GetCollateTable,
    /// Call 94: what the server tells of itself.
    GetInfo,
    /// Call 7: a person's privileges.
    SetPrivBits {
        person: u32,
        privileges: u16,
    },
    /// Call 8: a person's password.
    SetPasswd(Boxed<PasswordChange>),
    /// Call 49: a person is asked for.
    GetPersonStat {
        person: u32,
    },
    /// Call 57: the text that keeps settings of a person's clients.
    SetUserArea {
        person: u32,
        text: u32,
    },
    /// Call 89: a person is made.
    CreatePerson(Boxed<NewPerson>),
    /// Call 106: a person's flags.
    SetPersFlags {
        person: u32,
        flags: u8,
    },
    /// Call 3: a conference is named anew.
    ChangeName {
        conference: u32,
        name: Bytes,
    },
    /// Call 11: a conference goes.
    DeleteConf {
        conference: u32,
    },
    /// Call 16: the text that presents a conference.
    SetPresentation {
        conference: u32,
        text: u32,
    },
    /// Call 17: the text that is shown on a conference's door.
    SetEtcMotd {
        conference: u32,
        text: u32,
    },
    /// Call 18: who supervises a conference.
    SetSupervisor {
        conference: u32,
        supervisor: u32,
    },
    /// Call 19: whose members may write to a conference.
    SetPermittedSubmitters {
        conference: u32,
        submitters: u32,
    },
    /// Call 20: where comments go that may not be written to a conference.
    SetSuperConf {
        conference: u32,
        super_conference: u32,
    },
    /// Call 21: a conference's type, of which four bits or eight are sent.
    SetConfType {
        conference: u32,
        kind: u8,
    },
    /// Call 22: for how many days a conference's texts are kept.
    SetGarbNice {
        conference: u32,
        nice: u32,
    },
    /// Call 76: the persons, or the conferences, whose names match.
    LookupZName {
        name: Bytes,
        persons: bool,
        conferences: bool,
    },
    /// Call 78: what of a conference most clients want.
    GetUconfStat {
        conference: u32,
    },
    /// Call 88: a conference is made.
    CreateConf(Boxed<NewConference>),
    /// Call 91: a conference is asked for.
    GetConfStat {
        conference: u32,
    },
    /// Call 97: when a conference expires.
    SetExpire {
        conference: u32,
        expire: u32,
    },
    /// Call 105: for how many days texts with comments are kept.
    SetKeepCommented {
        conference: u32,
        days: u32,
    },
    /// Call 114: the next number of a conference.
    FirstUnusedConfNo,
    /// Call 116: the next conference above a number.
    FindNextConfNo {
        start: u32,
    },
    /// Call 117: the next conference below a number.
    FindPreviousConfNo {
        start: u32,
    },
    /// Call 23: the person's marks.
    GetMarks,
    /// Call 25: the bytes of a text from one place to another.
    GetText {
        text: u32,
        start: u32,
        end: u32,
    },
    /// Call 29: a text goes.
    DeleteText {
        text: u32,
    },
    /// Call 30: a text gets a recipient.
    AddRecipient {
        text: u32,
        conference: u32,
        kind: u32,
    },
    /// Call 31: a text loses a recipient.
    SubRecipient {
        text: u32,
        conference: u32,
    },
    /// Call 32: a text becomes a comment to another.
    AddComment {
        text: u32,
        parent: u32,
    },
    /// Call 33: a text is no comment any more.
    SubComment {
        text: u32,
        parent: u32,
    },
    /// Call 37: a text becomes a footnote to another.
    AddFootnote {
        text: u32,
        parent: u32,
    },
    /// Call 38: a text is no footnote any more.
    SubFootnote {
        text: u32,
        parent: u32,
    },
    /// Call 60: the next text above a number.
    FindNextTextNo {
        start: u32,
    },
    /// Call 61: the next text below a number.
    FindPreviousTextNo {
        start: u32,
    },
    /// Call 72: the person marks a text.
    MarkText {
        text: u32,
        kind: u8,
    },
    /// Call 73: the person takes a mark away.
    UnmarkText {
        text: u32,
    },
    /// Call 86: a text is made.
    CreateText(Boxed<NewText>),
    /// Call 87: a text without an author is made.
    CreateAnonymousText(Boxed<NewText>),
    /// Call 90: what is told of a text beside its body.
    GetTextStat {
        text: u32,
    },
    /// Call 103: a conference's texts from a local number on.
    LocalToGlobal {
        conference: u32,
        first: u32,
        count: u32,
    },
    /// Call 104: an author's texts from a local number on.
    MapCreatedTexts {
        author: u32,
        first: u32,
        count: u32,
    },
    /// Call 115: the next number of a text.
    FirstUnusedTextNo,
    /// Call 121: a conference's last texts below a local number.
    LocalToGlobalReverse {
        conference: u32,
        ceiling: u32,
        count: u32,
    },
    /// Call 15: a membership ends.
    SubMember {
        conference: u32,
        person: u32,
    },
    /// Call 27: texts of a conference were read.
    MarkAsRead {
        conference: u32,
        locals: Numbers,
    },
    /// Call 40: all but the last texts of a conference were read.
    SetUnread {
        conference: u32,
        count: u32,
    },
    /// Call 52: where a person has something unread.
    GetUnreadConfs {
        person: u32,
    },
    /// Call 77: the texts of a conference up to this were read.
    SetLastRead {
        conference: u32,
        local: u32,
    },
    /// Call 100: a membership begins or changes.
    AddMember {
        conference: u32,
        person: u32,
        priority: u8,
        place: u32,
        kind: u8,
    },
    /// Call 101: the members of a conference.
    GetMembers {
        conference: u32,
        first: u32,
        count: u32,
    },
    /// Call 102: a membership's type.
    SetMembershipType {
        person: u32,
        conference: u32,
        kind: u8,
    },
    /// Call 107: a membership, with at most so many ranges; with 0 with all.
    QueryReadTexts {
        person: u32,
        conference: u32,
        want_ranges: bool,
        most: u32,
    },
    /// Call 108: the memberships of a person, each with at most so many ranges; with 0 with all.
    GetMembership {
        person: u32,
        first: u32,
        count: u32,
        want_ranges: bool,
        most: u32,
    },
    /// Call 109: a text of a conference is unread again.
    MarkAsUnread {
        conference: u32,
        local: u32,
    },
    /// Call 110: which texts of a conference were read.
    SetReadRanges {
        conference: u32,
        ranges: ReadRanges,
    },
    /// Call 92: aux-items of a text go and come.
    ModifyTextInfo(Boxed<AuxChange>),
    /// Call 93: aux-items of a conference go and come.
    ModifyConfInfo(Boxed<AuxChange>),
    /// Call 96: the tags that the server knows.
    QueryPredefinedAuxItems,
    /// What the reader refused, with the error's code and status.
    Refused(u32, u32),
}

impl Call {
    /// The number of a call; of what the reader refused, 0. (Protocol A, "Protocol Requests".)
    pub fn number(&self) -> u32
        ensures { result ≡ number_of_call self.now }
    {
        match self {
            Call::Logout => 1,
            Call::ChangeConference { .. } => 2,
            Call::ChangeName { .. } => 3,
            Call::ChangeWhatIAmDoing { .. } => 4,
            Call::SetPrivBits { .. } => 7,
            Call::SetPasswd(_) => 8,
            Call::DeleteConf { .. } => 11,
            Call::SubMember { .. } => 15,
            Call::SetPresentation { .. } => 16,
            Call::SetEtcMotd { .. } => 17,
            Call::SetSupervisor { .. } => 18,
            Call::SetPermittedSubmitters { .. } => 19,
            Call::SetSuperConf { .. } => 20,
            Call::SetConfType { .. } => 21,
            Call::SetGarbNice { .. } => 22,
            Call::GetMarks => 23,
            Call::GetText { .. } => 25,
            Call::MarkAsRead { .. } => 27,
            Call::DeleteText { .. } => 29,
            Call::AddRecipient { .. } => 30,
            Call::SubRecipient { .. } => 31,
            Call::AddComment { .. } => 32,
            Call::SubComment { .. } => 33,
            Call::GetTime => 35,
            Call::AddFootnote { .. } => 37,
            Call::SubFootnote { .. } => 38,
            Call::SetUnread { .. } => 40,
            Call::Enable { .. } => 42,
            Call::SyncKom => 43,
            Call::ShutdownKom { .. } => 44,
            Call::GetPersonStat { .. } => 49,
            Call::GetUnreadConfs { .. } => 52,
            Call::SendMessage { .. } => 53,
            Call::Disconnect { .. } => 55,
            Call::WhoAmI => 56,
            Call::SetUserArea { .. } => 57,
            Call::FindNextTextNo { .. } => 60,
            Call::FindPreviousTextNo { .. } => 61,
            Call::Login { .. } => 62,
            Call::SetClientVersion(_) => 69,
            Call::GetClientName { .. } => 70,
            Call::GetClientVersion { .. } => 71,
            Call::MarkText { .. } => 72,
            Call::UnmarkText { .. } => 73,
            Call::GetVersionInfo => 75,
            Call::LookupZName { .. } => 76,
            Call::SetLastRead { .. } => 77,
            Call::GetUconfStat { .. } => 78,
            Call::AcceptAsync { .. } => 80,
            Call::QueryAsync => 81,
            Call::UserActive => 82,
            Call::WhoIsOnDynamic { .. } => 83,
            Call::GetStaticSessionInfo { .. } => 84,
            Call::GetCollateTable => 85,
            Call::CreateText(_) => 86,
            Call::CreateAnonymousText(_) => 87,
            Call::CreateConf(_) => 88,
            Call::CreatePerson(_) => 89,
            Call::GetTextStat { .. } => 90,
            Call::GetConfStat { .. } => 91,
            Call::ModifyTextInfo(_) => 92,
            Call::ModifyConfInfo(_) => 93,
            Call::GetInfo => 94,
            Call::QueryPredefinedAuxItems => 96,
            Call::SetExpire { .. } => 97,
            Call::AddMember { .. } => 100,
            Call::GetMembers { .. } => 101,
            Call::SetMembershipType { .. } => 102,
            Call::LocalToGlobal { .. } => 103,
            Call::MapCreatedTexts { .. } => 104,
            Call::SetKeepCommented { .. } => 105,
            Call::SetPersFlags { .. } => 106,
            Call::QueryReadTexts { .. } => 107,
            Call::GetMembership { .. } => 108,
            Call::MarkAsUnread { .. } => 109,
            Call::SetReadRanges { .. } => 110,
            Call::FirstUnusedConfNo => 114,
            Call::FirstUnusedTextNo => 115,
            Call::FindNextConfNo { .. } => 116,
            Call::FindPreviousConfNo { .. } => 117,
            Call::LocalToGlobalReverse { .. } => 121,
            Call::Refused(_, _) => 0,
        }
    }
}
