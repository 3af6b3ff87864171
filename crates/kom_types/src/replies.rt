use crate::boxed::Boxed;
use crate::conferences::{Conference, ConferenceNames, UConference};
use crate::lists::{Bytes, Numbers};
use crate::memberships::{Members, Membership, Memberships};
use crate::persons::Person;
use crate::server::{Info, VersionInfo};
use crate::sessions::{DynamicSessions, StaticSession};
use crate::texts::{Mapping, Marks, TextStat};
use crate::times::Moment;

/// What a call is answered. A result that is longer than two numbers stands in a box. (Protocol A,
/// "Server Replies".)
#[derive(Drop)]
pub enum Reply {
    /// A good reply without a result.
    Done,
    /// A refusal, with the error's code and status.
    Refused(u32, u32),
    Number(u32),
    /// The time of this moment.
    Time(Moment),
    Text(Boxed<Bytes>),
    Numbers(Boxed<Numbers>),
    Marks(Boxed<Marks>),
    TextStat(Boxed<TextStat>),
    Mapping(Boxed<Mapping>),
    Conference(Boxed<Conference>),
    UConference(Boxed<UConference>),
    ConferenceNames(Boxed<ConferenceNames>),
    Person(Boxed<Person>),
    Membership(Boxed<Membership>),
    Memberships(Boxed<Memberships>),
    Members(Boxed<Members>),
    DynamicSessions(Boxed<DynamicSessions>),
    StaticSession(Boxed<StaticSession>),
    VersionInfo(Boxed<VersionInfo>),
    Info(Boxed<Info>),
}
