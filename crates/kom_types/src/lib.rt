//! The types that all of the server shares: byte lists, moments, calls, replies, acts and their
//! records, and the definitions of the protocol's stream, its reading and its printing.
#![tactic(auto)]

mod acts;
mod answers;
pub mod async_numbers;
mod aux_items;
pub mod aux_tags;
pub mod bits;
mod boxed;
mod byte_kind;
mod calls;
mod conferences;
mod decisions;
mod effects;
pub mod errors;
mod items;
pub mod limits;
mod lists;
mod memberships;
mod messages;
mod parts;
mod passwords;
mod persons;
mod raised;
mod replies;
mod seats;
mod sequence;
mod server;
mod session_changes;
mod sessions;
mod shortage;
mod side;
mod texts;
mod times;

pub use acts::{Act, Entry, Made, Record};
pub use answers::{Answer, NotMade, Why};
pub use aux_items::{Adder, AuxChange, AuxInput, AuxInputs, AuxRow, AuxRows, ItemRow, Object};
pub use boxed::Boxed;
pub use byte_kind::{ByteKind, kind_of_byte};
pub use calls::Call;
pub use conferences::{
    Conference, ConferenceHead, ConferenceName, ConferenceNames, ConferenceRow, NewConference,
    UConference,
};
pub use decisions::{ChangeList, Decision, EffectList};
pub use effects::{ConfField, Counter, Effect, PersonField};
pub use items::Item;
pub use lists::{Bytes, Numbers, Words};
pub use memberships::{
    Member, Members, Membership, MembershipRow, Memberships, Placed, RangesShown, ReadRange,
    ReadRanges,
};
pub use messages::{ChangedItems, Message, NewName, SentMessage};
pub use parts::PartRef;
pub use passwords::{LoginPassword, password_hash};
pub use persons::{NewPerson, PasswordChange, Person, PersonRow};
pub use raised::{Raised, RaisedCounter};
pub use replies::Reply;
pub use seats::Seat;
pub use sequence::Sequence;
pub use server::{Info, VersionInfo};
pub use session_changes::SessionChange;
pub use sessions::{ClientVersion, DynamicSession, DynamicSessions, StaticSession};
pub use shortage::Memory;
pub use side::Side;
pub use texts::{
    Block, LocalText, Mapping, Mark, MarkRow, Marks, MiscInfo, MiscInfos, MiscInput, MiscInputs,
    NewText, Recipient, TextLink, TextRow, TextStat, lines_of,
};
pub use times::{Moment, Time};
