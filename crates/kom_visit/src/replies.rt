//! What replies tell.

use kom_types::{
    Bytes, ConferenceNames, DynamicSessions, Mapping, Memberships, Numbers, Reply, TextStat,
};
use std::alloc::Global;

/// Why a server refused something: the code and the status of an error.
#[derive(Clone, Copy, Debug)]
pub(crate) struct Refusal {
    pub(crate) code: u32,
    pub(crate) status: u32,
}

/// The refusal that a reply is, if it is one.
pub(crate) fn refusal_in(reply: Reply) -> Option<Refusal> {
    match reply {
        Reply::Refused(code, status) => Some(Refusal { code, status }),
        _ => None,
    }
}

/// The text that was written, if a reply tells it.
pub(crate) fn text_in(reply: Reply) -> Result<Option<u32>, Refusal> {
    match reply {
        Reply::Number(text) => Ok(Some(text)),
        Reply::Refused(code, status) => Err(Refusal { code, status }),
        _ => Ok(None),
    }
}

/// The names that match, if a reply tells them.
pub(crate) fn names_in(reply: Reply) -> Result<Option<ConferenceNames>, Refusal> {
    match reply {
        Reply::ConferenceNames(names) => Ok(Some(names.into_inner())),
        Reply::Refused(code, status) => Err(Refusal { code, status }),
        _ => Ok(None),
    }
}

/// The name of a conference, if a reply tells it.
pub(crate) fn name_in(reply: Reply) -> Option<Bytes> {
    match reply {
        Reply::UConference(conference) => Some(conference.into_inner().name),
        _ => None,
    }
}

/// What is told of a text, if a reply tells it.
pub(crate) fn stat_in(reply: Reply) -> Option<TextStat> {
    match reply {
        Reply::TextStat(stat) => Some(stat.into_inner()),
        _ => None,
    }
}

/// Who wrote a text, if a reply tells it.
pub(crate) fn author_in(reply: Reply) -> Option<u32> {
    match reply {
        Reply::TextStat(stat) => Some(stat.get().author),
        _ => None,
    }
}

/// A mapping, if a reply tells it.
pub(crate) fn mapping_in(reply: Reply) -> Option<Mapping> {
    match reply {
        Reply::Mapping(mapping) => Some(mapping.into_inner()),
        _ => None,
    }
}

/// The memberships that a reply tells, or none.
pub(crate) fn memberships_in(alloc: Global, reply: Reply) -> Memberships {
    match reply {
        Reply::Memberships(memberships) => memberships.into_inner(),
        _ => Memberships::new(alloc),
    }
}

/// The numbers that a reply tells, or none.
pub(crate) fn numbers_in(alloc: Global, reply: Reply) -> Numbers {
    match reply {
        Reply::Numbers(numbers) => numbers.into_inner(),
        _ => Numbers::new(alloc),
    }
}

/// The sessions that a reply tells, or none.
pub(crate) fn sessions_in(alloc: Global, reply: Reply) -> DynamicSessions {
    match reply {
        Reply::DynamicSessions(sessions) => sessions.into_inner(),
        _ => DynamicSessions::new(alloc),
    }
}
