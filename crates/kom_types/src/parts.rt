use crate::aux_items::AuxRow;
use crate::effects::Effect;
use crate::memberships::ReadRange;
use crate::raised::Raised;
use crate::times::Moment;

/// A part of a snapshot of the stored rows: an effect, or a counter that is raised. The lists of an
/// effect are borrowed from the rows that are told.
#[derive(Clone, Copy)]
pub enum PartRef<'a> {
    /// An effect that has no list.
    Plain(&'a Effect),
    ConferenceAdded {
        number: u32,
        name: &'a [u8],
        /// The eight bits of a conference's type.
        kind: u8,
        at: Moment,
        creator: u32,
        supervisor: u32,
    },
    LoggedIn {
        number: u32,
        at: Moment,
        user: &'a [u8],
    },
    TextAdded {
        number: u32,
        author: u32,
        at: Moment,
        body: &'a [u8],
    },
    ReadSet {
        person: u32,
        conference: u32,
        at: Moment,
        ranges: &'a [ReadRange],
    },
    ItemAdded {
        on_text: bool,
        object: u32,
        item: &'a AuxRow,
    },
    Raised(Raised),
}
