/// A section of a snapshot: the parts that tell one kind of rows, or raise one kind of counter.
#[derive(Clone, Copy, Debug, PartialEq, Eq)]
pub enum Section {
    Conferences,
    Persons,
    Texts,
    Recipients,
    Links,
    Created,
    Memberships,
    Marks,
    Items,
    NextNumbers,
    NextLocals,
    NextCreated,
    NextTextItems,
    NextConferenceItems,
    Sessions,
}

/// A membership that is told: whose it is, in what, and how many of its person's that joined before
/// it stand before it.
#[derive(Clone, Copy, Debug)]
pub struct Joined {
    pub person: u32,
    pub conference: u32,
    pub rank: u32,
}
