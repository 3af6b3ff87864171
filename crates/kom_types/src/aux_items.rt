use crate::lists::{Bytes, Numbers};
use crate::sequence::Sequence;
use crate::times::Moment;

/// An aux-item of a text or a conference. (Protocol A, "Auxiliary Information".)
#[derive(Drop)]
pub struct AuxRow {
    /// Its number among the items of its object, from 1 on.
    pub number: u32,
    pub tag: u32,
    pub creator: u32,
    pub at: Moment,
    /// The eight bits deleted, inherit, secret, hide-creator, dont-garb and three reserved ones,
    /// the first bit highest.
    pub flags: u8,
    /// How often it may still be inherited, plus 1; 0 is without a limit.
    pub limit: u32,
    pub content: Bytes,
}

/// Items by rising number.
pub type AuxRows = Sequence<AuxRow>;

/// An aux-item of an object, as the server keeps it: a row of the store.
#[derive(Drop)]
pub struct ItemRow {
    /// Whether the object is a text; else it is a conference.
    pub on_text: bool,
    /// The number of the text or the conference.
    pub object: u32,
    pub item: AuxRow,
}

/// An aux-item that is to be added. (Protocol A, "Auxiliary Information".)
#[derive(PartialEq, Drop)]
pub struct AuxInput {
    pub tag: u32,
    /// The eight bits of an item's flags.
    pub flags: u8,
    pub inherit_limit: u32,
    pub content: Bytes,
}

/// Items that are to be added, in their order.
pub type AuxInputs = Sequence<AuxInput>;

/// A change of the aux-items of an object.
#[derive(PartialEq, Drop)]
pub struct AuxChange {
    /// The number of the text or the conference.
    pub object: u32,
    /// The numbers of the items to be deleted.
    pub delete: Numbers,
    pub add: AuxInputs,
}

/// What aux-items stand on.
#[derive(Clone, Copy, Debug, PartialEq, Eq)]
pub enum Object {
    Text,
    /// A conference that is no letterbox.
    Conference,
    Letterbox,
}

/// Who changes the aux-items of an object.
#[derive(Clone, Copy, Debug, PartialEq, Eq)]
pub struct Adder {
    /// The person, who is the creator of what is added.
    pub person: u32,
    /// Whether the object is the person's: a text's author and the author's supervisors own it, a
    /// conference's supervisors do, and so does whoever has all rights.
    pub owns: bool,
}
