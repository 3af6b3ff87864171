/// A number that replaying effects alone would leave too low: the next conference or text of all,
/// the next local number of a conference, the next number among the texts that a person made, the
/// next aux-item of a text or of a conference, and how many sessions of a person were counted. That
/// these are the seven, in this order, is this server's own choice.
#[derive(Clone, Copy, Debug, PartialEq, Eq)]
pub enum RaisedCounter {
    Conferences,
    Texts,
    Locals,
    Created,
    TextItems,
    ConferenceItems,
    Sessions,
}

/// A counter is set where replaying effects alone would leave it too low.
#[derive(Clone, Copy, Debug)]
pub struct Raised {
    pub counter: RaisedCounter,
    /// The conference, the person or the text whose counter it is; 0 for the first two.
    pub object: u32,
    pub next: u64,
}
