/// Who looks at a row: a person, or 0 if nobody is logged in, by a session that is strong or not.
#[derive(Clone, Copy, Debug, PartialEq, Eq)]
pub struct Viewer {
    pub person: u32,
    /// A strong session sees, reads and is shown everything.
    pub strong: bool,
}
