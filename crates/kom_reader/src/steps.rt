/// What comes next for a reader.
#[derive(Clone, Copy)]
pub enum Step {
    /// To read a comment or a footnote of the branch.
    Branch(u32),
    /// To read the first text of the conference.
    Text(u32),
    /// To go to a conference.
    Go(u32),
    /// To wait: nothing is unread.
    Wait,
}
