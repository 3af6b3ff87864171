/// What one row more takes of the room that there is without memory: a place in a table, or in a
/// list of that table.
#[derive(Clone, Copy, Debug, PartialEq, Eq)]
pub enum Need {
    /// A place for a text.
    Text,
    /// A place for a recipient.
    Recipient,
    /// A place among the recipients of a text.
    RecipientOf(u32),
    /// A place among the local numbers of a conference.
    Local(u32),
    /// A place for a link.
    Link,
    /// A place among the comments, or the footnotes, that a text is.
    LinkFrom(u32, bool),
    /// A place among the comments, or the footnotes, to a text.
    LinkInto(u32, bool),
    /// A place for a mark.
    Mark,
    /// A place among the marks of a person.
    MarkOf(u32),
    /// A place among the marks on a text.
    MarkOn(u32),
    /// A place among the numbers of the texts that a person made.
    Created(u32),
}
