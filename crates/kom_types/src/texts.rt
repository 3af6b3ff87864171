ghost use Rattle.std.specs.Prelude.{◌≡◌};
ghost use Rattle.kom_types.specs.tables.Texts.{lines_of};

use crate::aux_items::{AuxInputs, AuxRows};
use crate::lists::{Bytes, Numbers};
use crate::sequence::Sequence;
use crate::times::Moment;
use memchr::memchr_iter;

/// One thing that a text is linked to. (Protocol A, "Misc-Info".)
#[derive(Clone, Copy, Debug)]
pub enum MiscInfo {
    /// Tag 0: a recipient.
    Recipient(u32),
    /// Tag 1: a recipient of a copy.
    CopyRecipient(u32),
    /// Tag 2: the text that it comments.
    CommentTo(u32),
    /// Tag 3: a comment to it.
    CommentIn(u32),
    /// Tag 4: the text that it is a footnote to.
    FootnoteTo(u32),
    /// Tag 5: a footnote to it.
    FootnoteIn(u32),
    /// Tag 6: its local number at the recipient before this.
    Local(u32),
    /// Tag 7: when it came to the recipient before this.
    Received(Moment),
    /// Tag 8: who sent it to the recipient, or made the link, before this.
    SentBy(u32),
    /// Tag 9: when it was sent.
    SentAt(Moment),
    /// Tag 15: a recipient that is shown to few.
    BlindRecipient(u32),
}

pub type MiscInfos = Sequence<MiscInfo>;

/// One link of a text that is to be made: a tag and its value. Of the two tags whose value is a
/// time, 7 and 9, the value is 0: no text is made with them.
#[derive(Clone, Copy, Debug, PartialEq, Eq)]
pub struct MiscInput {
    pub tag: u32,
    pub value: u32,
}

pub type MiscInputs = Sequence<MiscInput>;

/// What is told of a text beside its body. (Protocol A, "Texts".)
#[derive(Drop)]
pub struct TextStat {
    pub created: Moment,
    /// 0 for an anonymous text.
    pub author: u32,
    pub lines: u32,
    pub chars: u32,
    pub marks: u32,
    pub misc_infos: MiscInfos,
    pub aux_items: AuxRows,
}

/// A text as the server keeps it; its recipients, links, marks and aux-items are rows of their own.
#[derive(Drop)]
pub struct TextRow {
    pub number: u32,
    /// 0 for an anonymous text.
    pub author: u32,
    pub created: Moment,
    pub body: Bytes,
    /// How many line feeds its body has.
    pub lines: u32,
    /// Its number among the texts that its author made, or 0 where it has none.
    pub created_local: u32,
    /// The number that its next aux-item gets.
    pub next_item: u32,
}

/// A recipient of a text: a row of the store. (Protocol A, "Misc-Info".)
#[derive(Clone, Copy, Debug)]
pub struct Recipient {
    pub text: u32,
    pub conference: u32,
    /// 0 for a recipient, 1 for one of a copy, 15 for one that is shown to few.
    pub tag: u8,
    /// The text's local number in the conference.
    pub local: u32,
    /// Who added it later, or 0 where the text was made with it.
    pub sender: u32,
    pub at: Moment,
}

/// A comment's or a footnote's link to the text that it is to: a row of the store. (Protocol A,
/// "Misc-Info".)
#[derive(Clone, Copy, Debug)]
pub struct TextLink {
    pub child: u32,
    pub parent: u32,
    /// Whether it is a footnote; else it is a comment.
    pub footnote: bool,
    /// Who made it later, or 0 where the text was made with it.
    pub sender: u32,
    pub at: Moment,
}

/// A person's mark on a text: a row of the store.
#[derive(Clone, Copy, Debug)]
pub struct MarkRow {
    pub person: u32,
    pub text: u32,
    pub kind: u8,
}

/// A mark as it is shown to the person that set it. (Protocol A, "Marks".)
#[derive(Clone, Copy, Debug, PartialEq, Eq)]
pub struct Mark {
    pub text: u32,
    pub kind: u8,
}

pub type Marks = Sequence<Mark>;

/// A local number, and the text that has it.
#[derive(Clone, Copy, Debug, PartialEq, Eq)]
pub struct LocalText {
    pub local: u32,
    pub text: u32,
}

/// A part of the texts of a conference or an author, by their local numbers. (Protocol A, "Mapping
/// Local to Global Text Numbers".)
#[derive(Drop)]
pub struct Mapping {
    pub begin: u32,
    /// One more than the last local number of which it tells.
    pub end: u32,
    pub later_texts_exist: bool,
    pub block: Block,
}

/// The pairs of a mapping.
#[derive(Drop)]
pub enum Block {
    /// Each local number that has a text, rising, with the text.
    Sparse(Sequence<LocalText>),
    /// The texts of all local numbers from the first one on: there is no gap.
    Dense { first: u32, texts: Numbers },
}

/// A text that is to be made.
#[derive(PartialEq, Drop)]
pub struct NewText {
    pub body: Bytes,
    pub misc_inputs: MiscInputs,
    pub aux_items: AuxInputs,
}

/// How many lines a body has: each ends at a line feed.
pub fn lines_of(body: &[u8]) -> usize
    ensures { result ≡ lines_of body.now }
{
    let mut lines = 0;
    for _ in memchr_iter(b'\n', body) {
        lines += 1;
    }
    lines
}
