//! What may stand at the beginning of a line: a blank, or the program's own words.
ghost use Rattle.std.specs.Prelude.{◌≡◌};
ghost use Rattle.kom_screen.specs.Fronts.{words_of};

/// What stands at the beginning of a line.
#[derive(Clone, Copy)]
pub enum Front {
    Blank,
    /// A text's number.
    Number(u32),
    /// The bracket of a prompt, or of a text's end.
    Bracket,
    /// The star before what came unasked.
    Star,
    Welcome,
    Subject,
    Recipient,
    Copy,
    BlindCopy,
    CommentTo,
    FootnoteTo,
    CommentIn,
    FootnoteIn,
    /// The rule above a text's lines.
    Rule,
    /// The question whether a long text goes on.
    More,
}

/// The words of a front, but for a blank and a number.
pub(crate) fn words_of(front: Front) -> &'static str
    ensures { result.now ≡ words_of front }
{
    match front {
        Front::Blank | Front::Number(_) => "",
        Front::Bracket => "(",
        Front::Star => "* ",
        Front::Welcome => "Welcome, ",
        Front::Subject => "Subject: ",
        Front::Recipient => "Recipient: ",
        Front::Copy => "Copy: ",
        Front::BlindCopy => "Blind copy: ",
        Front::CommentTo => "Comment to text ",
        Front::FootnoteTo => "Footnote to text ",
        Front::CommentIn => "Comment in text ",
        Front::FootnoteIn => "Footnote in text ",
        Front::Rule => "----------",
        Front::More => "-- more: ",
    }
}
