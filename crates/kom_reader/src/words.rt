//! The words of commands.
ghost use Rattle.std.specs.Prelude.{◌≡◌, fold, filter};
ghost use Rattle.kom_reader.specs.Words.{text_of, fits, word_of, choice_and};

/// A command's word.
#[derive(Clone, Copy)]
pub enum Word {
    Next,
    Skip,
    Comment,
    Footnote,
    Write,
    Letter,
    Reply,
    Review,
    Go,
    List,
    News,
    Join,
    Leave,
    Who,
    Send,
    Whereami,
    Help,
    Quit,
}

/// All words, in the order in which they are told.
pub const WORDS: [Word; 18] = [
    Word::Next,
    Word::Skip,
    Word::Comment,
    Word::Footnote,
    Word::Write,
    Word::Letter,
    Word::Reply,
    Word::Review,
    Word::Go,
    Word::List,
    Word::News,
    Word::Join,
    Word::Leave,
    Word::Who,
    Word::Send,
    Word::Whereami,
    Word::Help,
    Word::Quit,
];

/// Which word a typed one means.
#[derive(Clone, Copy)]
pub enum Choice {
    None,
    One(Word),
    Several,
}

impl Word {
    #[tactic(auto, unfolding(crate::specs::Words::text_of))]
    pub fn text(self) -> &'static str
        ensures { result.now ≡ text_of self }
    {
        match self {
            Word::Next => "next",
            Word::Skip => "skip",
            Word::Comment => "comment",
            Word::Footnote => "footnote",
            Word::Write => "write",
            Word::Letter => "letter",
            Word::Reply => "reply",
            Word::Review => "review",
            Word::Go => "go",
            Word::List => "list",
            Word::News => "news",
            Word::Join => "join",
            Word::Leave => "leave",
            Word::Who => "who",
            Word::Send => "send",
            Word::Whereami => "whereami",
            Word::Help => "help",
            Word::Quit => "quit",
        }
    }
}

/// Whether a typed word, in small or capital letters, is this one or a beginning of it.
pub fn fits(typed: &[u8], word: Word) -> bool
    ensures { result ≡ fits typed.now word }
{
    let text = word.text().as_bytes();
    typed.len() <= text.len() && typed.eq_ignore_ascii_case(&text[..typed.len()])
}

/// The word that a typed one means: the one that it is, or is a beginning of and of no other.
#[tactic(auto, using(crate::proofs::Passing::choice_fold), unfolding(crate::specs::Words::word_of))]
pub fn word_of(typed: &[u8]) -> Choice
    ensures { result ≡ word_of typed.now }
{
    choice_among(typed, &WORDS)
}

#[tactic(auto, using(crate::proofs::Passing::word_step, crate::proofs::Passing::word_end))]
fn choice_among(typed: &[u8], words: &[Word]) -> Choice
    ensures { result ≡ fold choice_and Choice.None (filter (fits typed.now) words.now) }
{
    let mut choice = Choice::None;
    for word in words {
        if fits(typed, *word) {
            choice = and_also(choice, *word);
        }
    }
    choice
}

fn and_also(choice: Choice, word: Word) -> Choice
    ensures { result ≡ choice_and choice word }
{
    match choice {
        Choice::None => Choice::One(word),
        Choice::One(_) | Choice::Several => Choice::Several,
    }
}
