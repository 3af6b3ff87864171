//! What each command does.
ghost use Rattle.std.specs.Prelude.{◌≡◌};

use crate::drafts::Drafts;
use crate::visitor::Visitor;
use kom_exchange::{Pace, VisitEnd, Waiting};
use kom_letters::Charset;
use kom_links::{Link, Sink};
use kom_reader::{Choice, WORDS, Word, word_of};
use kom_screen::Front;
use std::alloc::{AllocError, Global};
use std::sync::Wait;

impl<W: Waiting, K: Link, L: Link, S: Sink, D: Drafts> Visitor<W, K, L, S, D> {
    /// Tells what all commands do, or one.
    pub(crate) fn help<R: Wait>(&mut self, rt: &R, rest: &[u8]) -> Result<(), VisitEnd>
        ensures { self.new.exchange.columns ≡ self.old.exchange.columns }
    {
        if !rest.is_empty() {
            return match word_of(rest) {
                Choice::One(word) => self.help_with(word),
                Choice::None | Choice::Several => self.say("No command is called so.", ""),
            };
        }
        let mut pace = Pace::ByPages;
        let first = b"Enter               does what the prompt says";
        pace = self
            .exchange
            .show_line(rt, pace, Front::Blank, first, Charset::Utf8)?;
        let second = b"29                  shows text 29 again";
        pace = self
            .exchange
            .show_line(rt, pace, Front::Blank, second, Charset::Utf8)?;
        self.help_with_all(rt, pace, &WORDS)
    }

    fn help_with_all<R: Wait>(&mut self, rt: &R, pace: Pace, words: &[Word]) -> Result<(), VisitEnd>
        ensures { self.new.exchange.columns ≡ self.old.exchange.columns }
    {
        let mut pace = pace;
        for word in words {
            let text = word_line(self.alloc, *word)?;
            pace = self
                .exchange
                .show_line(rt, pace, Front::Blank, text.as_bytes(), Charset::Utf8)?;
        }
        Ok(())
    }

    fn help_with(&mut self, word: Word) -> Result<(), VisitEnd>
        ensures { self.new.exchange.columns ≡ self.old.exchange.columns }
    {
        let text = usage_line(self.alloc, word)?;
        self.say("", text.as_str())?;
        self.say("", more_of(word))
    }
}

/// A command in the list of all.
fn word_line(alloc: Global, word: Word) -> Result<String, AllocError> {
    let usage = usage_of(word);
    let does = does_of(word);
    format!(in alloc; "{usage:<19} {does}")
}

/// A command alone.
fn usage_line(alloc: Global, word: Word) -> Result<String, AllocError> {
    let usage = usage_of(word);
    let does = does_of(word);
    format!(in alloc; "{usage}: {does}.")
}

/// How a command is typed.
fn usage_of(word: Word) -> &'static str {
    match word {
        Word::Next => "next",
        Word::Skip => "skip",
        Word::Comment => "comment TEXT",
        Word::Footnote => "footnote TEXT",
        Word::Write => "write CONFERENCE",
        Word::Letter => "letter PERSON",
        Word::Reply => "reply TEXT",
        Word::Review => "review TEXT",
        Word::Go => "go CONFERENCE",
        Word::List => "list NAME",
        Word::News => "news",
        Word::Join => "join CONFERENCE",
        Word::Leave => "leave CONFERENCE",
        Word::Who => "who",
        Word::Send => "send PERSON: WORDS",
        Word::Whereami => "whereami",
        Word::Help => "help COMMAND",
        Word::Quit => "quit",
    }
}

/// What a command does.
fn does_of(word: Word) -> &'static str {
    match word {
        Word::Next => "does what the prompt says, as Enter does",
        Word::Skip => "counts all answers to the text shown last as read",
        Word::Comment => "comments on a text, or on the one shown last",
        Word::Footnote => "adds a footnote to a text of your own",
        Word::Write => "writes a text, here if no conference is named",
        Word::Letter => "writes a text to a person alone",
        Word::Reply => "answers the author of a text alone",
        Word::Review => "shows a text again",
        Word::Go => "reads in a conference from now on",
        Word::List => "lists conferences, all or those of a name",
        Word::News => "lists the conferences with unread texts",
        Word::Join => "makes you a member of a conference",
        Word::Leave => "ends that, here if no conference is named",
        Word::Who => "lists who is logged in",
        Word::Send => "says something at once; `send all:` to everybody",
        Word::Whereami => "says in which conference you read",
        Word::Help => "tells more of a command",
        Word::Quit => "leaves",
    }
}

/// More of it.
fn more_of(word: Word) -> &'static str {
    match word {
        Word::Next =>
            "First come the answers to the text shown last, then the texts of the conference.",
        Word::Skip => "The answers to those answers too. Nothing of them is shown.",
        Word::Comment | Word::Footnote | Word::Write | Word::Letter | Word::Reply => {
            "The text is typed line by line. A line that is a dot alone ends it and sends it; \
             two dots begin a line with one; `.q` drops the text."
        }
        Word::Review => "A number alone does the same. The text does not count as read by that.",
        Word::Go | Word::Join | Word::Leave | Word::List => {
            "A conference is named by its number, or by beginnings of the words of its name."
        }
        Word::News => "Those of the highest priority stand first.",
        Word::Who =>
            "Beside each stand the conference, for how long nothing was done, and what is.",
        Word::Send => "It is not kept: who is not there does not see it.",
        Word::Whereami => "And how much is unread there.",
        Word::Help => "A command may be shortened as long as no other begins so.",
        Word::Quit => "What is half typed is dropped.",
    }
}
