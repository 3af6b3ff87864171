//! What a typed line does.
ghost use Rattle.std.specs.Prelude.{◌≡◌};

use crate::drafts::Drafts;
use crate::visitor::{Visitor, copied};
use crate::writing::Answer;
use kom_exchange::{VisitEnd, Waiting};
use kom_links::{Link, Sink};
use kom_reader::{Command, Step, WORDS, Word, command_of, first_word, fits, number_in, rest_of};
use std::alloc::{AllocError, Global};
use std::sync::Wait;

impl<W: Waiting, K: Link, L: Link, S: Sink, D: Drafts> Visitor<W, K, L, S, D> {
    /// Does what a line asks for: whether the visit goes on.
    pub(crate) fn take_line<R: Wait>(&mut self, rt: &R) -> Result<bool, VisitEnd>
        ensures { self.new.exchange.columns ≡ self.old.exchange.columns }
    {
        let line = copied(self.alloc, self.exchange.line())?;
        let line = line.as_slice();
        if let Some(draft) = self.typing.take() {
            self.take_typed(rt, draft, line)?;
            return Ok(true);
        }
        if let Command::Word(Word::Quit) = command_of(line) {
            self.quit(rt)?;
            return Ok(false);
        }
        self.take_command(rt, line)?;
        Ok(true)
    }

    /// Does what a line asks for that is a command.
    fn take_command<R: Wait>(&mut self, rt: &R, line: &[u8]) -> Result<(), VisitEnd>
        ensures { self.new.exchange.columns ≡ self.old.exchange.columns }
    {
        match command_of(line) {
            Command::Enter => self.go_on(rt),
            Command::Text(text) => self.show_text(rt, text, false),
            Command::Word(word) => self.take_word(rt, word, rest_of(line).trim_ascii()),
            Command::Several => self.say_several(first_word(line)),
            Command::Unknown => self.say("? `help` lists the commands.", ""),
        }
    }

    /// Does what comes next.
    fn go_on<R: Wait>(&mut self, rt: &R) -> Result<(), VisitEnd>
        ensures { self.new.exchange.columns ≡ self.old.exchange.columns }
    {
        match self.reader.next_step() {
            Step::Branch(text) | Step::Text(text) => self.show_text(rt, text, true),
            Step::Go(conference) => self.go(rt, conference),
            Step::Wait => Ok(()),
        }
    }

    /// Does what a word asks for, with what stands behind it.
    fn take_word<R: Wait>(&mut self, rt: &R, word: Word, rest: &[u8]) -> Result<(), VisitEnd>
        ensures { self.new.exchange.columns ≡ self.old.exchange.columns }
    {
        match word {
            Word::Next => self.go_on(rt),
            Word::Skip => self.skip(rt),
            Word::Comment => self.answer_to(rt, rest, Answer::Comment),
            Word::Footnote => self.answer_to(rt, rest, Answer::Footnote),
            Word::Reply => self.answer_to(rt, rest, Answer::Reply),
            Word::Write => self.write(rt, rest),
            Word::Letter => self.letter(rt, rest),
            Word::Review => self.review(rt, rest),
            Word::Go => self.go_to(rt, rest),
            Word::Join => self.join(rt, rest),
            Word::Leave => self.leave_conference(rt, rest),
            Word::List => self.list(rt, rest),
            Word::News => self.list_news(rt),
            Word::Who => self.list_sessions(rt),
            Word::Send => self.send_message(rt, rest),
            Word::Whereami => self.tell_place(rt),
            Word::Help => self.help(rt, rest),
            Word::Quit => self.quit(rt),
        }
    }

    fn quit<R: Wait>(&mut self, rt: &R) -> Result<(), VisitEnd>
        ensures { self.new.exchange.columns ≡ self.old.exchange.columns }
    {
        self.exchange.request(1, &[])?;
        self.send_and_await(rt, 1)?;
        self.exchange.request(55, &[0])?;
        self.send(rt)
    }

    fn say_several(&mut self, typed: &[u8]) -> Result<(), VisitEnd>
        ensures { self.new.exchange.columns ≡ self.old.exchange.columns }
    {
        let text = fitting(self.alloc, typed, &WORDS)?;
        self.say("Which of these: ", text.as_str())
    }

    /// The text that is typed, or else the one that was shown last; if it is none, it says so.
    pub(crate) fn text_or_last(&mut self, rest: &[u8]) -> Result<Option<u32>, VisitEnd>
        ensures { self.new.exchange.columns ≡ self.old.exchange.columns }
    {
        let text = if rest.is_empty() {
            self.reader.last()
        } else {
            number_in(rest).unwrap_or(0)
        };
        if text == 0 {
            self.say("Which text?", "")?;
            return Ok(None);
        }
        Ok(Some(text))
    }

    fn answer_to<R: Wait>(&mut self, rt: &R, rest: &[u8], answer: Answer) -> Result<(), VisitEnd>
        ensures { self.new.exchange.columns ≡ self.old.exchange.columns }
    {
        match self.text_or_last(rest)? {
            Some(text) => self.answer(rt, text, answer),
            None => Ok(()),
        }
    }

    fn review<R: Wait>(&mut self, rt: &R, rest: &[u8]) -> Result<(), VisitEnd>
        ensures { self.new.exchange.columns ≡ self.old.exchange.columns }
    {
        match self.text_or_last(rest)? {
            Some(text) => self.show_text(rt, text, false),
            None => Ok(()),
        }
    }

    fn write<R: Wait>(&mut self, rt: &R, rest: &[u8]) -> Result<(), VisitEnd>
        ensures { self.new.exchange.columns ≡ self.old.exchange.columns }
    {
        match self.conference_or_here(rt, rest)? {
            Some(conference) => self.write_to(conference),
            None => Ok(()),
        }
    }

    fn letter<R: Wait>(&mut self, rt: &R, rest: &[u8]) -> Result<(), VisitEnd>
        ensures { self.new.exchange.columns ≡ self.old.exchange.columns }
    {
        if rest.is_empty() {
            return self.say("To whom?", "");
        }
        match self.find(rt, rest, true, false)? {
            Some(person) => self.letter_to(person),
            None => Ok(()),
        }
    }

    /// The conference that is typed, or else the one in which the person reads; if it is none, it
    /// says so.
    pub(crate) fn conference_or_here<R: Wait>(
        &mut self,
        rt: &R,
        rest: &[u8],
    ) -> Result<Option<u32>, VisitEnd>
        ensures { self.new.exchange.columns ≡ self.old.exchange.columns }
    {
        if !rest.is_empty() {
            return self.find(rt, rest, false, true);
        }
        if self.reader.working() == 0 {
            self.say("Which conference?", "")?;
            return Ok(None);
        }
        Ok(Some(self.reader.working()))
    }
}

/// The words that fit what is typed, with commas.
fn fitting(alloc: Global, typed: &[u8], words: &[Word]) -> Result<String, AllocError> {
    let mut text = String::new(alloc);
    for word in words {
        if fits(typed, *word) {
            if !text.is_empty() {
                text.push_str(", ")?;
            }
            text.push_str(word.text())?;
        }
    }
    Ok(text)
}
