//! What the server tells without having been asked.
ghost use Rattle.std.specs.Prelude.{◌≡◌};

use crate::drafts::Drafts;
use crate::letters::text_of;
use crate::names::Names;
use crate::replies::memberships_in;
use crate::visitor::Visitor;
use kom_exchange::{VisitEnd, Waiting};
use kom_letters::{Charset, charset_of};
use kom_links::{Link, Sink};
use kom_reader::{Place, parts_of};
use kom_records::ResultKind;
use kom_screen::Front;
use kom_types::{Message, NewName, SentMessage, TextStat};
use std::alloc::{AllocError, Global};
use std::sync::Wait;

impl<W: Waiting, K: Link, L: Link, S: Sink, D: Drafts> Visitor<W, K, L, S, D> {
    /// Tells all that has come: whether something was said.
    pub(crate) fn tell_news<R: Wait>(&mut self, rt: &R) -> Result<bool, VisitEnd>
        ensures { self.new.exchange.columns ≡ self.old.exchange.columns }
    {
        let mut has_said = false;
        for _ in 0..u64::MAX {
            match self.exchange.message() {
                Some(message) => {
                    let said = self.tell(rt, &message)?;
                    has_said = has_said || said;
                }
                None => break,
            }
        }
        Ok(has_said)
    }

    /// Takes a message: whether something was said.
    fn tell<R: Wait>(&mut self, rt: &R, message: &Message) -> Result<bool, VisitEnd>
        ensures { self.new.exchange.columns ≡ self.old.exchange.columns }
    {
        match message {
            Message::NewText { text, stat } => self.tell_text(rt, *text, stat.get(), message),
            Message::SendMessage(sent) => self.tell_sent(rt, sent.get()),
            Message::Login { person, session: _ } => self.tell_login(rt, *person),
            Message::NewName(names) => self.tell_name(names.get()),
            Message::NewRecipient {
                text,
                conference,
                kind: _,
            } => self.tell_recipient(rt, *text, *conference),
            Message::NewMembership { person, conference } => {
                self.tell_membership(rt, *person, *conference)
            }
            Message::LeaveConference { conference } => {
                self.tell_leaving(rt, *conference, message)
            }
            _ => {
                self.reader.hear(self.alloc, message)?;
                Ok(false)
            }
        }
    }

    fn tell_leaving<R: Wait>(
        &mut self,
        rt: &R,
        conference: u32,
        message: &Message,
    ) -> Result<bool, VisitEnd>
        ensures { self.new.exchange.columns ≡ self.old.exchange.columns }
    {
        self.reader.hear(self.alloc, message)?;
        self.learn_name(rt, conference)?;
        self.tell_of("You are no longer a member of ", conference)?;
        Ok(true)
    }

    fn tell_of(&mut self, words: &str, conference: u32) -> Result<(), VisitEnd>
        ensures { self.new.exchange.columns ≡ self.old.exchange.columns }
    {
        let name = self.name_of(conference)?;
        self.tell_line(words, name.as_str())
    }

    /// Shows what came unasked.
    pub(crate) fn tell_line(&mut self, words: &str, text: &str) -> Result<(), VisitEnd>
        ensures { self.new.exchange.columns ≡ self.old.exchange.columns }
    {
        self.show(Front::Star, words, text)
    }

    fn tell_text<R: Wait>(
        &mut self,
        rt: &R,
        text: u32,
        stat: &TextStat,
        message: &Message,
    ) -> Result<bool, VisitEnd>
        ensures { self.new.exchange.columns ≡ self.old.exchange.columns }
    {
        if stat.author == self.person {
            return Ok(false);
        }
        self.reader.hear(self.alloc, message)?;
        let Some(conference) = self.own_recipient(stat)? else {
            return Ok(false);
        };
        self.learn_names(rt, &[stat.author, conference])?;
        let author = self.names.name(stat.author);
        let told = text_line(self.alloc, text, author, self.names.name(conference))?;
        self.tell_line("Text ", told.as_str())?;
        Ok(true)
    }

    /// The first conference of the person in which a text stands.
    fn own_recipient(&self, stat: &TextStat) -> Result<Option<u32>, VisitEnd> {
        let parts = parts_of(self.alloc, stat.misc_infos.as_slice())?;
        for part in &parts {
            if self.reader.is_member(part.conference) {
                return Ok(Some(part.conference));
            }
        }
        Ok(None)
    }

    fn tell_sent<R: Wait>(&mut self, rt: &R, sent: &SentMessage) -> Result<bool, VisitEnd>
        ensures { self.new.exchange.columns ≡ self.old.exchange.columns }
    {
        self.learn_names(rt, &[sent.sender, sent.recipient])?;
        let told = sent_line(self.alloc, &self.names, self.person, sent)?;
        self.tell_line("", told.as_str())?;
        Ok(true)
    }

    fn tell_login<R: Wait>(&mut self, rt: &R, person: u32) -> Result<bool, VisitEnd>
        ensures { self.new.exchange.columns ≡ self.old.exchange.columns }
    {
        if person == self.person {
            return Ok(false);
        }
        self.learn_name(rt, person)?;
        let name = self.name_of(person)?;
        self.tell_line(name.as_str(), " has come.")?;
        Ok(true)
    }

    fn tell_name(&mut self, names: &NewName) -> Result<bool, VisitEnd>
        ensures { self.new.exchange.columns ≡ self.old.exchange.columns }
    {
        self.names
            .learn(self.alloc, names.conference, names.new_name.as_slice())?;
        let told = name_line(self.alloc, names)?;
        self.tell_line("", told.as_str())?;
        Ok(true)
    }

    fn tell_recipient<R: Wait>(
        &mut self,
        rt: &R,
        text: u32,
        conference: u32,
    ) -> Result<bool, VisitEnd>
        ensures { self.new.exchange.columns ≡ self.old.exchange.columns }
    {
        if !self.reader.is_member(conference) {
            return Ok(false);
        }
        if !self.learn_text(rt, text)? {
            return Ok(false);
        }
        self.learn_name(rt, conference)?;
        let told = recipient_line(self.alloc, text, self.names.name(conference))?;
        self.tell_line("Text ", told.as_str())?;
        Ok(true)
    }

    /// Learns where a text stands: whether that is told.
    fn learn_text<R: Wait>(&mut self, rt: &R, text: u32) -> Result<bool, VisitEnd>
        ensures { self.new.exchange.columns ≡ self.old.exchange.columns }
    {
        match self.stat_of(rt, text)? {
            Some(stat) => {
                self.reader.learn_text(self.alloc, text, &stat)?;
                Ok(true)
            }
            None => Ok(false),
        }
    }

    fn tell_membership<R: Wait>(
        &mut self,
        rt: &R,
        person: u32,
        conference: u32,
    ) -> Result<bool, VisitEnd>
        ensures { self.new.exchange.columns ≡ self.old.exchange.columns }
    {
        if person != self.person || self.reader.is_member(conference) {
            return Ok(false);
        }
        self.take_up(rt, conference)?;
        self.tell_of("You are a member now of ", conference)?;
        Ok(true)
    }

    /// Takes up a membership, with what is unread in it.
    pub(crate) fn take_up<R: Wait>(&mut self, rt: &R, conference: u32) -> Result<(), VisitEnd>
        ensures { self.new.exchange.columns ≡ self.old.exchange.columns }
    {
        self.learn_name(rt, conference)?;
        let asked = &[self.person, 0, 65_535, 1, 0];
        let reply = self.ask(rt, 108, asked, ResultKind::Memberships)?;
        let memberships = memberships_in(self.alloc, reply);
        let mut all = memberships.as_slice().iter();
        let Some(at) = all.position(|membership| membership.conference == conference) else {
            return self.enter_last(conference);
        };
        let one = &memberships.as_slice()[at..=at];
        self.fetch_rows(rt, one, &[conference])
    }

    /// Takes up a membership that the server does not tell.
    fn enter_last(&mut self, conference: u32) -> Result<(), VisitEnd>
        ensures { self.new.exchange.columns ≡ self.old.exchange.columns }
    {
        let place = Place {
            conference,
            priority: 0,
            position: u32::MAX,
        };
        self.reader.enter(place)?;
        Ok(())
    }
}

/// What is told of a new text.
fn text_line(
    alloc: Global,
    text: u32,
    author: &str,
    conference: &str,
) -> Result<String, AllocError> {
    format!(in alloc; "{text} by {author} in {conference}")
}

/// A message, and to whom it is.
fn sent_line(
    alloc: Global,
    names: &Names,
    person: u32,
    sent: &SentMessage,
) -> Result<String, AllocError> {
    let sender = names.name(sent.sender);
    let recipient = if sent.recipient == 0 {
        "all"
    } else if sent.recipient == person {
        "you"
    } else {
        names.name(sent.recipient)
    };
    let bytes = sent.text.as_slice();
    let text = text_of(alloc, bytes, charset_of(None, bytes))?;
    format!(in alloc; "{sender} to {recipient}: {text}")
}

/// What is told of a new name.
fn name_line(alloc: Global, names: &NewName) -> Result<String, AllocError> {
    let old_name = text_of(alloc, names.old_name.as_slice(), Charset::Latin1)?;
    let new_name = text_of(alloc, names.new_name.as_slice(), Charset::Latin1)?;
    format!(in alloc; "{old_name} is now called {new_name}.")
}

/// What is told of a new recipient of a text.
fn recipient_line(alloc: Global, text: u32, conference: &str) -> Result<String, AllocError> {
    format!(in alloc; "{text} is in {conference} too")
}
