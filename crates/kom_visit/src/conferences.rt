//! Conferences: where one reads, and of which one is a member.
ghost use Rattle.std.specs.Prelude.{◌≡◌, IfOk};

use crate::drafts::Drafts;
use crate::letters::text_of;
use crate::names::Names;
use crate::visitor::Visitor;
use kom_exchange::{Argument, Pace, Request, VisitEnd, Waiting};
use kom_letters::Charset;
use kom_links::{Link, Sink};
use kom_reader::Reader;
use kom_screen::Front;
use kom_types::ConferenceName;
use std::alloc::{AllocError, Global};
use std::sync::Wait;

/// The priority of a membership that is begun here.
const PRIORITY: u32 = 100;

impl<W: Waiting, K: Link, L: Link, S: Sink, D: Drafts> Visitor<W, K, L, S, D> {
    /// Goes to a conference.
    pub(crate) fn go<R: Wait>(&mut self, rt: &R, conference: u32) -> Result<(), VisitEnd>
        ensures { self.new.exchange.columns ≡ self.old.exchange.columns }
    {
        self.exchange.request(2, &[conference])?;
        self.send(rt)?;
        if !self.is_done(rt)? {
            return Ok(());
        }
        self.reader.go(conference);
        self.learn_name(rt, conference)?;
        let count = self.reader.count_in(conference);
        let text = place_line(self.alloc, self.names.name(conference), count)?;
        self.say("", text.as_str())
    }

    pub(crate) fn go_to<R: Wait>(&mut self, rt: &R, rest: &[u8]) -> Result<(), VisitEnd>
        ensures { self.new.exchange.columns ≡ self.old.exchange.columns }
    {
        if rest.is_empty() {
            return self.say("Which conference?", "");
        }
        match self.find(rt, rest, true, true)? {
            Some(conference) if self.reader.is_member(conference) => self.go(rt, conference),
            Some(_) => self.say("You are no member there: `join` makes you one.", ""),
            None => Ok(()),
        }
    }

    pub(crate) fn join<R: Wait>(&mut self, rt: &R, rest: &[u8]) -> Result<(), VisitEnd>
        ensures { self.new.exchange.columns ≡ self.old.exchange.columns }
    {
        if rest.is_empty() {
            return self.say("Which conference?", "");
        }
        let Some(conference) = self.find(rt, rest, false, true)? else {
            return Ok(());
        };
        if self.reader.is_member(conference) {
            return self.go(rt, conference);
        }
        self.ask_to_join(conference)?;
        self.send(rt)?;
        if !self.is_done(rt)? {
            return Ok(());
        }
        self.take_up(rt, conference)?;
        let name = self.name_of(conference)?;
        self.say("You are a member now of ", name.as_str())?;
        self.go(rt, conference)
    }

    /// Asks that the person becomes a member, behind the other memberships.
    fn ask_to_join(&mut self, conference: u32) -> Result<(), VisitEnd>
        ensures { self.new.exchange.columns ≡ self.old.exchange.columns }
    {
        let position = u32::try_from(self.reader.places().len()).unwrap_or(u32::MAX);
        let request = join_request(self.alloc, &[conference, self.person, PRIORITY, position])?;
        self.exchange.ask(&request)
    }

    pub(crate) fn leave_conference<R: Wait>(&mut self, rt: &R, rest: &[u8]) -> Result<(), VisitEnd>
        ensures { self.new.exchange.columns ≡ self.old.exchange.columns }
    {
        let Some(conference) = self.conference_or_here(rt, rest)? else {
            return Ok(());
        };
        self.exchange.request(15, &[conference, self.person])?;
        self.send(rt)?;
        if !self.is_done(rt)? {
            return Ok(());
        }
        // A message may say it too, and says it once more.
        if self.reader.is_member(conference) {
            self.reader.leave(conference);
        }
        Ok(())
    }

    /// Lists the conferences that a pattern matches.
    pub(crate) fn list<R: Wait>(&mut self, rt: &R, rest: &[u8]) -> Result<(), VisitEnd>
        ensures { self.new.exchange.columns ≡ self.old.exchange.columns }
    {
        match self.look_up(rt, rest, false, true)? {
            Some(found) => self.show_found(rt, found.as_slice()),
            None => Ok(()),
        }
    }

    fn show_found<R: Wait>(&mut self, rt: &R, found: &[ConferenceName]) -> Result<(), VisitEnd>
        ensures { self.new.exchange.columns ≡ self.old.exchange.columns }
    {
        if found.is_empty() {
            return self.say("No conference is called so.", "");
        }
        let mut pace = Pace::ByPages;
        for each in found {
            let text = conference_line(self.alloc, &self.reader, each)?;
            pace = self
                .exchange
                .show_line(rt, pace, Front::Blank, text.as_bytes(), Charset::Utf8)?;
        }
        Ok(())
    }

    /// Lists the conferences with unread texts.
    pub(crate) fn list_news<R: Wait>(&mut self, rt: &R) -> Result<(), VisitEnd>
        ensures { self.new.exchange.columns ≡ self.old.exchange.columns }
    {
        let unread = unread_in(self.alloc, &self.reader)?;
        if unread.is_empty() {
            return self.say("Nothing is unread.", "");
        }
        self.learn_names(rt, unread.as_slice())?;
        let mut pace = Pace::ByPages;
        for conference in &unread {
            let text = news_line(self.alloc, &self.names, &self.reader, *conference)?;
            pace = self
                .exchange
                .show_line(rt, pace, Front::Blank, text.as_bytes(), Charset::Utf8)?;
        }
        Ok(())
    }
}

/// The request that somebody becomes a member: of which conference, who, and with which priority
/// and position.
fn join_request(alloc: Global, numbers: &[u32]) -> Result<Request, VisitEnd>
    ensures { IfOk result (λ request. request.call ≡ 100) }
{
    let mut request = Request::of(alloc, 100, numbers)?;
    request.word(Argument::Flags)?;
    Ok(request)
}

fn place_line(alloc: Global, name: &str, count: usize) -> Result<String, AllocError> {
    format!(in alloc; "{name}: {count} unread")
}

/// A conference that was found.
fn conference_line(
    alloc: Global,
    reader: &Reader,
    found: &ConferenceName,
) -> Result<String, AllocError> {
    let number = found.number;
    let count = reader.count_in(number);
    let member = if reader.is_member(number) {
        "member"
    } else {
        ""
    };
    let name = text_of(alloc, found.name.as_slice(), Charset::Latin1)?;
    format!(in alloc; "{number:>6} {member:6} {count:>6} unread  {name}")
}

/// The conferences in which something is unread.
fn unread_in(alloc: Global, reader: &Reader) -> Result<Vec<u32>, AllocError> {
    let mut unread = Vec::new(alloc);
    for place in reader.places() {
        if reader.count_in(place.conference) > 0 {
            unread.push(place.conference)?;
        }
    }
    Ok(unread)
}

/// A conference in which something is unread.
fn news_line(
    alloc: Global,
    names: &Names,
    reader: &Reader,
    conference: u32,
) -> Result<String, AllocError> {
    let count = reader.count_in(conference);
    let name = names.name(conference);
    format!(in alloc; "{count:>6} {name}")
}
