//! How a visit begins.
ghost use Rattle.std.specs.Prelude.{◌≡◌, IfOk};

use crate::drafts::Drafts;
use crate::replies::{memberships_in, numbers_in};
use crate::visitor::{Guest, Visitor};
use kom_exchange::{Argument, Request, VisitEnd, Waiting};
use kom_links::{Link, Sink};
use kom_reader::Reader;
use kom_records::ResultKind;
use kom_screen::Front;
use std::alloc::{AllocError, Global};
use std::sync::Wait;

/// The messages of which a visit is told.
const MESSAGES: [u32; 9] = [5, 8, 9, 12, 14, 15, 16, 17, 18];

impl<W: Waiting, K: Link, L: Link, S: Sink, D: Drafts> Visitor<W, K, L, S, D> {
    /// Greets the server, logs in, and learns what is unread.
    pub(crate) fn come<R: Wait>(&mut self, rt: &R, guest: &Guest<'_>) -> Result<(), VisitEnd>
        ensures { self.new.exchange.columns ≡ self.old.exchange.columns }
    {
        self.greet(rt)?;
        let Some(person) = self.find(rt, guest.name, true, false)? else {
            return Err(VisitEnd::Unknown);
        };
        self.person = person;
        self.enter(rt)?;
        self.fetch(rt)?;
        self.welcome(rt)
    }

    /// Greets the server, and tells it the name of this program.
    fn greet<R: Wait>(&mut self, rt: &R) -> Result<(), VisitEnd>
        ensures { self.new.exchange.columns ≡ self.old.exchange.columns }
    {
        self.exchange.greet(rt)?;
        let request = program_request(self.alloc)?;
        self.exchange.ask(&request)?;
        self.send_and_await(rt, 1)
    }

    /// Logs in with the next line that is typed as the password.
    fn enter<R: Wait>(&mut self, rt: &R) -> Result<(), VisitEnd>
        ensures { self.new.exchange.columns ≡ self.old.exchange.columns }
    {
        if !self.exchange.log_in(rt, self.person)? {
            self.say("", "A password has letters of ISO 8859-1 alone.")?;
            return Err(VisitEnd::Refused);
        }
        if !self.is_done(rt)? {
            return Err(VisitEnd::Refused);
        }
        Ok(())
    }

    /// Learns the memberships and what is unread in them.
    fn fetch<R: Wait>(&mut self, rt: &R) -> Result<(), VisitEnd>
        ensures { self.new.exchange.columns ≡ self.old.exchange.columns }
    {
        self.ask_memberships(rt)?;
        let memberships = self.reply(rt, ResultKind::Memberships)?;
        let memberships = memberships_in(self.alloc, memberships);
        let unread = self.reply(rt, ResultKind::Numbers)?;
        let unread = numbers_in(self.alloc, unread);
        self.fetch_rows(rt, memberships.as_slice(), unread.as_slice())
    }

    /// Asks to be told of messages, and for the memberships and those in which something is unread.
    fn ask_memberships<R: Wait>(&mut self, rt: &R) -> Result<(), VisitEnd>
        ensures { self.new.exchange.columns ≡ self.old.exchange.columns }
    {
        let request = messages_request(self.alloc, &MESSAGES)?;
        self.exchange.ask(&request)?;
        self.exchange.request(108, &[self.person, 0, 65_535, 1, 0])?;
        self.exchange.request(52, &[self.person])?;
        self.send_and_await(rt, 1)
    }

    /// Says who has come, and how much is unread.
    fn welcome<R: Wait>(&mut self, rt: &R) -> Result<(), VisitEnd>
        ensures { self.new.exchange.columns ≡ self.old.exchange.columns }
    {
        self.learn_name(rt, self.person)?;
        let text = welcome_line(self.alloc, self.names.name(self.person), &self.reader)?;
        self.show(Front::Welcome, "", text.as_str())
    }
}

/// What is said to a person that has come.
fn welcome_line(alloc: Global, name: &str, reader: &Reader) -> Result<String, AllocError> {
    let texts = reader.count();
    let conferences = count_of(reader);
    let noun = if conferences == 1 {
        "conference"
    } else {
        "conferences"
    };
    format!(in alloc; "{name}. {texts} unread in {conferences} {noun}. `help` lists the commands.")
}

/// In how many conferences something is unread.
fn count_of(reader: &Reader) -> usize {
    let mut conferences = 0usize;
    for place in reader.places() {
        if reader.count_in(place.conference) > 0 {
            conferences = conferences.saturating_add(1);
        }
    }
    conferences
}

/// The request that tells what program this is.
fn program_request(alloc: Global) -> Result<Request, VisitEnd>
    ensures { IfOk result (λ request. request.call ≡ 69) }
{
    let mut request = Request::new(alloc, 69);
    request.text(alloc, b"komt")?;
    request.text(alloc, b"1")?;
    Ok(request)
}

/// The request to be told of messages with these numbers.
fn messages_request(alloc: Global, numbers: &[u32]) -> Result<Request, VisitEnd>
    ensures { IfOk result (λ request. request.call ≡ 80) }
{
    let count = u32::try_from(numbers.len()).unwrap_or(0);
    let mut request = Request::of(alloc, 80, &[count])?;
    request.word(Argument::Open)?;
    for number in numbers {
        request.number(*number)?;
    }
    request.word(Argument::Close)?;
    Ok(request)
}
