//! Persons: who is there, and what is said to them.
ghost use Rattle.std.specs.Prelude.{◌≡◌, IfOk};

use crate::drafts::Drafts;
use crate::letters::text_of;
use crate::names::Names;
use crate::replies::sessions_in;
use crate::visitor::Visitor;
use kom_exchange::{Pace, Request, VisitEnd, Waiting};
use kom_letters::{Charset, Unsendable, charset_of, text_bytes};
use kom_links::{Link, Sink};
use kom_records::ResultKind;
use kom_screen::Front;
use kom_types::DynamicSession;
use std::alloc::{AllocError, Global};
use std::sync::Wait;

impl<W: Waiting, K: Link, L: Link, S: Sink, D: Drafts> Visitor<W, K, L, S, D> {
    /// Lists who is logged in.
    pub(crate) fn list_sessions<R: Wait>(&mut self, rt: &R) -> Result<(), VisitEnd>
        ensures { self.new.exchange.columns ≡ self.old.exchange.columns }
    {
        let reply = self.ask(rt, 83, &[1, 0, 0], ResultKind::DynamicSessions)?;
        let sessions = sessions_in(self.alloc, reply);
        self.learn_of(rt, sessions.as_slice())?;
        let mut pace = Pace::ByPages;
        for one in sessions.as_slice() {
            if one.person != 0 {
                pace = self.show_session(rt, pace, one)?;
            }
        }
        Ok(())
    }

    /// Learns the names of who is logged in, and of where they are.
    fn learn_of<R: Wait>(&mut self, rt: &R, sessions: &[DynamicSession]) -> Result<(), VisitEnd>
        ensures { self.new.exchange.columns ≡ self.old.exchange.columns }
    {
        let named = named_in(self.alloc, sessions)?;
        self.learn_names(rt, named.as_slice())
    }

    fn show_session<R: Wait>(
        &mut self,
        rt: &R,
        pace: Pace,
        session: &DynamicSession,
    ) -> Result<Pace, VisitEnd>
        ensures { self.new.exchange.columns ≡ self.old.exchange.columns }
    {
        let text = session_line(self.alloc, &self.names, session)?;
        self.exchange
            .show_line(rt, pace, Front::Blank, text.as_bytes(), Charset::Utf8)
    }

    /// Sends a message: whom it is to stands before a colon.
    pub(crate) fn send_message<R: Wait>(&mut self, rt: &R, rest: &[u8]) -> Result<(), VisitEnd>
        ensures { self.new.exchange.columns ≡ self.old.exchange.columns }
    {
        let Some(colon) = rest.iter().position(|byte| *byte == b':') else {
            return self.say("Write: send PERSON: TEXT, or send all: TEXT", "");
        };
        let whom = rest[..colon].trim_ascii();
        let text = rest[colon + 1..].trim_ascii();
        match text_bytes(self.alloc, text) {
            Ok(sent) => match self.recipient_of(rt, whom)? {
                Some(recipient) => self.send_to(rt, recipient, sent.body.as_slice()),
                None => Ok(()),
            },
            Err(Unsendable::Memory) => Err(VisitEnd::Memory),
            Err(_) => self.say("", "What was typed is no UTF-8, and is not sent."),
        }
    }

    fn send_to<R: Wait>(&mut self, rt: &R, recipient: u32, text: &[u8]) -> Result<(), VisitEnd>
        ensures { self.new.exchange.columns ≡ self.old.exchange.columns }
    {
        let request = message_request(self.alloc, recipient, text)?;
        self.exchange.ask(&request)?;
        self.send(rt)?;
        if self.is_done(rt)? {
            self.say("It is sent.", "")?;
        }
        Ok(())
    }

    /// Whom a message is to: everybody, who is 0, or somebody who is found.
    fn recipient_of<R: Wait>(&mut self, rt: &R, whom: &[u8]) -> Result<Option<u32>, VisitEnd>
        ensures { self.new.exchange.columns ≡ self.old.exchange.columns }
    {
        if whom.eq_ignore_ascii_case(b"all") {
            return Ok(Some(0));
        }
        self.find(rt, whom, true, true)
    }
}

/// The request that a message is sent.
fn message_request(alloc: Global, recipient: u32, text: &[u8]) -> Result<Request, VisitEnd>
    ensures { IfOk result (λ request. request.call ≡ 53) }
{
    let mut request = Request::of(alloc, 53, &[recipient])?;
    request.text(alloc, text)?;
    Ok(request)
}

/// Who is logged in, and where they are.
fn named_in(alloc: Global, sessions: &[DynamicSession]) -> Result<Vec<u32>, AllocError> {
    let mut named = Vec::new(alloc);
    for session in sessions {
        named.push(session.person)?;
        named.push(session.working)?;
    }
    Ok(named)
}

/// A session: who and where, for how long nothing was done, and what is.
fn session_line(
    alloc: Global,
    names: &Names,
    session: &DynamicSession,
) -> Result<String, AllocError> {
    let person = names.name(session.person);
    let place = if session.working == 0 {
        ""
    } else {
        names.name(session.working)
    };
    let minutes = session.idle / 60;
    let bytes = session.doing.as_slice();
    let doing = text_of(alloc, bytes, charset_of(None, bytes))?;
    format!(in alloc; "{person:30} {place:20} {minutes:>4} min  {doing}")
}
