//! Whom a typed name means.
ghost use Rattle.std.specs.Prelude.{◌≡◌, IfOk};

use crate::drafts::Drafts;
use crate::letters::text_of;
use crate::replies::names_in;
use crate::visitor::Visitor;
use kom_exchange::{Request, VisitEnd, Waiting};
use kom_letters::{Charset, Unsendable, name_bytes};
use kom_links::{Link, Sink};
use kom_reader::number_in;
use kom_records::ResultKind;
use kom_types::{ConferenceName, ConferenceNames};
use std::alloc::{AllocError, Global};
use std::sync::Wait;

/// How many names are listed where several match.
const LISTED: usize = 15;

impl<W: Waiting, K: Link, L: Link, S: Sink, D: Drafts> Visitor<W, K, L, S, D> {
    /// The conference or person that a typed number or pattern means. Where nobody is meant or
    /// several are, it says so.
    pub(crate) fn find<R: Wait>(
        &mut self,
        rt: &R,
        typed: &[u8],
        persons: bool,
        conferences: bool,
    ) -> Result<Option<u32>, VisitEnd>
        ensures { self.new.exchange.columns ≡ self.old.exchange.columns }
    {
        let typed = typed.trim_ascii();
        if let Some(number) = number_in(typed) {
            return Ok(Some(number));
        }
        let Some(found) = self.look_up(rt, typed, persons, conferences)? else {
            return Ok(None);
        };
        self.choose(typed, found.as_slice())
    }

    /// The conferences and persons that a typed pattern matches, or nothing where it cannot be
    /// sent.
    pub(crate) fn look_up<R: Wait>(
        &mut self,
        rt: &R,
        typed: &[u8],
        persons: bool,
        conferences: bool,
    ) -> Result<Option<ConferenceNames>, VisitEnd>
        ensures { self.new.exchange.columns ≡ self.old.exchange.columns }
    {
        if !self.ask_for(typed, persons, conferences)? {
            return Ok(None);
        }
        self.send(rt)?;
        let reply = self.reply(rt, ResultKind::ConferenceNames)?;
        match names_in(reply) {
            Ok(found) => Ok(found),
            Err(refusal) => {
                self.say_refused(refusal)?;
                Ok(None)
            }
        }
    }

    /// Asks for the conferences and persons that a typed pattern matches: whether it can be sent.
    fn ask_for(&mut self, typed: &[u8], persons: bool, conferences: bool) -> Result<bool, VisitEnd>
        ensures { self.new.exchange.columns ≡ self.old.exchange.columns }
    {
        match name_bytes(self.alloc, typed) {
            Ok(pattern) => {
                let pattern = pattern.as_slice();
                let request = names_request(self.alloc, pattern, persons, conferences)?;
                self.exchange.ask(&request)?;
                Ok(true)
            }
            Err(Unsendable::Memory) => Err(VisitEnd::Memory),
            Err(_) => {
                self.say("", "Names have letters of ISO 8859-1 alone.")?;
                Ok(false)
            }
        }
    }

    /// The one that is called exactly so, or else the only one.
    fn choose(&mut self, typed: &[u8], found: &[ConferenceName]) -> Result<Option<u32>, VisitEnd>
        ensures { self.new.exchange.columns ≡ self.old.exchange.columns }
    {
        let at = choice_of(self.alloc, typed, found)?;
        if let Some(one) = found.get(at) {
            self.names
                .learn(self.alloc, one.number, one.name.as_slice())?;
            return Ok(Some(one.number));
        }
        if found.is_empty() {
            let pattern = text_of(self.alloc, typed, Charset::Utf8)?;
            self.say("Nothing is called so: ", pattern.as_str())?;
        } else {
            self.list_found(found)?;
        }
        Ok(None)
    }

    fn list_found(&mut self, found: &[ConferenceName]) -> Result<(), VisitEnd>
        ensures { self.new.exchange.columns ≡ self.old.exchange.columns }
    {
        self.say("Several are called so:", "")?;
        for each in found.iter().take(LISTED) {
            let text = found_line(self.alloc, each)?;
            self.say("", text.as_str())?;
        }
        if found.len() > LISTED {
            let text = more_line(self.alloc, found.len() - LISTED)?;
            self.say("", text.as_str())?;
        }
        Ok(())
    }
}

/// The request for the conferences and persons that a pattern matches.
fn names_request(
    alloc: Global,
    pattern: &[u8],
    persons: bool,
    conferences: bool,
) -> Result<Request, VisitEnd>
    ensures { IfOk result (λ request. request.call ≡ 76) }
{
    let mut request = Request::new(alloc, 76);
    request.text(alloc, pattern)?;
    request.number(u32::from(persons))?;
    request.number(u32::from(conferences))?;
    Ok(request)
}

/// Where the one stands that is called exactly so, or else the only one; or no place of these.
fn choice_of(alloc: Global, typed: &[u8], found: &[ConferenceName]) -> Result<usize, AllocError> {
    for (at, each) in found.iter().enumerate() {
        let name = text_of(alloc, each.name.as_slice(), Charset::Latin1)?;
        if name.as_bytes().eq_ignore_ascii_case(typed) {
            return Ok(at);
        }
    }
    if found.len() == 1 {
        Ok(0)
    } else {
        Ok(found.len())
    }
}

fn found_line(alloc: Global, found: &ConferenceName) -> Result<String, AllocError> {
    let number = found.number;
    let name = text_of(alloc, found.name.as_slice(), Charset::Latin1)?;
    format!(in alloc; "{number:>7} {name}")
}

fn more_line(alloc: Global, more: usize) -> Result<String, AllocError> {
    format!(in alloc; "and {more} more")
}
