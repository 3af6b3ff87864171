//! Single questions to the server.
ghost use Rattle.std.specs.Prelude.{◌≡◌, ◌≢◌};

use crate::drafts::Drafts;
use crate::replies::{Refusal, name_in, refusal_in, stat_in};
use crate::visitor::Visitor;
use kom_exchange::{VisitEnd, Waiting};
use kom_links::{Link, Sink};
use kom_records::ResultKind;
use kom_types::{Reply, TextStat};
use std::alloc::{AllocError, Global};
use std::sync::Wait;

impl<W: Waiting, K: Link, L: Link, S: Sink, D: Drafts> Visitor<W, K, L, S, D> {
    /// Sends what was begun.
    pub(crate) fn send<R: Wait>(&mut self, rt: &R) -> Result<(), VisitEnd>
        ensures { self.new.exchange.columns ≡ self.old.exchange.columns }
    {
        self.exchange.send(rt)
    }

    /// The next reply.
    pub(crate) fn reply<R: Wait>(&mut self, rt: &R, kind: ResultKind) -> Result<Reply, VisitEnd>
        ensures { self.new.exchange.columns ≡ self.old.exchange.columns }
    {
        self.exchange.reply(rt, kind)
    }

    /// The reply to one request whose arguments are numbers.
    pub(crate) fn ask<R: Wait>(
        &mut self,
        rt: &R,
        call: u32,
        numbers: &[u32],
        kind: ResultKind,
    ) -> Result<Reply, VisitEnd>
        requires { call ≢ 27 }
        ensures { self.new.exchange.columns ≡ self.old.exchange.columns }
    {
        self.exchange.request(call, numbers)?;
        self.send(rt)?;
        self.reply(rt, kind)
    }

    /// Sends what was begun, and awaits so many replies.
    pub(crate) fn send_and_await<R: Wait>(&mut self, rt: &R, count: u64) -> Result<(), VisitEnd>
        ensures { self.new.exchange.columns ≡ self.old.exchange.columns }
    {
        self.send(rt)?;
        for _ in 0..count {
            self.refusal(rt)?;
        }
        Ok(())
    }

    /// Awaits the reply to a call without a result: why it was refused, if it was.
    fn refusal<R: Wait>(&mut self, rt: &R) -> Result<Option<Refusal>, VisitEnd>
        ensures { self.new.exchange.columns ≡ self.old.exchange.columns }
    {
        let reply = self.reply(rt, ResultKind::Done)?;
        Ok(refusal_in(reply))
    }

    /// Whether a call without a result was done; if not, it says why.
    pub(crate) fn is_done<R: Wait>(&mut self, rt: &R) -> Result<bool, VisitEnd>
        ensures { self.new.exchange.columns ≡ self.old.exchange.columns }
    {
        match self.refusal(rt)? {
            Some(refusal) => {
                self.say_refused(refusal)?;
                Ok(false)
            }
            None => Ok(true),
        }
    }

    /// Says why the server refused something.
    pub(crate) fn say_refused(&mut self, refusal: Refusal) -> Result<(), VisitEnd>
        ensures { self.new.exchange.columns ≡ self.old.exchange.columns }
    {
        let why = refusal_line(self.alloc, refusal)?;
        self.say("The server refused: ", why.as_str())
    }

    /// What is told of a text, or nothing where that is refused.
    pub(crate) fn stat_of<R: Wait>(
        &mut self,
        rt: &R,
        text: u32,
    ) -> Result<Option<TextStat>, VisitEnd>
        ensures { self.new.exchange.columns ≡ self.old.exchange.columns }
    {
        let reply = self.ask(rt, 90, &[text], ResultKind::TextStat)?;
        Ok(stat_in(reply))
    }

    /// Learns the names of conferences and persons that are not known.
    pub(crate) fn learn_names<R: Wait>(&mut self, rt: &R, numbers: &[u32]) -> Result<(), VisitEnd>
        ensures { self.new.exchange.columns ≡ self.old.exchange.columns }
    {
        let asked = self.ask_names(numbers)?;
        if asked.is_empty() {
            return Ok(());
        }
        self.send(rt)?;
        for each in &asked {
            self.take_name(rt, *each)?;
        }
        Ok(())
    }

    /// Asks for the names that are not known, and returns of whom.
    fn ask_names(&mut self, numbers: &[u32]) -> Result<Vec<u32>, VisitEnd>
        ensures { self.new.exchange.columns ≡ self.old.exchange.columns }
    {
        let mut asked = Vec::new(self.alloc);
        for number in numbers {
            if *number != 0 && !self.names.has(*number) {
                self.exchange.request(78, &[*number])?;
                asked.push(*number)?;
            }
        }
        Ok(asked)
    }

    /// Awaits the name of a conference or person.
    fn take_name<R: Wait>(&mut self, rt: &R, number: u32) -> Result<(), VisitEnd>
        ensures { self.new.exchange.columns ≡ self.old.exchange.columns }
    {
        let reply = self.reply(rt, ResultKind::UConference)?;
        if let Some(name) = name_in(reply) {
            self.names.learn(self.alloc, number, name.as_slice())?;
        }
        Ok(())
    }

    /// Learns a name.
    pub(crate) fn learn_name<R: Wait>(&mut self, rt: &R, number: u32) -> Result<(), VisitEnd>
        ensures { self.new.exchange.columns ≡ self.old.exchange.columns }
    {
        self.learn_names(rt, &[number])
    }

    /// A name as it is shown, which was learnt before.
    pub(crate) fn name_of(&self, number: u32) -> Result<String, VisitEnd> {
        Ok(String::from_str(self.alloc, self.names.name(number))?)
    }
}

/// Why something was refused, in words and numbers.
fn refusal_line(alloc: Global, refusal: Refusal) -> Result<String, AllocError> {
    let code = refusal.code;
    let status = refusal.status;
    let why = why_of(code);
    format!(in alloc; "{why} (error {code}, {status}).")
}

/// What the code of a refusal means.
fn why_of(code: u32) -> &'static str {
    match code {
        4 => "that is not the password",
        5 => "that is too long",
        9 => "there is no such conference",
        10 => "there is no such person",
        11 => "you may not read or write there",
        12 => "you may not do that",
        13 => "you are no member",
        14 => "there is no such text, or you may not read it",
        16 => "there is no such text in the conference",
        18 => "that is no name",
        20 | 21 => "there is such a name",
        27 => "that is a recipient already",
        28 | 29 => "that comments on it already",
        30 => "that is no recipient",
        33 => "there are too many recipients",
        34 | 35 => "there are too many comments",
        36 => "you have too many marks",
        37 => "you did not write it",
        39 => "the server has no memory left",
        44 => "you have no mark on it",
        45 => "the server has no room left",
        53 => "nobody is there to hear it",
        _ => "it says only a number",
    }
}
