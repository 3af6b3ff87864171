ghost use Rattle.std.specs.Prelude.{◌≡◌, ◌∷◌, [], List, ℕ, OnOk, IfOk};
ghost use Rattle.kom_links.specs.Doors.{SinkView};
ghost use Rattle.kom_links.specs.Outside.{LinkView};
ghost use Rattle.kom_client.specs.Keys.{person_after};
ghost use Rattle.kom_client.specs.Seen.{request_seen};
ghost use Rattle.kom_client.specs.Client.{answers, turn_after, first_turn, reference_after};
ghost use Rattle.kom_client.specs.Client.{IsUntouched, Shows};
ghost use Rattle.kom_client.specs.Talking.{Rest, Does, HearsLine, Spells, TakesReply, Greets};
ghost use Rattle.kom_client.specs.Talking.{IsHearing, await_reply, ask_then};
ghost use Rattle.kom_client.specs.Talkers.{turn_of, world};

use crate::hearing::Hearing;
use crate::keys::{Request, request_of};
use crate::replies::{Reply, put_good, put_message, put_refusal, reply_of};
use crate::requests::{put_greeting, put_request};
use crate::saying::{send, show};
use crate::talk_end::TalkEnd;
use kom_framing::{Line, Unit, Writer};
use kom_links::{Link, Sink};
use kom_types::Memory;
use std::alloc::Global;
use std::sync::Wait;

/// What a client keeps between two key lines.
pub(crate) struct Talker {
    pub(crate) hearing: Hearing,
    pub(crate) writer: Writer,
    // The reference of the next request.
    pub(crate) reference: u32,
    // The person of the last login line.
    pub(crate) person: Vec<u8>,
}

impl Drop for Talker {
    fn drop(self) {
        let Talker {
            hearing,
            writer,
            reference: _,
            person,
        } = self;
        drop((hearing, writer));
        drop(person);
    }
}

impl Talker {
    /// Nothing was said.
    pub(crate) fn new(alloc: Global) -> Result<Talker, Memory>
        ensures hears { IfOk result (λ talker.
            IsHearing talker.hearing.splitter talker.hearing.fault [] []) }
        ensures turn { IfOk result (λ talker. turn_of talker ≡ first_turn) }
    {
        let person = b"0".to_vec(alloc)?;
        let hearing = Hearing::new(alloc)?;
        Ok(Talker {
            hearing,
            writer: Writer::new(alloc),
            reference: 1,
            person,
        })
    }

    /// Takes a key line, without its line feed.
    pub(crate) fn take_line<R: Wait, L: Link, S: Sink>(
        &mut self,
        rt: &R,
        link: &mut L,
        out: &mut S,
        text: &[u8],
    ) -> Result<(), TalkEnd>
        ensures { Does result
            (λ (more : List (List ℕ)). answers (turn_of self.old) (text.now ∷ more))
            (λ (more : List (List ℕ)). answers (turn_of self.new) more)
            (world self.old (L.view link.old) (S.view out.old))
            (world self.new (L.view link.new) (S.view out.new)) }
    {
        match request_of(text) {
            Some(request) => self.ask(rt, link, out, &request),
            None => show(out, b"?\n"),
        }
    }

    /// Sends a request and awaits its reply.
    fn ask<R: Wait, L: Link, S: Sink>(
        &mut self,
        rt: &R,
        link: &mut L,
        out: &mut S,
        request: &Request<'_>,
    ) -> Result<(), TalkEnd>
        ensures turn { OnOk result (turn_of self.new
            ≡ turn_after (request_seen request.now) (turn_of self.old)) }
        ensures asks { Does result (ask_then (turn_of self.old) (request_seen request.now))
            (λ (next : Rest). next)
            (world self.old (L.view link.old) (S.view out.old))
            (world self.new (L.view link.new) (S.view out.new)) }
    {
        let person = self.person.as_slice();
        put_request(&mut self.writer, self.reference, person, request)?;
        send(rt, link, self.writer.bytes())?;
        self.await_reply(rt, link, out)?;
        self.reference = next_reference(self.reference);
        remember_person(&mut self.person, request)?;
        Ok(())
    }

    /// Awaits the reply to the last request.
    fn await_reply<R: Wait, L: Link, S: Sink>(
        &mut self,
        rt: &R,
        link: &mut L,
        out: &mut S,
    ) -> Result<(), TalkEnd>
        ensures turn { turn_of self.new ≡ turn_of self.old }
        ensures awaits { Does result (await_reply self.old.reference) (λ (next : Rest). next)
            (world self.old (L.view link.old) (S.view out.old))
            (world self.new (L.view link.new) (S.view out.new)) }
    {
        for _ in rt.forever() {
            let line = self.next_line(rt, link)?;
            let is_reply = self.take_reply(out, &line)?;
            if is_reply {
                return Ok(());
            }
        }
        unreachable!()
    }

    /// The next line of the server, which is awaited.
    fn next_line<R: Wait, L: Link>(&mut self, rt: &R, link: &mut L) -> Result<Line, TalkEnd>
        ensures turn { turn_of self.new ≡ turn_of self.old }
        ensures hears { (sink : SinkView) → HearsLine result
            (world self.old (L.view link.old) sink) (world self.new (L.view link.new) sink) }
    {
        match self.hearing.hear(rt, link)? {
            Unit::Line(line) => Ok(line),
            Unit::Hello(_) => Err(TalkEnd::Broken(0)),
        }
    }

    /// Takes a line of the server while a reply is awaited: whether it is the reply.
    fn take_reply<S: Sink>(&mut self, out: &mut S, line: &Line) -> Result<bool, TalkEnd>
        ensures turn { turn_of self.new ≡ turn_of self.old }
        ensures takes { (link : LinkView) → TakesReply result self.old.reference line.now
            (world self.old link (S.view out.old)) (world self.new link (S.view out.new)) }
    {
        let is_reply = spell_reply(&mut self.writer, self.reference, line)?;
        show(out, self.writer.bytes())?;
        Ok(is_reply)
    }

    /// Greets the server as a user, and awaits its answer.
    pub(crate) fn greet<R: Wait, L: Link>(
        &mut self,
        rt: &R,
        link: &mut L,
        user: &[u8],
    ) -> Result<(), TalkEnd>
        requires untouched { IsUntouched (L.view link.old) }
        requires nothing { IsHearing self.old.hearing.splitter self.old.hearing.fault [] [] }
        ensures turn { turn_of self.new ≡ turn_of self.old }
        ensures greets { (sink : SinkView) → Shows sink []
            → Greets result user.now
            (record { link = (L.view link.old).faults; sink = sink.faults })
            (world self.new (L.view link.new) sink) }
    {
        put_greeting(&mut self.writer, user)?;
        send(rt, link, self.writer.bytes())?;
        match self.hearing.hear(rt, link)? {
            Unit::Hello(_) => Ok(()),
            Unit::Line(_) => Err(TalkEnd::Broken(0)),
        }
    }
}

/// The reference after this one.
fn next_reference(reference: u32) -> u32
    ensures { result ≡ reference_after reference }
{
    if reference == u32::MAX {
        1
    } else {
        reference + 1
    }
}

/// Keeps the person of a login.
fn remember_person(person: &mut Vec<u8>, request: &Request<'_>) -> Result<(), Memory>
    ensures { OnOk result
        (person.new.items ≡ person_after (request_seen request.now) person.old.items) }
{
    match *request {
        Request::Login(number, _) => {
            person.clear();
            person.extend_from_slice(number)?;
            Ok(())
        }
        Request::Unread
        | Request::Read(_)
        | Request::Write(_, _)
        | Request::Comment(_, _, _)
        | Request::Mark(_, _) => Ok(()),
    }
}

/// Spells what is shown of a line while the reply with this reference is awaited, in place of what
/// was written: whether the line is the reply.
fn spell_reply(writer: &mut Writer, reference: u32, line: &Line) -> Result<bool, TalkEnd>
    ensures { Spells result reference line.now writer.new.bytes }
{
    match reply_of(line) {
        Reply::Good(number) => {
            if number != reference {
                return Err(TalkEnd::Broken(line.end()));
            }
            put_good(writer, line)?;
            Ok(true)
        }
        Reply::Refusal(number, code, status) => {
            if number != reference {
                return Err(TalkEnd::Broken(line.end()));
            }
            put_refusal(writer, code, status)?;
            Ok(true)
        }
        Reply::Message(digits) => {
            put_message(writer, digits, line)?;
            Ok(false)
        }
        Reply::Departs => Err(TalkEnd::Broken(line.end())),
    }
}
