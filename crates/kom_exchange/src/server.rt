ghost use Rattle.std.specs.Prelude.{◌≡◌, ◌≢◌, IfOk, OnOk, IfSome, []};
ghost use Rattle.std.specs.Str.{chars};
ghost use Rattle.kom_framing.specs.declared.units.Unit.TheVariants as units;
ghost use Rattle.kom_links.specs.Outside.{IsFresh};
ghost use Rattle.kom_reader.specs.Links.{parts_of};
ghost use Rattle.kom_exchange.specs.Asking.{HasSpelled, LogsIn, with_request};
ghost use Rattle.kom_exchange.specs.Fair.{stat_request, body_request};
ghost use Rattle.kom_exchange.specs.Goes.{Goes, Hears, Marks, MarksOne, mark};
ghost use Rattle.kom_exchange.specs.Hearing.{Feeds};
ghost use Rattle.kom_exchange.specs.Steps.{HasHeard, HasReplied, HasStat, IsIn};
ghost use Rattle.kom_exchange.specs.Steps.{HasAskedBoth, HasHeardBoth, HasTold};

use crate::buffer::Buffer;
use crate::reading::Fetched;
use crate::request::{Argument, Request};
use crate::requests::{Requests, after, log_in};
use crate::told::{Told, stat_by, told_by};
use crate::visit_end::VisitEnd;
use kom_framing::{FeedRefusal, Line, Splitter, Unit};
use kom_links::{Got, Link};
use kom_reader::{Part, Reader, parts_of};
use kom_records::{ResultKind, read_message, read_reply, reference_of};
use kom_types::{Memory, Message, Reply, TextStat};
use std::alloc::Global;
use std::collections::VecDeque;
use std::marker::Model;
use std::sync::Wait;

/// A server, over a link: what is asked of it, in order, and what it answers and tells.
pub(crate) struct Server<L: Link> {
    requests: Requests<L>,
    splitter: Splitter,
    has_fault: bool,
    buffer: Buffer,
    // The reference of the next reply.
    awaited: u32,
    messages: VecDeque<Message>,
}

impl<L: Link> Model for Server<L> {
    ghost use Rattle.kom_exchange.specs.Asking.{Asking};
    ghost use Rattle.kom_exchange.specs.Hearing.{IsSplit};

    ghost Value = { Asking };

    ghost view = { λ s. s.requests };

    ghost invariant = { λ s. IsSplit s.splitter s.has_fault s.requests.link.taken };
}

impl<L: Link> Drop for Server<L> {
    fn drop(self) {
        let Server {
            requests,
            splitter,
            has_fault: _,
            buffer,
            awaited: _,
            messages,
        } = self;
        drop((requests, splitter));
        drop((buffer, messages));
    }
}

impl<L: Link> Server<L> {
    #[tactic(auto, using(crate::proofs::Splitting::split_new, crate::proofs::Splitting::fresh_put))]
    pub(crate) fn new(alloc: Global, link: L, user: &[u8]) -> Result<Server<L>, Memory>
        requires { IsFresh (L.view link) }
        ensures link { IfOk result (λ server. server.link ≡ L.view link) }
        ensures asked { IfOk result (λ server. server.asked ≡ []) }
    {
        let buffer = Buffer::new(alloc)?;
        let requests = Requests::new(alloc, link, user)?;
        Ok(Server {
            requests,
            splitter: Splitter::of_replies(alloc),
            has_fault: false,
            buffer,
            awaited: 1,
            messages: VecDeque::new(alloc),
        })
    }

    /// The link alone.
    pub(crate) fn into_link(self) -> L
        ensures { L.view result ≡ self.link }
    {
        let Server {
            requests,
            splitter,
            has_fault: _,
            buffer,
            awaited: _,
            messages,
        } = self;
        drop((splitter, buffer));
        drop(messages);
        requests.into_link()
    }

    /// Does nothing: it is for clauses, which find here what the link took.
    pub(crate) fn assured(&self)
        ensures { HasSpelled self.now }
    {
        self.requests.assured();
    }

    /// Greets the server, and awaits its greeting.
    pub(crate) fn greet<R: Wait>(&mut self, rt: &R) -> Result<(), VisitEnd>
        ensures { Goes self.old self.new }
    {
        self.send(rt)?;
        match self.next_unit(rt)? {
            Unit::Hello(_) => Ok(()),
            Unit::Line(_) => Err(VisitEnd::Broken),
        }
    }

    /// Asks for something: the reference of the request.
    #[tactic(auto, using(crate::proofs::Going::goes_asked, crate::proofs::Going::goes_same))]
    pub(crate) fn ask(&mut self, request: &Request) -> Result<u32, VisitEnd>
        requires { request.now.call ≢ 27 }
        ensures asks { OnOk result (self.new ≡ with_request request.now self.old) }
        ensures reference { IfOk result (λ reference. reference ≡ self.old.next) }
        ensures goes { Goes self.old self.new }
    {
        match self.requests.ask(request) {
            Ok(reference) => Ok(reference),
            Err(end) => Err(end),
        }
    }

    /// Asks for something of which all arguments are numbers.
    #[tactic(auto, using(crate::proofs::Going::goes_none, crate::proofs::Going::call_as))]
    pub(crate) fn request(
        &mut self,
        alloc: Global,
        call: u32,
        numbers: &[u32],
    ) -> Result<(), VisitEnd>
        requires { call ≢ 27 }
        ensures { Goes self.old self.new }
    {
        let request = Request::of(alloc, call, numbers)?;
        self.ask(&request)?;
        Ok(())
    }

    /// Sends what was asked.
    #[tactic(auto, using(crate::proofs::Going::goes_from))]
    pub(crate) fn send<R: Wait>(&mut self, rt: &R) -> Result<(), VisitEnd>
        ensures goes { Goes self.old self.new }
        ensures asked { self.new.asked ≡ self.old.asked }
    {
        self.requests.send(rt)
    }

    /// Logs a person in, as `log_in` does.
    #[tactic(auto, using(crate::proofs::Logins::is_in, crate::proofs::Logins::logs_from, crate::proofs::Going::goes_from))]
    pub(crate) fn log_in<R: Wait>(
        &mut self,
        rt: &R,
        alloc: Global,
        person: u32,
        line: Vec<u8>,
    ) -> Result<bool, VisitEnd>
        ensures logs_in { LogsIn result person (chars line.items) self.old self.new }
        ensures logged { IfOk result (λ is_in. IsIn is_in person self.new) }
        ensures goes { Goes self.old self.new }
    {
        log_in(rt, alloc, &mut self.requests, person, line)
    }

    /// Asks that a text counts as read in each conference of the person in which it stands: how
    /// many requests that makes.
    #[tactic(auto, using(crate::proofs::Going::marks_none, crate::proofs::Going::marks_as))]
    pub(crate) fn mark_text(
        &mut self,
        alloc: Global,
        reader: &Reader,
        stat: &TextStat,
    ) -> Result<u64, VisitEnd>
        ensures marks { Marks (parts_of stat.now.misc_infos) self.old self.new }
        ensures spelled { HasSpelled self.old }
    {
        self.assured();
        let parts = parts_of(alloc, stat.misc_infos.as_slice())?;
        self.mark_parts(alloc, reader, parts.as_slice())
    }

    /// The same of each of these places that is in a conference of the person.
    #[tactic(auto, using(crate::proofs::Going::marks_none))]
    fn mark_parts(
        &mut self,
        alloc: Global,
        reader: &Reader,
        parts: &[Part],
    ) -> Result<u64, VisitEnd>
        ensures { Marks parts.now self.old self.new }
    {
        let mut count = 0u64;
        for part in parts {
            let marks = self.mark_own(alloc, reader, *part)?;
            count = count.saturating_add(marks);
        }
        Ok(count)
    }

    /// The same of one place.
    #[tactic(auto, using(crate::proofs::Going::one_none))]
    fn mark_own(&mut self, alloc: Global, reader: &Reader, part: Part) -> Result<u64, VisitEnd>
        ensures { MarksOne part self.old self.new }
    {
        if !reader.is_member(part.conference) {
            return Ok(0);
        }
        self.mark(alloc, part)?;
        Ok(1)
    }

    #[tactic(auto, using(crate::proofs::Going::one_none, crate::proofs::Going::one_asked, crate::proofs::Going::one_failed, crate::proofs::Going::one_from))]
    fn mark(&mut self, alloc: Global, part: Part) -> Result<(), VisitEnd>
        ensures { MarksOne part self.old self.new }
    {
        let request = mark_of(alloc, part)?;
        match self.requests.ask(&request) {
            Ok(_) => Ok(()),
            Err(end) => Err(end),
        }
    }

    /// A text, as the server answers, and what came of asking for it.
    #[tactic(auto, using(crate::proofs::Telling::told_both))]
    pub(crate) fn fetch_text<R: Wait>(
        &mut self,
        rt: &R,
        alloc: Global,
        text: u32,
    ) -> Result<(Option<Told>, Fetched), VisitEnd>
        ensures goes { Goes self.old self.new }
        ensures told { IfOk result (λ found. IfSome found.0 (λ told.
            HasTold self.new (Reply.TextStat told.stat) (Reply.Text told.body))) }
    {
        let (stat, body) = self.ask_text(rt, alloc, text)?;
        Ok(told_by(stat, body))
    }

    /// What is told of a text, by the next reply, which is awaited.
    #[tactic(auto, using(crate::proofs::Telling::has_stat))]
    pub(crate) fn text_stat<R: Wait>(
        &mut self,
        rt: &R,
        alloc: Global,
    ) -> Result<Option<TextStat>, VisitEnd>
        ensures hears { Hears self.old self.new }
        ensures told { IfOk result (λ found. IfSome found (HasStat self.new)) }
    {
        let (_, body) = self.reply(rt, alloc, ResultKind::TextStat)?;
        Ok(stat_by(body))
    }

    /// What is told of a text, and its body, as the server answers.
    #[tactic(auto, using(crate::proofs::Telling::told_here))]
    fn ask_text<R: Wait>(
        &mut self,
        rt: &R,
        alloc: Global,
        text: u32,
    ) -> Result<(Reply, Reply), VisitEnd>
        ensures goes { Goes self.old self.new }
        ensures told { IfOk result (λ replies. HasTold self.new replies.0 replies.1) }
    {
        let (first, second) = self.ask_both(alloc, text)?;
        self.send(rt)?;
        let both = self.hear_both(rt, alloc)?;
        if both.first != first || both.second != second {
            return Err(VisitEnd::Broken);
        }
        Ok((both.stat, both.body))
    }

    /// Asks for what is told of a text and for its body: the references of the requests.
    #[tactic(auto, using(crate::proofs::Going::goes_none, crate::proofs::Going::goes_trans, crate::proofs::Telling::asked_both, crate::proofs::Telling::stat_plain, crate::proofs::Telling::body_plain))]
    fn ask_both(&mut self, alloc: Global, text: u32) -> Result<(u32, u32), VisitEnd>
        ensures goes { Goes self.old self.new }
        ensures asked { IfOk result (λ references.
            HasAskedBoth text references.0 references.1 self.new) }
    {
        let stat = stat_request(alloc, text)?;
        let body = body_request(alloc, text)?;
        let first = self.ask(&stat)?;
        let second = self.ask(&body)?;
        Ok((first, second))
    }

    /// The next two replies, which are awaited.
    #[tactic(auto, using(crate::proofs::Telling::heard_both))]
    fn hear_both<R: Wait>(&mut self, rt: &R, alloc: Global) -> Result<Both, VisitEnd>
        ensures hears { Hears self.old self.new }
        ensures told { IfOk result (λ both. HasHeardBoth self.new
            both.first both.second both.stat both.body) }
    {
        let (first, stat) = self.reply(rt, alloc, ResultKind::TextStat)?;
        let (second, body) = self.reply(rt, alloc, ResultKind::Text)?;
        Ok(Both {
            first,
            second,
            stat,
            body,
        })
    }

    /// The next reply, which is awaited, with its reference.
    #[tactic(auto, using(crate::proofs::Telling::has_reply))]
    pub(crate) fn reply<R: Wait>(
        &mut self,
        rt: &R,
        alloc: Global,
        kind: ResultKind,
    ) -> Result<(u32, Reply), VisitEnd>
        ensures hears { Hears self.old self.new }
        ensures told { IfOk result (λ read. HasReplied kind read self.new) }
    {
        let line = self.reply_line(rt, alloc)?;
        let read = read_reply(alloc, kind, &line)?;
        Ok(read)
    }

    /// The line of the next reply. What else the server tells before it is held.
    #[tactic(auto, using(crate::proofs::Going::hears_none, crate::proofs::Going::hears_trans, crate::proofs::Going::hears_same, crate::proofs::Telling::heard_same))]
    fn reply_line<R: Wait>(&mut self, rt: &R, alloc: Global) -> Result<Line, VisitEnd>
        ensures hears { Hears self.old self.new }
        ensures heard { IfOk result (λ line. HasHeard (units.Line line) self.new) }
    {
        for _ in rt.forever() {
            let line = self.next_line(rt)?;
            match reference_of(&line) {
                Some(reference) => {
                    self.expect(reference)?;
                    return Ok(line);
                }
                None => self.hold(alloc, &line)?,
            }
        }
        unreachable!()
    }

    fn expect(&mut self, reference: u32) -> Result<(), VisitEnd>
        ensures { self.new ≡ self.old }
    {
        if reference != self.awaited {
            return Err(VisitEnd::Broken);
        }
        self.awaited = after(reference);
        Ok(())
    }

    /// Takes what the server wrote, without a wait for more, where something is ready.
    #[tactic(auto, using(crate::proofs::Going::hears_same))]
    pub(crate) fn listen(&mut self, alloc: Global) -> Result<(), VisitEnd>
        ensures { Hears self.old self.new }
    {
        self.hear_more()?;
        self.hold_all(alloc)
    }

    fn hold_all(&mut self, alloc: Global) -> Result<(), VisitEnd>
        ensures { self.new ≡ self.old }
    {
        for _ in 0..u64::MAX {
            match self.take_unit() {
                Some(Unit::Line(line)) => self.hold(alloc, &line)?,
                Some(Unit::Hello(_)) => return Err(VisitEnd::Broken),
                None => return Ok(()),
            }
        }
        Ok(())
    }

    /// The next message that nobody took.
    pub(crate) fn message(&mut self) -> Option<Message>
        ensures { self.new ≡ self.old }
    {
        self.messages.pop_front()
    }

    pub(crate) fn has_message(&self) -> bool {
        !self.messages.is_empty()
    }

    fn hold(&mut self, alloc: Global, line: &Line) -> Result<(), VisitEnd>
        ensures { self.new ≡ self.old }
    {
        let message = read_message(alloc, line)?;
        self.messages.push_back(message)?;
        Ok(())
    }

    fn next_line<R: Wait>(&mut self, rt: &R) -> Result<Line, VisitEnd>
        ensures hears { Hears self.old self.new }
        ensures heard { IfOk result (λ line. HasHeard (units.Line line) self.new) }
    {
        match self.next_unit(rt)? {
            Unit::Line(line) => Ok(line),
            Unit::Hello(_) => Err(VisitEnd::Broken),
        }
    }

    #[tactic(auto, using(crate::proofs::Going::hears_none, crate::proofs::Going::hears_trans, crate::proofs::Going::hears_same))]
    fn next_unit<R: Wait>(&mut self, rt: &R) -> Result<Unit, VisitEnd>
        ensures hears { Hears self.old self.new }
        ensures heard { IfOk result (λ one. HasHeard one self.new) }
    {
        for _ in rt.forever() {
            match self.take_unit() {
                Some(one) => return Ok(one),
                None => self.hear_more()?,
            }
        }
        unreachable!()
    }

    /// The next unit that is complete.
    #[tactic(auto, using(crate::proofs::Splitting::unit_heard))]
    fn take_unit(&mut self) -> Option<Unit>
        ensures same { self.new ≡ self.old }
        ensures heard { IfSome result (λ one. HasHeard one self.new) }
    {
        self.splitter.next_unit()
    }

    /// Reads once what the server wrote.
    #[tactic(auto, using(crate::proofs::Splitting::split_same, crate::proofs::Going::hears_read, crate::proofs::Going::hears_none, crate::proofs::Going::hears_from))]
    fn hear_more(&mut self) -> Result<(), VisitEnd>
        ensures { Hears self.old self.new }
    {
        if self.has_fault {
            return Err(VisitEnd::Broken);
        }
        match self.requests.read(&mut self.buffer) {
            Got::Some(count) => feed(
                &mut self.splitter,
                &mut self.has_fault,
                self.buffer.first(count),
            ),
            Got::NotYet => Ok(()),
            Got::End => Err(VisitEnd::ServerEnd),
            Got::Failed => Err(VisitEnd::LinkFault),
        }
    }
}

/// Takes the next piece of the server's stream, and notes its fault.
#[tactic(auto, using(crate::proofs::Splitting::feeds_none))]
fn feed(splitter: &mut Splitter, has_fault: &mut bool, piece: &[u8]) -> Result<(), VisitEnd>
    ensures { Feeds splitter.old piece.now splitter.new has_fault.new }
{
    match splitter.feed(piece) {
        Ok(()) => Ok(()),
        Err(FeedRefusal::Malformed(_place)) => {
            *has_fault = true;
            Ok(())
        }
        Err(FeedRefusal::LineTooLong(_place)) => {
            *has_fault = true;
            Ok(())
        }
        Err(FeedRefusal::Memory) => {
            *has_fault = true;
            Err(VisitEnd::Memory)
        }
    }
}

/// What is told of a text and its body, each with the reference of its request.
#[derive(Drop)]
struct Both {
    first: u32,
    second: u32,
    stat: Reply,
    body: Reply,
}

/// The request for what is told of a text.
fn stat_request(alloc: Global, text: u32) -> Result<Request, Memory>
    ensures { IfOk result (λ request. request ≡ stat_request text) }
{
    Request::of(alloc, 90, &[text])
}

/// The request for a text's body, whole.
fn body_request(alloc: Global, text: u32) -> Result<Request, Memory>
    ensures { IfOk result (λ request. request ≡ body_request text) }
{
    Request::of(alloc, 25, &[text, 0, u32::MAX])
}

/// The request that a text counts as read.
fn mark_of(alloc: Global, part: Part) -> Result<Request, Memory>
    ensures { IfOk result (λ request. request ≡ mark part) }
{
    let mut request = Request::new(alloc, 27);
    request.number(part.conference)?;
    request.number(1)?;
    request.word(Argument::Open)?;
    request.number(part.local)?;
    request.word(Argument::Close)?;
    Ok(request)
}
