//! What is asked of a server, in order.
ghost use Rattle.std.specs.Prelude.{◌≡◌, ◌≢◌, ◌∷◌, ◌++◌, [], true, OnOk, OnErr, IfOk, map};
ghost use Rattle.std.specs.Str.{chars};
ghost use Rattle.kom_types.specs.Printing.{line_of};
ghost use Rattle.kom_links.specs.Outside.{Reads, IsNothing};
ghost use Rattle.kom_framing.specs.Writing.{put_word};
ghost use Rattle.kom_exchange.specs.Asking.{LogsIn, Sends, login, reference_after};
ghost use Rattle.kom_exchange.specs.Asking.{with_request, word_of, words_of, greeting};
ghost use Rattle.kom_exchange.specs.Asking.{HasSpelled};
ghost use Rattle.kom_exchange.specs.Goes.{Goes};
ghost use Rattle.kom_exchange.specs.Writing.{put_words};

use crate::buffer::Buffer;
use crate::request::{Argument, Request};
use crate::visit_end::VisitEnd;
use http_server::Log;
use kom_framing::Writer;
use kom_letters::{Unsendable, name_bytes};
use kom_links::{Got, Link, Took};
use kom_types::Memory;
use std::alloc::Global;
use std::marker::Model;
use std::sync::Wait;

/// Requests to a server, over a link: those that were asked are sent together.
pub struct Requests<L: Link> {
    link: L,
    writer: Writer,
    // The reference of the next request.
    next: u32,
    // A request was not spelled whole, or not sent whole: nothing more is sent.
    has_failed: bool,
    log: Log<u32, Request>,
}

impl<L: Link> Model for Requests<L> {
    ghost use Rattle.kom_exchange.specs.Asking.{Asking, IsSpelled};

    ghost Value = { Asking };

    ghost view = { λ r. record {
      link = L.view r.link;
      asked = r.log.items;
      waiting = r.writer.bytes;
      next = r.next;
      has_failed = r.has_failed;
    } };

    ghost invariant = { λ r. IsSpelled (L.view r.link) r.log.items r.writer r.has_failed };
}

impl<L: Link> Drop for Requests<L> {
    fn drop(self) {
        let Requests {
            link,
            writer,
            next: _,
            has_failed: _,
            log,
        } = self;
        drop((link, writer));
        drop(log);
    }
}

impl<L: Link> Requests<L> {
    /// Nothing was asked, and the greeting of a user waits to be sent.
    #[tactic(auto, using(crate::proofs::Spelling::spelled_new))]
    pub fn new(alloc: Global, link: L, user: &[u8]) -> Result<Requests<L>, Memory>
        requires { IsNothing (L.view link).put }
        ensures link { IfOk result (λ requests. requests.link ≡ L.view link) }
        ensures asked { IfOk result (λ requests. requests.asked ≡ []) }
    {
        let writer = greeting_of(alloc, user)?;
        Ok(Requests {
            link,
            writer,
            next: 1,
            has_failed: false,
            log: Log::new(),
        })
    }

    /// The link alone.
    pub(crate) fn into_link(self) -> L
        ensures { L.view result ≡ self.link }
    {
        let Requests {
            link,
            writer,
            next: _,
            has_failed: _,
            log,
        } = self;
        drop((writer, log));
        link
    }

    /// Reads once what the server wrote.
    #[tactic(auto, using(crate::proofs::Spelling::spelled_read))]
    pub(crate) fn read(&mut self, buffer: &mut Buffer) -> Got
        ensures reads { Reads self.old.link buffer.new.bytes.items result self.new.link }
        ensures same { self.new ≡ record self.old { link = self.new.link } }
    {
        buffer.read(&mut self.link)
    }

    /// Asks for something: the reference of the request.
    #[tactic(auto, using(crate::proofs::Spelling::spelled_more, crate::proofs::Spelling::spelled_failed, crate::proofs::Going::goes_asked, crate::proofs::Going::goes_same, crate::proofs::Going::goes_none, crate::proofs::Going::goes_from))]
    pub(crate) fn ask(&mut self, request: &Request) -> Result<u32, VisitEnd>
        ensures asks { OnOk result (self.new ≡ with_request request.now self.old) }
        ensures reference { IfOk result (λ reference. reference ≡ self.old.next) }
        ensures link { self.new.link ≡ self.old.link }
        ensures asked { OnErr result (self.new.asked ≡ self.old.asked) }
        ensures goes { request.now.call ≢ 27 → Goes self.old self.new }
    {
        if self.has_failed {
            return Err(VisitEnd::LinkFault);
        }
        match put_request(&mut self.writer, self.next, request) {
            Ok(()) => {
                let reference = self.next;
                self.log = self.log.and(&reference, request);
                self.next = after(reference);
                Ok(reference)
            }
            Err(Memory) => {
                self.has_failed = true;
                Err(VisitEnd::Memory)
            }
        }
    }

    /// Does nothing: it is for clauses, which find here what the link took.
    pub(crate) fn assured(&self)
        ensures { HasSpelled self.now }
    {
        let _ = &self.writer;
    }

    /// Sends what waits.
    #[tactic(auto, using(crate::proofs::Spelling::spelled_sent, crate::proofs::Spelling::spelled_part, crate::proofs::Spelling::sends_none, crate::proofs::Going::goes_sent, crate::proofs::Going::goes_part, crate::proofs::Going::goes_none, crate::proofs::Going::goes_from))]
    pub(crate) fn send<R: Wait>(&mut self, rt: &R) -> Result<(), VisitEnd>
        ensures sends { Sends result self.old.link self.old.waiting self.new.link }
        ensures asked { self.new.asked ≡ self.old.asked }
        ensures next { self.new.next ≡ self.old.next }
        ensures waiting { OnOk result (self.new.waiting ≡ []) }
        ensures goes { Goes self.old self.new }
    {
        if self.has_failed {
            return Err(VisitEnd::LinkFault);
        }
        match send(rt, &mut self.link, self.writer.bytes()) {
            Ok(()) => {
                self.writer.clear();
                Ok(())
            }
            Err(end) => {
                self.has_failed = true;
                Err(end)
            }
        }
    }
}

/// Asks a server to log a person in, with the line that was typed as the password, and drops the
/// line: nothing but what the link took has it then. A line that has letters which a password
/// cannot have is not sent.
#[tactic(auto, using(crate::proofs::Logins::logs_as, crate::proofs::Logins::none_sent, crate::proofs::Going::goes_none))]
pub fn log_in<R: Wait, L: Link>(
    rt: &R,
    alloc: Global,
    requests: &mut Requests<L>,
    person: u32,
    line: Vec<u8>,
) -> Result<bool, VisitEnd>
    ensures logs_in { LogsIn result person (chars line.items) requests.old requests.new }
    ensures goes { Goes requests.old requests.new }
{
    match name_bytes(alloc, line.as_slice()) {
        Ok(password) => ask_login(rt, alloc, requests, person, password.as_slice()),
        Err(Unsendable::Memory) => Err(VisitEnd::Memory),
        Err(Unsendable::NotUtf8 | Unsendable::NotLatin1) => Ok(false),
    }
}

/// The same with a password as it is sent.
#[tactic(auto, using(crate::proofs::Logins::logged_in, crate::proofs::Logins::none_sent, crate::proofs::Logins::same_sent, crate::proofs::Logins::part_sent, crate::proofs::Going::goes_none, crate::proofs::Going::goes_same, crate::proofs::Going::goes_login, crate::proofs::Going::goes_trans))]
fn ask_login<R: Wait, L: Link>(
    rt: &R,
    alloc: Global,
    requests: &mut Requests<L>,
    person: u32,
    password: &[u8],
) -> Result<bool, VisitEnd>
    ensures logs_in { LogsIn result person password.now requests.old requests.new }
    ensures goes { Goes requests.old requests.new }
{
    let request = match login_of(alloc, person, password) {
        Ok(request) => request,
        Err(Memory) => return Err(VisitEnd::Memory),
    };
    match requests.ask(&request) {
        Ok(_) => match requests.send(rt) {
            Ok(()) => Ok(true),
            Err(end) => Err(end),
        },
        Err(end) => Err(end),
    }
}

fn login_of(alloc: Global, person: u32, password: &[u8]) -> Result<Request, Memory>
    ensures { IfOk result (λ request. request ≡ login person password.now) }
{
    let mut request = Request::new(alloc, 62);
    request.number(person)?;
    request.text(alloc, password)?;
    request.number(0)?;
    Ok(request)
}

/// A writer that has spelled the greeting of a user.
#[tactic(auto, using(crate::proofs::Words::greeting_put))]
fn greeting_of(alloc: Global, user: &[u8]) -> Result<Writer, Memory>
    ensures { IfOk result (λ writer. writer ≡ record { bytes = greeting user.now; joined = true }) }
{
    let mut writer = Writer::new(alloc);
    writer.word(b"A")?;
    writer.begin_line();
    writer.text(user)?;
    writer.end_line()?;
    Ok(writer)
}

/// Spells a request, as a line of its own.
#[tactic(auto, using(crate::proofs::Words::line_put))]
fn put_request(writer: &mut Writer, reference: u32, request: &Request) -> Result<(), Memory>
    requires { writer.old.joined ≡ true }
    ensures { OnOk result (writer.new ≡ record {
      bytes = writer.old.bytes ++ line_of (words_of (reference, request.now));
      joined = true;
    }) }
{
    writer.number(reference)?;
    writer.number(request.call)?;
    put_arguments(writer, request.arguments.as_slice())?;
    writer.end_line()
}

#[tactic(auto, using(crate::proofs::Passing::words_step, crate::proofs::Passing::words_end))]
fn put_arguments(writer: &mut Writer, arguments: &[Argument]) -> Result<(), Memory>
    ensures { OnOk result (writer.new ≡ put_words (map word_of arguments.now) writer.old) }
{
    for argument in arguments {
        put_argument(writer, argument)?;
    }
    Ok(())
}

fn put_argument(writer: &mut Writer, argument: &Argument) -> Result<(), Memory>
    ensures { OnOk result (writer.new ≡ put_word (word_of argument.now) writer.old) }
{
    match argument {
        Argument::Number(value) => writer.number(*value),
        Argument::Text(bytes) => writer.text(bytes.as_slice()),
        Argument::Open => writer.word(b"{"),
        Argument::Close => writer.word(b"}"),
        Argument::Flags => writer.word(b"00000000"),
    }
}

/// The reference after this one.
pub(crate) fn after(reference: u32) -> u32
    ensures { result ≡ reference_after reference }
{
    if reference == u32::MAX {
        1
    } else {
        reference + 1
    }
}

/// Sends bytes to the server, all of them if the link does not fail.
fn send<R: Wait, L: Link>(rt: &R, link: &mut L, bytes: &[u8]) -> Result<(), VisitEnd>
    ensures { Sends result (L.view link.old) bytes.now (L.view link.new) }
{
    let mut rest = bytes;
    for _ in rt.forever() {
        if rest.is_empty() {
            return Ok(());
        }
        match link.write(rest) {
            Took::Some(count) => rest = &rest[count..],
            Took::NotYet => {}
            Took::Failed => return Err(VisitEnd::LinkFault),
        }
    }
    unreachable!()
}
