ghost use Rattle.std.specs.Prelude.{◌≡◌, ◌≢◌, IfOk, false};
ghost use Rattle.kom_links.specs.Outside.{IsFresh};
ghost use Rattle.kom_screen.specs.Screens.{IsScreenOf};
ghost use Rattle.kom_exchange.specs.Fair.{MarkedWasShown};

use crate::contacts::{Contacts, Ended};
use crate::keys::Keys;
use crate::pages::Pace;
use crate::request::Request;
use crate::server::Server;
use crate::told::Told;
use crate::visit_end::VisitEnd;
use crate::waiting::Waiting;
use kom_letters::Charset;
use kom_links::{Link, Sink};
use kom_records::ResultKind;
use kom_screen::{Front, Screen};
use kom_types::{Bytes, Memory, Message, Reply};
use std::alloc::Global;
use std::marker::Model;
use std::sync::Wait;

/// What goes to and fro between a person and a server: what is typed, asked, heard and shown.
pub struct Exchange<W: Waiting, K: Link, L: Link, S: Sink> {
    pub(crate) contacts: Contacts<W, K, L, S>,
    // The line that was typed last.
    pub(crate) line: Option<Bytes>,
    // Who logged in.
    pub(crate) person: Option<u32>,
    // The text that was asked for last, and whether its page was shown since.
    pub(crate) told: Option<Told>,
    pub(crate) is_shown: bool,
}

impl<W: Waiting, K: Link, L: Link, S: Sink> Model for Exchange<W, K, L, S> {
    ghost use Rattle.kom_screen.specs.Screens.{Seen};
    ghost use Rattle.kom_exchange.specs.Keeping.{IsKept};

    ghost Value = { Seen };

    ghost view = { λ e. e.contacts.screen };

    ghost invariant = { λ e. IsKept e.contacts.keys e.contacts.server e.contacts.screen
        e.line e.person e.told e.is_shown };
}

impl<W: Waiting, K: Link, L: Link, S: Sink> Drop for Exchange<W, K, L, S> {
    fn drop(self) {
        let Exchange {
            contacts,
            line,
            person: _,
            told,
            is_shown: _,
        } = self;
        drop((contacts, line));
        drop(told);
    }
}

impl<W: Waiting, K: Link, L: Link, S: Sink> Exchange<W, K, L, S> {
    /// Nothing was typed, asked or heard, and the greeting of a user waits to be sent.
    pub fn new(
        alloc: Global,
        user: &[u8],
        waiting: W,
        keys: K,
        link: L,
        screen: Screen<S>,
    ) -> Result<Exchange<W, K, L, S>, Memory>
        requires keys { IsFresh (K.view keys) }
        requires link { IsFresh (L.view link) }
        ensures { IfOk result (λ exchange. exchange ≡ screen) }
    {
        let keys = Keys::new(alloc, keys)?;
        let server = Server::new(alloc, link, user)?;
        let contacts = Contacts {
            alloc,
            waiting,
            keys,
            server,
            screen,
        };
        Ok(Exchange {
            contacts,
            line: None,
            person: None,
            told: None,
            is_shown: false,
        })
    }

    /// It is over. All that was shown is harmless, and each text that was to count as read was
    /// shown whole before, or skipped, or is the person's own.
    pub fn end(self) -> Ended<K, L, S>
        ensures screen { result.screen ≡ self }
        ensures harmless { ∥ IsScreenOf result.screen.columns result.screen.has_failed
            result.screen.sink ∥₁ }
        ensures marked { MarkedWasShown (K.view result.keys) (L.view result.link)
            result.screen.sink }
    {
        let Exchange {
            contacts,
            line,
            person: _,
            told,
            is_shown: _,
        } = self;
        drop((line, told));
        contacts.server.assured();
        let ended = contacts.end();
        let _columns = ended.screen.columns();
        ended
    }

    /// How many columns the screen has.
    pub fn columns(&self) -> u16
        ensures { result ≡ self.now.columns }
    {
        self.contacts.screen.columns()
    }

    // ---- the keys

    /// Waits once for keys and for the server.
    pub fn wait(&mut self) -> Result<(), VisitEnd>
        ensures { self.new.columns ≡ self.old.columns }
    {
        self.contacts.wait()
    }

    /// Takes the next line that was typed: whether there is one.
    pub fn take_line(&mut self) -> Result<bool, VisitEnd>
        ensures { self.new.columns ≡ self.old.columns }
    {
        let line = self.contacts.keys.line(self.contacts.alloc)?;
        match line {
            Some(line) => {
                self.line = Some(Bytes::of(line));
                self.contacts.screen.typed();
                Ok(true)
            }
            None => Ok(false),
        }
    }

    /// The line that was taken last.
    pub fn line(&self) -> &[u8] {
        match &self.line {
            Some(line) => line.as_slice(),
            None => b"",
        }
    }

    pub fn has_ended(&self) -> bool {
        self.contacts.keys.has_ended()
    }

    // ---- the screen

    /// Shows a line.
    pub fn show(&mut self, front: Front, bytes: &[u8], charset: Charset) -> Result<(), VisitEnd>
        ensures { self.new.columns ≡ self.old.columns }
    {
        self.contacts.line(front, bytes, charset)
    }

    /// Shows a prompt.
    pub fn prompt(&mut self, front: Front, bytes: &[u8]) -> Result<(), VisitEnd>
        ensures { self.new.columns ≡ self.old.columns }
    {
        self.contacts.prompt(front, bytes)
    }

    /// Shows a line, before which it may stop: how it goes on.
    pub fn show_line<R: Wait>(
        &mut self,
        rt: &R,
        pace: Pace,
        front: Front,
        bytes: &[u8],
        charset: Charset,
    ) -> Result<Pace, VisitEnd>
        ensures { self.new.columns ≡ self.old.columns }
    {
        self.contacts.show_line(rt, pace, front, bytes, charset)
    }

    // ---- the server

    /// Greets the server, and awaits its greeting.
    pub fn greet<R: Wait>(&mut self, rt: &R) -> Result<(), VisitEnd>
        ensures { self.new.columns ≡ self.old.columns }
    {
        self.contacts.server.greet(rt)
    }

    /// Asks for something.
    pub fn ask(&mut self, request: &Request) -> Result<(), VisitEnd>
        requires { request.now.call ≢ 27 }
        ensures { self.new.columns ≡ self.old.columns }
    {
        self.contacts.server.ask(request)?;
        Ok(())
    }

    /// Asks for something of which all arguments are numbers.
    pub fn request(&mut self, call: u32, numbers: &[u32]) -> Result<(), VisitEnd>
        requires { call ≢ 27 }
        ensures { self.new.columns ≡ self.old.columns }
    {
        let alloc = self.contacts.alloc;
        self.contacts.server.request(alloc, call, numbers)
    }

    /// Sends what was asked.
    pub fn send<R: Wait>(&mut self, rt: &R) -> Result<(), VisitEnd>
        ensures { self.new.columns ≡ self.old.columns }
    {
        self.contacts.server.send(rt)
    }

    /// The next reply, which is awaited.
    pub fn reply<R: Wait>(&mut self, rt: &R, kind: ResultKind) -> Result<Reply, VisitEnd>
        ensures { self.new.columns ≡ self.old.columns }
    {
        let alloc = self.contacts.alloc;
        let (_, body) = self.contacts.server.reply(rt, alloc, kind)?;
        Ok(body)
    }

    /// The next message that nobody took.
    pub fn message(&mut self) -> Option<Message>
        ensures { self.new.columns ≡ self.old.columns }
    {
        self.contacts.server.message()
    }

    pub fn has_message(&self) -> bool {
        self.contacts.server.has_message()
    }

    /// Logs a person in, with the next line that is typed as the password, and shows nothing. No
    /// line is no password.
    pub fn log_in<R: Wait>(&mut self, rt: &R, person: u32) -> Result<bool, VisitEnd>
        ensures columns { self.new.columns ≡ self.old.columns }
        ensures shows_nothing { self.new.sink ≡ self.old.sink }
    {
        match self.await_line(rt)? {
            Some(line) => self.log_in_with(rt, person, line),
            None => Err(VisitEnd::KeysEnd),
        }
    }

    fn await_line<R: Wait>(&mut self, rt: &R) -> Result<Option<Vec<u8>>, VisitEnd>
        ensures { self.new ≡ self.old }
    {
        self.contacts.await_line(rt)
    }

    fn log_in_with<R: Wait>(&mut self, rt: &R, person: u32, line: Vec<u8>) -> Result<bool, VisitEnd>
        ensures { self.new ≡ record self.old { is_open = false } }
    {
        let alloc = self.contacts.alloc;
        self.contacts.screen.typed();
        let is_in = self.contacts.server.log_in(rt, alloc, person, line)?;
        if !is_in {
            return Ok(false);
        }
        self.person = Some(person);
        Ok(true)
    }
}
