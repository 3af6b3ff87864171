ghost use Rattle.std.specs.Prelude.{◌≡◌};
ghost use Rattle.kom_exchange.specs.Fair.{Proceeds};

use crate::keys::Keys;
use crate::server::Server;
use crate::visit_end::VisitEnd;
use crate::waiting::Waiting;
use kom_links::{Link, Sink};
use kom_screen::Screen;
use std::alloc::Global;
use std::sync::Wait;

/// The keys, the server and the screen of a person.
pub(crate) struct Contacts<W: Waiting, K: Link, L: Link, S: Sink> {
    pub(crate) alloc: Global,
    pub(crate) waiting: W,
    pub(crate) keys: Keys<K>,
    pub(crate) server: Server<L>,
    pub(crate) screen: Screen<S>,
}

impl<W: Waiting, K: Link, L: Link, S: Sink> Drop for Contacts<W, K, L, S> {
    fn drop(self) {
        let Contacts {
            alloc: _,
            waiting,
            keys,
            server,
            screen,
        } = self;
        drop((waiting, keys));
        drop((server, screen));
    }
}

/// What is left of an exchange that is over.
#[derive(Drop)]
pub struct Ended<K: Link, L: Link, S: Sink> {
    pub keys: K,
    pub link: L,
    pub screen: Screen<S>,
}

impl<W: Waiting, K: Link, L: Link, S: Sink> Contacts<W, K, L, S> {
    /// The links and the screen alone.
    pub(crate) fn end(self) -> Ended<K, L, S>
        ensures keys { K.view result.keys ≡ self.keys }
        ensures link { L.view result.link ≡ self.server.link }
        ensures screen { result.screen ≡ self.screen }
        ensures sink { result.screen.sink ≡ self.screen.sink }
    {
        let Contacts {
            alloc: _,
            waiting,
            keys,
            server,
            screen,
        } = self;
        drop(waiting);
        Ended {
            keys: keys.into_link(),
            link: server.into_link(),
            screen,
        }
    }

    /// Waits once for keys and for the server, and takes what came.
    pub(crate) fn wait(&mut self) -> Result<(), VisitEnd>
        ensures proceeds { Proceeds self.old.keys self.old.server self.old.screen
            self.new.keys self.new.server self.new.screen }
        ensures screen { self.new.screen ≡ self.old.screen }
    {
        let ready = self.waiting.wait();
        self.hear(ready.link)?;
        self.take_keys(ready.keys)
    }

    #[tactic(auto, using(crate::proofs::Proceeding::proceeds_none))]
    fn hear(&mut self, is_ready: bool) -> Result<(), VisitEnd>
        ensures proceeds { Proceeds self.old.keys self.old.server self.old.screen
            self.new.keys self.new.server self.new.screen }
        ensures screen { self.new.screen ≡ self.old.screen }
    {
        if !is_ready {
            return Ok(());
        }
        self.server.listen(self.alloc)
    }

    #[tactic(auto, using(crate::proofs::Proceeding::proceeds_none))]
    fn take_keys(&mut self, is_ready: bool) -> Result<(), VisitEnd>
        ensures proceeds { Proceeds self.old.keys self.old.server self.old.screen
            self.new.keys self.new.server self.new.screen }
        ensures screen { self.new.screen ≡ self.old.screen }
    {
        if !is_ready {
            return Ok(());
        }
        self.keys.listen()
    }

    /// The next line that was typed.
    fn typed_line(&mut self) -> Result<Option<Vec<u8>>, VisitEnd>
        ensures proceeds { Proceeds self.old.keys self.old.server self.old.screen
            self.new.keys self.new.server self.new.screen }
        ensures screen { self.new.screen ≡ self.old.screen }
    {
        let line = self.keys.line(self.alloc)?;
        Ok(line)
    }

    /// Waits for keys alone. Whether a line was typed.
    pub(crate) fn await_line<R: Wait>(&mut self, rt: &R) -> Result<Option<Vec<u8>>, VisitEnd>
        ensures proceeds { Proceeds self.old.keys self.old.server self.old.screen
            self.new.keys self.new.server self.new.screen }
        ensures screen { self.new.screen ≡ self.old.screen }
    {
        for _ in rt.forever() {
            let line = self.typed_line()?;
            let is_over = line.is_some() || self.keys.has_ended();
            if is_over {
                return Ok(line);
            }
            self.wait()?;
        }
        unreachable!()
    }
}
