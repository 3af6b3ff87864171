//! The links of a client: to its server, over a socket, and to what is typed.
ghost use Rattle.std.specs.Prelude.{◌≡◌, ◌≤◌, None, codes};
ghost use Rattle.kom_links.specs.Outside.{Rose, IsFresh};

use crate::link::{Got, Link, Took};
use crate::streams::{read_soon, write_soon};
use std::io::{Read, Write};
use std::rt::Clock;

/// A link over a client's socket. It tells nothing of what it gives and takes. If nothing is ready
/// a call waits for it: for some 20 milliseconds at most, unless the socket itself waits.
pub struct SocketLink<S: Read + Write + Drop, C: Clock + Drop> {
    stream: S,
    clock: C,
    host: Vec<u8>,
    has_ended: bool,
    faults: u64,
}

// A call of its own, so that whoever lets a link go has one step to prove and not one for each
// part.
impl<S: Read + Write + Drop, C: Clock + Drop> Drop for SocketLink<S, C> {
    fn drop(self) {
        let SocketLink {
            stream,
            clock,
            host,
            has_ended: _,
            faults: _,
        } = self;
        drop((stream, clock));
        drop(host);
    }
}

impl<S: Read + Write + Drop, C: Clock + Drop> SocketLink<S, C> {
    /// A link over a socket whose peer has this address, as text.
    pub fn new(stream: S, host: Vec<u8>, clock: C) -> SocketLink<S, C>
        ensures { IsFresh (⟦<SocketLink<S, C> as Link>⟧.view result) }
    {
        SocketLink {
            stream,
            clock,
            host,
            has_ended: false,
            faults: 0,
        }
    }

    fn fail(&mut self)
        ensures rose { Rose self.old.faults self.new.faults }
        ensures grows { self.old.faults ≤ self.new.faults }
        ensures ended { self.new.has_ended ≡ self.old.has_ended }
        ensures host { self.new.host ≡ self.old.host }
    {
        self.faults = self.faults.saturating_add(1);
    }
}

impl<S: Read + Write + Drop, C: Clock + Drop> Link for SocketLink<S, C> {
    ghost view = { λ link. record {
      host = link.host.items;
      taken = None;
      left = None;
      put = None;
      ended = link.has_ended;
      faults = link.faults;
      reads = None;
    } };

    fn host(&self) -> &[u8] {
        self.host.as_slice()
    }

    fn faults(&self) -> u64 {
        self.faults
    }

    fn read(&mut self, into: &mut [u8]) -> Got {
        match read_soon(&mut self.stream, &self.clock, into) {
            Got::End => {
                self.has_ended = true;
                Got::End
            }
            Got::Failed => {
                self.fail();
                Got::Failed
            }
            got => got,
        }
    }

    fn write(&mut self, from: &[u8]) -> Took {
        match write_soon(&mut self.stream, &self.clock, from) {
            Took::Failed => {
                self.fail();
                Took::Failed
            }
            took => took,
        }
    }
}

/// A link over what is typed, to which nothing can be written. It tells nothing of what it gives.
/// If nothing is ready a call waits for it likewise.
#[derive(Drop)]
pub struct KeysLink<I: Read + Drop, C: Clock + Drop> {
    reader: I,
    clock: C,
    has_ended: bool,
    faults: u64,
}

impl<I: Read + Drop, C: Clock + Drop> KeysLink<I, C> {
    /// A link over what this reader gives.
    pub fn new(reader: I, clock: C) -> KeysLink<I, C>
        ensures { IsFresh (⟦<KeysLink<I, C> as Link>⟧.view result) }
    {
        KeysLink {
            reader,
            clock,
            has_ended: false,
            faults: 0,
        }
    }

    fn fail(&mut self)
        ensures rose { Rose self.old.faults self.new.faults }
        ensures grows { self.old.faults ≤ self.new.faults }
        ensures ended { self.new.has_ended ≡ self.old.has_ended }
    {
        self.faults = self.faults.saturating_add(1);
    }
}

impl<I: Read + Drop, C: Clock + Drop> Link for KeysLink<I, C> {
    ghost view = { λ link. record {
      host = codes "localhost";
      taken = None;
      left = None;
      put = None;
      ended = link.has_ended;
      faults = link.faults;
      reads = None;
    } };

    fn host(&self) -> &[u8] {
        b"localhost"
    }

    fn faults(&self) -> u64 {
        self.faults
    }

    fn read(&mut self, into: &mut [u8]) -> Got {
        match read_soon(&mut self.reader, &self.clock, into) {
            Got::End => {
                self.has_ended = true;
                Got::End
            }
            Got::Failed => {
                self.fail();
                Got::Failed
            }
            got => got,
        }
    }

    fn write(&mut self, _from: &[u8]) -> Took {
        self.fail();
        Took::Failed
    }
}
