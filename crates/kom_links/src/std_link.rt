ghost use Rattle.std.specs.Prelude.{◌≡◌, ◌<◌, ◌≤◌, false, None, codes, length};
ghost use Rattle.kom_links.specs.Outside.{Rose};
ghost use Rattle.kom_links.specs.Streams.{GivesWithin, TakesWithin};

use crate::accepted_socket::AcceptedSocket;
use crate::link::{Got, Link, Took};
use crate::streams::{read_soon, write_soon};
use arrayvec::ArrayString;
use std::io;
use std::io::Input;
use std::rt::Clock;

/// An address as text: of a peer without its port.
pub(crate) type Host = ArrayString<64>;

/// A link over the process's own input and output, or over a socket that was accepted. It tells
/// nothing of what it gives and takes. If nothing is ready a call waits for it, for some 20
/// milliseconds at most; at a socket for 80, and a read after the greeting until something is done
/// at its port, for some two seconds at most. A socket fails whose client is silent, takes nothing,
/// or has vanished for too long.
#[derive(Drop)]
pub struct StdLink<'a, R: Input + Print + Clock> {
    stream: Stream<'a, R>,
    host: Host,
    has_ended: bool,
    faults: u64,
}

// What a link is over.
#[derive(Drop)]
enum Stream<'a, R: Input + Print + Clock> {
    Standard(&'a R),
    Accepted(AcceptedSocket<&'a R>),
}

impl<'a, R: Input + Print + Clock> Stream<'a, R> {
    fn read(&mut self, into: &mut [u8]) -> Got
        requires { 0 < length into.old }
        ensures { GivesWithin (length into.new) result }
    {
        match self {
            // (a reader has a window of 8 KiB, which is not used here: it is not kept)
            Stream::Standard(rt) => read_soon(&mut rt.reader(), rt, into),
            Stream::Accepted(socket) => socket.read(into),
        }
    }

    fn write(&mut self, from: &[u8]) -> Took
        requires { 0 < length from.now }
        ensures { TakesWithin (length from.now) result }
    {
        match self {
            Stream::Standard(rt) => write_soon(&mut io::writer(*rt), rt, from),
            Stream::Accepted(socket) => socket.write(from),
        }
    }
}

impl<'a, R: Input + Print + Clock> StdLink<'a, R> {
    pub(crate) fn new(rt: &'a R) -> StdLink<'a, R>
        ensures host { result.host.bytes ≡ codes "localhost" }
        ensures not_ended { result.has_ended ≡ false }
        ensures no_fault { result.faults ≡ 0 }
    {
        let mut host = ArrayString::new();
        host.push_str("localhost");
        StdLink {
            stream: Stream::Standard(rt),
            host,
            has_ended: false,
            faults: 0,
        }
    }

    /// A link over a socket that was accepted, whose peer has this address.
    pub(crate) fn accepted(socket: AcceptedSocket<&'a R>, host: Host) -> StdLink<'a, R>
        ensures host { result.host ≡ host }
        ensures not_ended { result.has_ended ≡ false }
        ensures no_fault { result.faults ≡ 0 }
    {
        StdLink {
            stream: Stream::Accepted(socket),
            host,
            has_ended: false,
            faults: 0,
        }
    }

    /// The socket, if it is over one.
    pub(crate) fn into_socket(self) -> Option<AcceptedSocket<&'a R>> {
        let StdLink {
            stream,
            host: _,
            has_ended: _,
            faults: _,
        } = self;
        match stream {
            Stream::Accepted(socket) => Some(socket),
            Stream::Standard(_) => None,
        }
    }

    fn fail(&mut self)
        ensures rose { Rose self.old.faults self.new.faults }
        ensures grows { self.old.faults ≤ self.new.faults }
        ensures ended { self.new.has_ended ≡ self.old.has_ended }
        ensures host { self.new.host ≡ self.old.host }
    {
        self.faults = self.faults.saturating_add(1);
    }
}

impl<'a, R: Input + Print + Clock> Link for StdLink<'a, R> {
    ghost view = { λ link. record {
      host = link.host.bytes;
      taken = None;
      left = None;
      put = None;
      ended = link.has_ended;
      faults = link.faults;
      reads = None;
    } };

    fn host(&self) -> &[u8] {
        self.host.as_str().as_bytes()
    }

    fn faults(&self) -> u64 {
        self.faults
    }

    fn read(&mut self, into: &mut [u8]) -> Got {
        match self.stream.read(into) {
            Got::End => {
                self.has_ended = true;
                Got::End
            }
            Got::Failed => {
                self.fail();
                Got::Failed
            }
            got => got,
        }
    }

    fn write(&mut self, from: &[u8]) -> Took {
        match self.stream.write(from) {
            Took::Failed => {
                self.fail();
                Took::Failed
            }
            took => took,
        }
    }
}
