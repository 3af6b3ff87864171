ghost use Rattle.std.specs.Prelude.{◌<◌, length};
ghost use Rattle.kom_links.specs.Streams.{GivesWithin, TakesWithin};

use crate::bells::Watch;
use crate::link::{Got, Took};
use crate::streams::{try_read, try_write};
use mio::net::TcpStream;
use mio::{Interest, Registry, Token};
use std::io;
use std::net::Shutdown;
use std::rt::Clock;
use std::time::Instant;

// How long a call waits if nothing is ready, in milliseconds. A read after the greeting waits on
// while nothing is done at the port.
const PAUSE_MILLIS: u64 = 80;

// A socket fails to which nothing was written so long after it was accepted, whatever came from it.
const GREETING_SECONDS: u64 = 30;

// A socket fails from which nothing but line feeds came for so long after its greeting was
// answered.
const SILENCE_SECONDS: u64 = 1_800;

// How many bytes answer a greeting. Who sends a call with its greeting is written more at once.
const WELCOME: usize = b"LysKOM\n".len();

// A socket fails that took no byte for so long while it was written to.
const STALL_SECONDS: u64 = 60;

// How many pieces are read at most of what a peer still sends as its socket is closed.
const LAST_READS: u32 = 16;

// How far a peer has come.
#[derive(Clone, Copy)]
enum Stage {
    // It was accepted then, and nothing was written to it.
    Accepted(Instant),
    // Its greeting was answered then, and nothing came from it since.
    Greeted(Instant),
    // More came than its greeting: it may be idle as long as it likes.
    Heard,
}

/// A socket that was accepted. It fails if its peer is silent, or takes nothing, for too long. With
/// a watch of its own a call waits for a pause if nothing is ready; once something was written to
/// it a read waits on until something is done at the port, which may be something to be told to its
/// peer. Without one no call waits.
#[derive(Drop)]
pub(crate) struct AcceptedSocket<C: Clock + Drop> {
    stream: TcpStream,
    watch: Option<Watch>,
    token: Token,
    clock: C,
    stage: Stage,
    // Since when its writes have taken nothing, if the last one took nothing.
    stalled: Option<Instant>,
}

impl<C: Clock + Drop> AcceptedSocket<C> {
    /// A socket that was accepted now; or the watch, if the socket cannot be used.
    pub(crate) fn new(
        mut stream: TcpStream,
        watch: Watch,
        clock: C,
    ) -> Result<AcceptedSocket<C>, Watch> {
        let token = Token(0);
        if prepare(&mut stream, watch.registry(), token).is_err() {
            return Err(watch);
        }
        match Instant::now(&clock) {
            Ok(accepted) => Ok(AcceptedSocket {
                stream,
                watch: Some(watch),
                token,
                clock,
                stage: Stage::Accepted(accepted),
                stalled: None,
            }),
            Err(_) => Err(watch),
        }
    }

    /// A socket that was accepted now and is told of by this token, if it can be used.
    pub(crate) fn unwatched(
        mut stream: TcpStream,
        registry: &Registry,
        token: Token,
        clock: C,
    ) -> Option<AcceptedSocket<C>> {
        prepare(&mut stream, registry, token).ok()?;
        let accepted = Instant::now(&clock).ok()?;
        Some(AcceptedSocket {
            stream,
            watch: None,
            token,
            clock,
            stage: Stage::Accepted(accepted),
            stalled: None,
        })
    }

    pub(crate) fn read(&mut self, into: &mut [u8]) -> Got
        requires { 0 < length into.old }
        ensures { GivesWithin (length into.new) result }
    {
        match self.stage {
            Stage::Accepted(since) => self.read_greeting(into, since),
            Stage::Greeted(since) => self.read_first(into, since),
            Stage::Heard => self.read_soon(into, true),
        }
    }

    pub(crate) fn write(&mut self, from: &[u8]) -> Took
        requires { 0 < length from.now }
        ensures { TakesWithin (length from.now) result }
    {
        self.ring();
        let took = self.write_soon(from);
        match took {
            Took::Some(_) => {
                self.stalled = None;
                self.note_written(from.len());
                took
            }
            Took::NotYet => {
                if self.has_stalled() {
                    Took::Failed
                } else {
                    Took::NotYet
                }
            }
            Took::Failed => Took::Failed,
        }
    }

    /// Closes the socket: its writing side first, and then, once the peer has ended its own or
    /// sends nothing for a pause, all of it. A socket that is closed with bytes unread is reset,
    /// and the last line may be lost. The watch is returned, if it has one.
    pub(crate) fn close(mut self) -> Option<Watch> {
        self.ring();
        if self.shut() {
            self.read_rest();
        }
        let AcceptedSocket {
            stream,
            watch,
            token: _,
            clock: _,
            stage: _,
            stalled: _,
        } = self;
        drop(stream);
        watch
    }

    /// By which it is told of.
    pub(crate) fn token(&self) -> Token {
        self.token
    }

    /// Ends its writing side, unless it is broken.
    pub(crate) fn shut(&mut self) -> bool {
        self.stream.shutdown(Shutdown::Write).is_ok()
    }

    /// It is not told of any more.
    pub(crate) fn forget(&mut self, registry: &Registry) {
        let _ = registry.deregister(&mut self.stream);
    }

    /// Reads what its peer still sends, some of it at a time. Whether nothing more is to come.
    pub(crate) fn read_rest(&mut self) -> bool {
        let mut rest = [0u8; 4096];
        for _ in 0..LAST_READS {
            match self.read_soon(&mut rest, false) {
                Got::Some(_) => {}
                Got::NotYet => return false,
                Got::End | Got::Failed => return true,
            }
        }
        false
    }

    // What is told here comes of an act, which may have done something for others.
    fn ring(&self) {
        if let Some(watch) = &self.watch {
            watch.ring();
        }
    }

    // Waits for a pause, or on until something is done at the port. Whether something may be ready.
    fn pause(&mut self, waits_on: bool) -> io::Result<bool> {
        match &mut self.watch {
            Some(watch) if waits_on => watch.wait(PAUSE_MILLIS),
            Some(watch) => watch.pause(PAUSE_MILLIS),
            None => Ok(false),
        }
    }

    // Reads while nothing was written to the peer: a greeting, or some of it. A peer that dribbles
    // has no more time than one that sends nothing.
    fn read_greeting(&mut self, into: &mut [u8], accepted: Instant) -> Got
        requires { 0 < length into.old }
        ensures { GivesWithin (length into.new) result }
    {
        if self.is_past(accepted, GREETING_SECONDS) {
            return Got::Failed;
        }
        self.read_soon(into, false)
    }

    // Reads while nothing came since the greeting was answered but line feeds, which ask nothing.
    fn read_first(&mut self, into: &mut [u8], greeted: Instant) -> Got
        requires { 0 < length into.old }
        ensures { GivesWithin (length into.new) result }
    {
        let got = self.read_soon(into, true);
        let is_silent = match got {
            Got::Some(count) => !has_more_than_line_feeds(&into[..count]),
            Got::NotYet => true,
            Got::End | Got::Failed => return got,
        };
        if !is_silent {
            self.stage = Stage::Heard;
            return got;
        }
        if self.is_past(greeted, SILENCE_SECONDS) {
            return Got::Failed;
        }
        got
    }

    // Notes that something was written of so many bytes that were handed in.
    fn note_written(&mut self, size: usize) {
        if let Stage::Accepted(_) = self.stage {
            self.stage = match Instant::now(&self.clock) {
                Ok(now) if size <= WELCOME => Stage::Greeted(now),
                _ => Stage::Heard,
            };
        }
    }

    // Reads what is ready. If nothing is, it waits, and reads once more where something became
    // ready.
    fn read_soon(&mut self, into: &mut [u8], waits_on: bool) -> Got
        requires { 0 < length into.old }
        ensures { GivesWithin (length into.new) result }
    {
        if let Some(got) = try_read(&mut self.stream, into) {
            return got;
        }
        match self.pause(waits_on) {
            Ok(true) => try_read(&mut self.stream, into).unwrap_or(Got::NotYet),
            Ok(false) => Got::NotYet,
            Err(_) => Got::Failed,
        }
    }

    // Writes what can be written. If nothing can, it waits for a pause, where it has a watch, and
    // writes once more: a socket can have some room before it is told to be ready.
    fn write_soon(&mut self, from: &[u8]) -> Took
        requires { 0 < length from.now }
        ensures { TakesWithin (length from.now) result }
    {
        if let Some(took) = try_write(&mut self.stream, from) {
            return took;
        }
        let Some(watch) = &mut self.watch else {
            return Took::NotYet;
        };
        match watch.pause(PAUSE_MILLIS) {
            Ok(_) => try_write(&mut self.stream, from).unwrap_or(Took::NotYet),
            Err(_) => Took::Failed,
        }
    }

    // Notes that a write took nothing, and whether none has taken anything for too long.
    fn has_stalled(&mut self) -> bool {
        match self.stalled {
            Some(since) => self.is_past(since, STALL_SECONDS),
            None => {
                self.stalled = Instant::now(&self.clock).ok();
                false
            }
        }
    }

    // Whether so many seconds have passed; not if the system does not tell the time.
    fn is_past(&self, since: Instant, seconds: u64) -> bool {
        match since.elapsed(&self.clock) {
            Ok(passed) => seconds <= passed.as_secs(),
            Err(_) => false,
        }
    }
}

// Whether some byte is no line feed.
fn has_more_than_line_feeds(bytes: &[u8]) -> bool {
    bytes.iter().any(|byte| *byte != b'\n')
}

// Has a socket, whose bytes are sent at once, told of by a token.
fn prepare(stream: &mut TcpStream, registry: &Registry, token: Token) -> io::Result<()> {
    stream.set_nodelay(true)?;
    let both = Interest::READABLE | Interest::WRITABLE;
    registry.register(stream, token, both)
}
