//! A gate at a port at which one worker waits for many links at a time.
use crate::accepted_socket::AcceptedSocket;
use crate::bells::{RUNG, Watch};
use crate::doors::{Arrival, host_of};
use mio::net::{TcpListener, TcpStream};
use mio::{Interest, Token};
use std::alloc::Global;
use std::collections::VecDeque;
use std::io::ErrorKind;
use std::net::{Net, SocketAddr};
use std::rt::Clock;
use std::time::{Duration, Instant};
use std::{io, net, thread};

/// Of how many sources a wait is told at most; the next one is told of the others.
pub(crate) const SOURCES: usize = 1_024;

// The token of the listener. Those of links are their keys.
const LISTENER: Token = Token(usize::MAX - 1);

// So many links are for whoever comes. One more is for a client from the machine itself, so that
// whoever runs the server gets in.
const MOST_GUESTS: u64 = 1_023;

// So many clients that find no place are accepted all the same, and wait, so that one from the
// machine itself is seen behind them. The others are left to the system.
const MOST_WAITING: usize = 64;

// How many clients one call accepts at most.
const TRIES: u32 = 16;

// How long a wait lasts at most, and after how long it is looked again for those who were left.
const LOOK_SECONDS: u64 = 1;

// How long a socket that was given back is kept at most for what its peer still sends.
const LINGER_SECONDS: u64 = 5;

// How many of these are kept at most. One more has the oldest dropped.
const MOST_LEAVING: usize = 256;

// A socket that was given back, and when.
#[derive(Drop)]
struct Leaving<C: Clock + Drop> {
    socket: AcceptedSocket<C>,
    since: Instant,
}

/// A gate at a port for one of its workers. No call waits but `wait`.
pub(crate) struct PortGate<'a, R: Net + Clock> {
    rt: &'a R,
    listener: TcpListener,
    watch: Watch,
    // The keys that were told of and are yet to be asked for.
    ready: Vec<usize>,
    // The keys of links whose peers have ended their side, or which are broken. That is told with
    // the last bytes and not again, and who read these need not have read to the end: so each wait
    // tells of them.
    ending: Vec<usize>,
    // One of them was told for the first time by the last wait.
    has_ending: bool,
    // How many links it has given that were not given back.
    links: u64,
    // Somebody may have come.
    may_accept: bool,
    // Somebody may have been left to a worker that has fewer links.
    has_left: bool,
    // That may be a second ago.
    is_late: bool,
    // When it was last looked for those who were left.
    looked: Instant,
    leaving: VecDeque<Leaving<&'a R>>,
    // Clients for whom there is no place yet.
    waiting: VecDeque<(TcpStream, SocketAddr)>,
}

// The other workers leave nobody to this one any more.
impl<'a, R: Net + Clock> Drop for PortGate<'a, R> {
    fn drop(self) {
        let PortGate {
            rt: _,
            listener,
            watch,
            ready,
            ending,
            has_ending: _,
            links: _,
            may_accept: _,
            has_left: _,
            is_late: _,
            looked: _,
            leaving,
            waiting,
        } = self;
        watch.set_links(u64::MAX);
        drop((leaving, waiting));
        drop((ready, ending));
        drop((listener, watch));
    }
}

impl<'a, R: Net + Clock> PortGate<'a, R> {
    pub(crate) fn open(
        rt: &'a R,
        alloc: Global,
        listener: &net::TcpListener,
        watch: Watch,
    ) -> io::Result<PortGate<'a, R>> {
        let mut listener = TcpListener::from_std(listener.try_clone()?);
        watch
            .registry()
            .register(&mut listener, LISTENER, Interest::READABLE)?;
        Ok(PortGate {
            rt,
            listener,
            watch,
            ready: Vec::with_capacity(alloc, SOURCES * 2)?,
            ending: Vec::with_capacity(alloc, SOURCES)?,
            has_ending: false,
            links: 0,
            may_accept: true,
            has_left: false,
            is_late: false,
            looked: Instant::now(rt)?,
            leaving: VecDeque::with_capacity(alloc, MOST_LEAVING)?,
            waiting: VecDeque::with_capacity(alloc, MOST_WAITING)?,
        })
    }

    /// Waits until a link may be ready, somebody may have come or another worker rings, for a
    /// second at most; not at all where there is something to do. An error is followed by a pause.
    pub(crate) fn wait(&mut self, is_busy: bool) -> io::Result<()> {
        // What was told of is asked for first, or it would be lost: it is told once.
        if !self.ready.is_empty() {
            return Ok(());
        }
        let left = self.time_left();
        let waited = if is_busy || self.has_ending {
            self.watch.look()
        } else {
            self.watch.sleep(left)
        };
        self.has_ending = false;
        self.note_events();
        if self.time_left().is_zero() {
            self.look_again();
        }
        if waited.is_err() {
            thread::sleep(self.rt, Duration::from_secs(LOOK_SECONDS));
        }
        waited
    }

    /// A key that may be ready, each once a wait.
    pub(crate) fn next_ready(&mut self) -> Option<usize> {
        self.ready.pop()
    }

    /// Whether another worker rang since this was last asked.
    pub(crate) fn was_rung(&mut self) -> bool {
        self.watch.was_rung()
    }

    /// Rings for the other workers.
    pub(crate) fn ring(&mut self) {
        self.watch.ring_for_others();
    }

    /// Who comes next. A client is told of by this key.
    pub(crate) fn let_in(&mut self, key: usize) -> Arrival<&'a R> {
        if let Some(client) = self.let_in_waiting(key) {
            return client;
        }
        if !self.may_accept {
            return Arrival::Nobody;
        }
        if !self.has_turn() {
            self.has_left = true;
            return Arrival::Nobody;
        }
        self.is_late = false;
        for _ in 0..TRIES {
            match self.listener.accept() {
                Ok((stream, address)) => {
                    if let Some(client) = self.admit_or_keep(stream, address, key) {
                        return client;
                    }
                }
                Err(error) => match error.kind() {
                    // This one has gone again, and another may be there.
                    ErrorKind::Interrupted | ErrorKind::ConnectionAborted => {}
                    ErrorKind::InvalidInput => {
                        self.may_accept = false;
                        return Arrival::Broken;
                    }
                    // Nobody is there; or for want of descriptors nobody can be let in for now.
                    _ => {
                        self.may_accept = false;
                        return Arrival::Nobody;
                    }
                },
            }
        }
        Arrival::Nobody
    }

    /// Takes a client's socket back. Its writing side is shut; while its peer sends on it is kept
    /// for some seconds, since a socket that is closed with bytes unread is reset, and the last
    /// line may be lost.
    pub(crate) fn close(&mut self, mut socket: AcceptedSocket<&'a R>) {
        self.links = self.links.saturating_sub(1);
        self.watch.set_links(self.links);
        let Token(key) = socket.token();
        self.ending.retain(|other| *other != key);
        if !socket.shut() || socket.read_rest() {
            return;
        }
        let Ok(since) = Instant::now(self.rt) else {
            return;
        };
        socket.forget(self.watch.registry());
        if MOST_LEAVING <= self.leaving.len() {
            drop(self.leaving.pop_front());
        }
        let _ = self.leaving.push_back(Leaving { socket, since });
    }

    // How long it is until it is looked again for those who were left.
    fn time_left(&self) -> Duration {
        let all = Duration::from_secs(LOOK_SECONDS);
        match self.looked.elapsed(self.rt) {
            Ok(passed) => all.saturating_sub(passed),
            Err(_) => all,
        }
    }

    // Notes what the last wait was told.
    fn note_events(&mut self) {
        for key in &self.ending {
            let _ = self.ready.push(*key);
        }
        for event in self.watch.events().iter() {
            let token = event.token();
            if token == LISTENER {
                self.may_accept = true;
            } else if token != RUNG && !self.ending.contains(&token.0) {
                let _ = self.ready.push(token.0);
                if event.is_read_closed() || event.is_error() {
                    let _ = self.ending.push(token.0);
                    self.has_ending = true;
                }
            }
        }
    }

    // Looks for those who were left: an arrival is no event once more.
    fn look_again(&mut self) {
        if let Ok(now) = Instant::now(self.rt) {
            self.looked = now;
        }
        self.may_accept = true;
        self.is_late = self.has_left;
        self.has_left = false;
        for _ in 0..self.leaving.len() {
            self.read_on();
        }
    }

    // Reads on from the oldest socket that was given back, and drops it if that was long ago, or if
    // nothing more is to come.
    fn read_on(&mut self) {
        let Some(mut one) = self.leaving.pop_front() else {
            return;
        };
        let is_old = match one.since.elapsed(self.rt) {
            Ok(passed) => LINGER_SECONDS <= passed.as_secs(),
            Err(_) => true,
        };
        if !one.socket.read_rest() && !is_old {
            let _ = self.leaving.push_back(one);
        }
    }

    // Whether it accepts somebody and leaves nobody to another: none has fewer links, or who has
    // did not come; and there is room for whoever finds no place.
    fn has_turn(&self) -> bool {
        if MOST_GUESTS <= self.links && MOST_WAITING <= self.waiting.len() {
            return false;
        }
        self.watch.others_have(self.links) || (self.is_late && self.links < MOST_GUESTS)
    }

    // A client that waited, where there is a place now.
    fn let_in_waiting(&mut self, key: usize) -> Option<Arrival<&'a R>> {
        for _ in 0..TRIES {
            if MOST_GUESTS <= self.links {
                return None;
            }
            let (stream, address) = self.waiting.pop_front()?;
            if let Some(client) = self.admit(stream, address, key) {
                return Some(client);
            }
        }
        None
    }

    // A client that came, unless its socket cannot be used, or there is no place for it: then it
    // waits.
    fn admit_or_keep(
        &mut self,
        stream: TcpStream,
        address: SocketAddr,
        key: usize,
    ) -> Option<Arrival<&'a R>> {
        if self.links < MOST_GUESTS || address.ip().to_canonical().is_loopback() {
            return self.admit(stream, address, key);
        }
        let _ = self.waiting.push_back((stream, address));
        None
    }

    // A client that came, unless its socket cannot be used.
    fn admit(
        &mut self,
        stream: TcpStream,
        address: SocketAddr,
        key: usize,
    ) -> Option<Arrival<&'a R>> {
        let host = host_of(address.ip().to_canonical())?;
        let registry = self.watch.registry();
        let socket = AcceptedSocket::unwatched(stream, registry, Token(key), self.rt)?;
        self.links = self.links.saturating_add(1);
        self.watch.set_links(self.links);
        Some(Arrival::Client(socket, host))
    }
}
