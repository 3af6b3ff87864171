//! Doors at a port: one listener, of which each gate has a clone and a watch of its own.
ghost use Rattle.std.specs.Prelude.{◌≡◌, IfOk, length};
ghost use Rattle.std.specs.List.{AllByRecursion};
ghost use Rattle.kom_links.specs.Doors.{IsNewGate};

use crate::accepted_socket::AcceptedSocket;
use crate::bells::{Watch, open_watches};
use crate::gate::Gate;
use crate::keep_alive::keep_alive;
use crate::port_gate::{PortGate, SOURCES};
use crate::std_gate::StdGate;
use crate::std_link::Host;
use arrayvec::ArrayString;
use mio::net::{TcpListener, TcpStream};
use mio::{Interest, Token};
use std::alloc::Global;
use std::fmt::Write;
use std::io::{ErrorKind, Input};
use std::net::{IpAddr, Ipv4Addr, Ipv6Addr, Net, SocketAddr};
use std::rt::Clock;
use std::{io, net};

// For how long a gate waits at least before it returns that nobody has come, in milliseconds.
const PAUSE_MILLIS: u64 = 500;

// The system has no sockets of this family.
const FAMILY_UNSUPPORTED: i32 = 97;

/// Who has come to a door.
pub(crate) enum Arrival<C: Clock + Drop> {
    /// A client, from this address.
    Client(AcceptedSocket<C>, Host),
    /// Nobody, or one that has gone again or cannot be let in.
    Nobody,
    /// The listener is broken.
    Broken,
}

/// A door at a port. One client is let in at a time.
#[derive(Drop)]
pub(crate) struct Door<'a, R: Net + Clock> {
    rt: &'a R,
    listener: TcpListener,
    watch: Watch,
    /// That of the next client.
    spare: Option<Watch>,
}

impl<'a, R: Net + Clock> Door<'a, R> {
    fn open(
        rt: &'a R,
        listener: &net::TcpListener,
        watches: &mut Vec<Watch>,
    ) -> io::Result<Door<'a, R>> {
        let mut listener = TcpListener::from_std(listener.try_clone()?);
        let Some(watch) = watches.pop() else {
            return Err(io::Error::from(ErrorKind::Other));
        };
        watch
            .registry()
            .register(&mut listener, Token(0), Interest::READABLE)?;
        Ok(Door {
            rt,
            listener,
            watch,
            spare: watches.pop(),
        })
    }

    /// Who comes next. If nobody is there, it waits until somebody comes or something is done at
    /// the port, and looks once more where somebody may be there.
    pub(crate) fn next(&mut self) -> Arrival<&'a R> {
        match self.look() {
            Arrival::Client(socket, host) => return Arrival::Client(socket, host),
            Arrival::Nobody => {}
            Arrival::Broken => return Arrival::Broken,
        }
        match self.watch.wait(PAUSE_MILLIS) {
            Ok(true) => self.look(),
            Ok(false) => Arrival::Nobody,
            Err(_) => Arrival::Broken,
        }
    }

    /// Takes a client's socket back, and closes it.
    pub(crate) fn close(&mut self, socket: AcceptedSocket<&'a R>) {
        self.spare = socket.close();
    }

    // An accept that fails for want of descriptors, or because the peer has gone, found nobody.
    fn look(&mut self) -> Arrival<&'a R> {
        match self.listener.accept() {
            Ok((stream, address)) => self.let_in(stream, address),
            Err(error) => {
                if error.kind() == ErrorKind::InvalidInput {
                    Arrival::Broken
                } else {
                    Arrival::Nobody
                }
            }
        }
    }

    fn let_in(&mut self, stream: TcpStream, address: SocketAddr) -> Arrival<&'a R> {
        let Some(host) = host_of(address.ip().to_canonical()) else {
            return Arrival::Nobody;
        };
        let Some(watch) = self.spare.take() else {
            return Arrival::Nobody;
        };
        match AcceptedSocket::new(stream, watch, self.rt) {
            Ok(socket) => Arrival::Client(socket, host),
            Err(watch) => {
                self.spare = Some(watch);
                Arrival::Nobody
            }
        }
    }
}

/// An address as text.
pub(crate) fn host_of(ip: IpAddr) -> Option<Host> {
    let mut host = ArrayString::new();
    write!(host, "{ip}").ok()?;
    Some(host)
}

/// How many links a gate at a port gives at a time.
#[derive(Clone, Copy)]
pub(crate) enum AtATime {
    One,
    Many,
}

impl AtATime {
    // How many watches the gates of so many workers need: a link that is waited for alone has one.
    fn watches(self, number: u32) -> usize {
        match self {
            AtATime::One => number as usize * 2,
            AtATime::Many => number as usize,
        }
    }

    // Of how many sources each watch is told at a time.
    fn sources(self) -> usize {
        match self {
            AtATime::One => 1,
            AtATime::Many => SOURCES,
        }
    }
}

/// So many gates at a port.
pub(crate) fn open_port<'a, R: Input + Print + Clock + Net>(
    rt: &'a R,
    alloc: Global,
    port: u16,
    number: u32,
    links: AtATime,
) -> io::Result<Vec<StdGate<'a, R>>>
    ensures fresh { IfOk result (λ gates.
        AllByRecursion (λ gate. IsNewGate (⟦<StdGate<'a, R> as Gate>⟧.view gate)) gates.items) }
    ensures number { IfOk result (λ gates. length gates.items ≡ number) }
{
    let mut gates = Vec::with_capacity(alloc, number as usize)?;
    let listener = net::TcpListener::from(bind(rt, port)?);
    keep_alive(&listener)?;
    let mut watches = open_watches(rt, alloc, links.watches(number), links.sources())?;
    for count in 0..number {
        let gate = open_gate(rt, alloc, &listener, &mut watches, links)?;
        gates.push_reserved(gate);
    }
    Ok(gates)
}

// A gate at a port.
fn open_gate<'a, R: Input + Print + Clock + Net>(
    rt: &'a R,
    alloc: Global,
    listener: &net::TcpListener,
    watches: &mut Vec<Watch>,
    links: AtATime,
) -> io::Result<StdGate<'a, R>>
    ensures fresh { IfOk result (λ gate. IsNewGate (⟦<StdGate<'a, R> as Gate>⟧.view gate)) }
{
    match links {
        AtATime::One => Ok(StdGate::at(Door::open(rt, listener, watches)?)),
        AtATime::Many => {
            let Some(watch) = watches.pop() else {
                return Err(io::Error::from(ErrorKind::Other));
            };
            Ok(StdGate::of_many(PortGate::open(rt, alloc, listener, watch)?))
        }
    }
}

// A listener at a port of all addresses: of IPv4 alone only if the system has no IPv6.
fn bind<R: Net>(net: &R, port: u16) -> io::Result<TcpListener> {
    match TcpListener::bind(net, SocketAddr::from((Ipv6Addr::UNSPECIFIED, port))) {
        Ok(listener) => Ok(listener),
        Err(error) => {
            if lacks_ipv6(&error) {
                TcpListener::bind(net, SocketAddr::from((Ipv4Addr::UNSPECIFIED, port)))
            } else {
                Err(error)
            }
        }
    }
}

fn lacks_ipv6(error: &io::Error) -> bool {
    error.kind() == ErrorKind::AddrNotAvailable || error.raw_os_error() == Some(FAMILY_UNSUPPORTED)
}
