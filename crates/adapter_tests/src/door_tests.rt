//! Gates at a port of the process's own world, over loopback.
use crate::fakes::FakeRuntime;
use kom_links::{Gate, Got, Link, Next, Served, SessionEnd, StdWorld, Took, World, WorldFault};
use std::alloc::Global;
use std::io;
use std::io::{Read, Write};
use std::net::{Ipv4Addr, Net, OpenListener, SocketAddr, TcpListener, TcpStream};
use std::process::Abort;
use std::rt::Clock;
use std::test::Fail;
use std::time::{Duration, Instant};

/// A port of this machine at which nobody listened a moment ago.
pub fn free_port(rt: &impl Net) -> io::Result<u16> {
    let listener = TcpListener::bind(rt, SocketAddr::from((Ipv4Addr::UNSPECIFIED, 0)))?;
    Ok(listener.local_addr()?.port())
}

/// A client at a port of this machine.
pub fn connect<R: Net>(rt: &R, port: u16) -> io::Result<R::Stream> {
    TcpStream::connect(rt, SocketAddr::from((Ipv4Addr::LOCALHOST, port)))
}

/// A gate waits while nobody comes.
fn check_alone<R: Clock + Abort>(rt: &R, gate: &mut impl Gate) -> Result<(), Fail> {
    let start = Instant::now(rt)?;
    assert!(rt; matches!(gate.next(), Next::NotYet));
    assert!(rt; start.elapsed(rt)? >= Duration::from_millis(80));
    Ok(())
}

/// A gate lets a client in, of which not all is read, and takes it back.
fn serve<G: Gate>(rt: &impl Abort, gate: &mut G, client: &mut impl Write) -> Result<(), Fail> {
    match gate.next() {
        Next::Link(mut link) => {
            let mut buffer = [0u8; 8];
            assert!(rt; link.host() == b"127.0.0.1".as_slice());
            assert!(rt; link.read(&mut buffer) == Got::NotYet);
            client.write_all(b"hello, and more than is read")?;
            assert!(rt; link.read(&mut buffer) == Got::Some(8) && buffer.starts_with(b"hello"));
            assert!(rt; link.write(b"bye\n") == Took::Some(4));
            let served = Served {
                session: 0,
                end: SessionEnd::End,
            };
            gate.give_back(link, served);
        }
        _ => assert!(rt; false),
    }
    Ok(())
}

/// The last line came, and no more.
pub fn check_last(rt: &impl Abort, client: &mut impl Read) -> Result<(), Fail> {
    let mut line = [0u8; 8];
    assert!(rt; client.read(&mut line)? == 4 && line.starts_with(b"bye\n"));
    assert!(rt; client.read(&mut line)? == 0);
    Ok(())
}

/// Of two gates at a port the one waits, and the other lets a client in; a port that is taken is
/// refused.
fn check_gates<R, W>(rt: &R, alloc: Global, world: &mut W, port: u16) -> Result<(), Fail>
where
    R: Clock + Net + Abort,
    W: World,
{
    let Ok(mut gates) = world.open_gates(alloc, port, 2) else {
        assert!(rt; false);
        return Ok(());
    };
    check_alone(rt, &mut gates[0])?;
    assert!(rt; matches!(world.open_gates(alloc, port, 1), Err(WorldFault::Failed)));
    assert!(rt; world.faults() == 1);
    let mut client = connect(rt, port)?;
    serve(rt, &mut gates[1], &mut client)?;
    check_last(rt, &mut client)
}

#[test]
fn a_gate_lets_clients_in(rt: HostRuntime) -> Result<(), Fail> {
    check_gates(&rt, rt.alloc(), &mut StdWorld::new(&rt), free_port(&rt)?)
}

/// A link fails to which nothing was written for half a minute, whatever its client sent; and one
/// whose client has sent nothing but a line feed for half an hour after its greeting was answered.
/// It goes on once the client has.
fn check_silent(
    rt: &impl Abort,
    runtime: &FakeRuntime,
    link: &mut impl Link,
    client: &mut impl Write,
) -> Result<(), Fail> {
    let mut buffer = [0u8; 8];
    client.write_all(b"A")?;
    assert!(rt; link.read(&mut buffer) == Got::Some(1));
    runtime.tell(36);
    assert!(rt; link.read(&mut buffer) == Got::NotYet);
    runtime.tell(37);
    assert!(rt; link.read(&mut buffer) == Got::Failed);
    assert!(rt; link.write(b"LysKOM\n") == Took::Some(7));
    client.write_all(b"\n")?;
    assert!(rt; link.read(&mut buffer) == Got::Some(1));
    runtime.tell(1_836);
    assert!(rt; link.read(&mut buffer) == Got::NotYet);
    runtime.tell(1_837);
    assert!(rt; link.read(&mut buffer) == Got::Failed);
    client.write_all(b"1")?;
    assert!(rt; link.read(&mut buffer) == Got::Some(1));
    runtime.tell(100_000);
    assert!(rt; link.read(&mut buffer) == Got::NotYet);
    Ok(())
}

/// A link fails whose client has taken nothing for a minute while it was written to.
fn check_stalled(
    rt: &impl Abort,
    alloc: Global,
    runtime: &FakeRuntime,
    link: &mut impl Link,
) -> Result<(), Fail> {
    // More than there is room for.
    let many = vec![in alloc; 7u8; 1_000_000]?;
    let mut took = Took::Some(1);
    for _ in 0..1_000 {
        took = link.write(&many);
        if took == Took::NotYet {
            break;
        }
    }
    assert!(rt; took == Took::NotYet);
    runtime.tell(100_059);
    assert!(rt; link.write(&many) == Took::NotYet);
    runtime.tell(100_060);
    assert!(rt; link.write(&many) == Took::Failed);
    assert!(rt; link.faults() == 3);
    Ok(())
}

/// A link fails whose client is silent or stalls, at the second from which the clock says so.
fn check_limits<R, W>(
    rt: &R,
    alloc: Global,
    runtime: &FakeRuntime,
    world: &mut W,
    port: u16,
) -> Result<(), Fail>
where
    R: Net + Abort,
    W: World,
{
    let Ok(mut gates) = world.open_gates(alloc, port, 1) else {
        assert!(rt; false);
        return Ok(());
    };
    let mut client = connect(rt, port)?;
    match gates[0].next() {
        Next::Link(mut link) => {
            check_silent(rt, runtime, &mut link, &mut client)?;
            check_stalled(rt, alloc, runtime, &mut link)
        }
        _ => {
            assert!(rt; false);
            Ok(())
        }
    }
}

#[test]
fn a_link_fails_that_is_silent_or_stalls(rt: HostRuntime) -> Result<(), Fail> {
    let port = free_port(&rt)?;
    let runtime = FakeRuntime::new(rt.alloc(), &[]);
    runtime.tell(7);
    let shared = &runtime;
    check_limits(&rt, rt.alloc(), shared, &mut StdWorld::new(&shared), port)
}
