//! Gates at a port at which one worker waits for many links at a time, over loopback.
use crate::door_tests::{check_last, connect, free_port};
use crate::fakes::FakeRuntime;
use kom_links::{Got, Link, Next, PolledGate, Served, SessionEnd, StdWorld, Took, World};
use std::alloc::Global;
use std::io::{Read, Write};
use std::net::Net;
use std::process::Abort;
use std::test::Fail;

/// Waits once at a gate. Whether it tells of a key.
fn tells<G: PolledGate>(gate: &mut G, key: usize) -> bool {
    gate.wait(false);
    let mut is_told = false;
    for _ in 0..16 {
        match gate.next_ready() {
            Some(told) => is_told = is_told || told == key,
            None => return is_told,
        }
    }
    is_told
}

/// The link of the next client, told of by this key. It is waited for for some seconds.
fn let_in<G: PolledGate>(gate: &mut G, key: usize) -> Option<G::Link> {
    for _ in 0..10 {
        if let Next::Link(link) = gate.let_in(key) {
            return Some(link);
        }
        tells(gate, key);
    }
    None
}

/// Gives a link back.
fn give_back<G: PolledGate>(gate: &mut G, link: G::Link) {
    let served = Served {
        session: 0,
        end: SessionEnd::End,
    };
    gate.give_back(link, served);
}

/// A key is told of once bytes have come, and the last line comes though more was sent than was
/// read.
fn check_told<G: PolledGate>(
    rt: &impl Abort,
    gate: &mut G,
    mut link: G::Link,
    client: &mut (impl Read + Write),
) -> Result<(), Fail> {
    let mut buffer = [0u8; 8];
    assert!(rt; link.host() == b"127.0.0.1".as_slice());
    // That it can be written to is told first.
    assert!(rt; tells(gate, 7));
    assert!(rt; link.read(&mut buffer) == Got::NotYet);
    client.write_all(b"hello, and more than is read")?;
    assert!(rt; tells(gate, 7));
    assert!(rt; link.read(&mut buffer) == Got::Some(8) && buffer.starts_with(b"hello"));
    assert!(rt; link.write(b"bye\n") == Took::Some(4));
    give_back(gate, link);
    check_last(rt, client)
}

/// A key is told of again after a read that gave all bytes, where the end came with these.
fn check_end<G: PolledGate>(
    rt: &impl Abort,
    gate: &mut G,
    mut link: G::Link,
    mut client: impl Write + Drop,
) -> Result<(), Fail> {
    let mut buffer = [0u8; 8];
    client.write_all(b"hi")?;
    drop(client);
    assert!(rt; tells(gate, 7));
    assert!(rt; link.read(&mut buffer) == Got::Some(2));
    assert!(rt; tells(gate, 7));
    assert!(rt; link.read(&mut buffer) == Got::End);
    give_back(gate, link);
    Ok(())
}

/// Who comes is left to a gate that has fewer links, for a second.
fn check_left<R, G>(rt: &R, runtime: &FakeRuntime, gate: &mut G, port: u16) -> Result<(), Fail>
where
    R: Net + Abort,
    G: PolledGate,
{
    let _first = connect(rt, port)?;
    let link = let_in(gate, 7);
    assert!(rt; link.is_some());
    let _second = connect(rt, port)?;
    tells(gate, 7);
    assert!(rt; matches!(gate.let_in(8), Next::NotYet));
    runtime.tell(1);
    assert!(rt; let_in(gate, 8).is_some());
    Ok(())
}

/// A gate hears that another rang, once, and not what it rang itself.
fn check_bell<G: PolledGate>(rt: &impl Abort, one: &mut G, other: &mut G) {
    assert!(rt; !one.was_rung());
    other.ring();
    assert!(rt; !other.was_rung());
    assert!(rt; one.was_rung());
    assert!(rt; !one.was_rung());
}

fn check_gates<R, W>(
    rt: &R,
    alloc: Global,
    runtime: &FakeRuntime,
    world: &mut W,
    port: u16,
) -> Result<(), Fail>
where
    R: Net + Abort,
    W: World,
{
    let Ok(mut gates) = world.open_doors(alloc, port, 2) else {
        assert!(rt; false);
        return Ok(());
    };
    let (Some(mut one), Some(mut other)) = (gates.pop(), gates.pop()) else {
        assert!(rt; false);
        return Ok(());
    };
    check_bell(rt, &mut one, &mut other);
    let mut client = connect(rt, port)?;
    match let_in(&mut one, 7) {
        Some(link) => check_told(rt, &mut one, link, &mut client)?,
        None => assert!(rt; false),
    }
    let client = connect(rt, port)?;
    match let_in(&mut one, 7) {
        Some(link) => check_end(rt, &mut one, link, client)?,
        None => assert!(rt; false),
    }
    check_left(rt, runtime, &mut one, port)
}

#[test]
fn a_gate_tells_of_many_links(rt: HostRuntime) -> Result<(), Fail> {
    let port = free_port(&rt)?;
    let runtime = FakeRuntime::new(rt.alloc(), &[]);
    let shared = &runtime;
    check_gates(&rt, rt.alloc(), shared, &mut StdWorld::new(&shared), port)
}
