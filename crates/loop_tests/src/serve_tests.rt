//! A server that serves a port, and a client that talks to it, in one process.
ghost use Rattle.std.specs.Prelude.{IfOk};
ghost use Rattle.kom_client.specs.Client.{IsUntouched};

use arrayvec::ArrayString;
use kom_client::{TalkEnd, talk};
use kom_links::{Link, SocketLink, StdWorld};
use kom_server::run;
use kom_types::{Memory, Words};
use memory_links::{LinkPlan, MemoryLink, MemorySink};
use std::alloc::{AllocError, Global};
use std::fmt::Write;
use std::io::Read;
use std::net::{Ipv4Addr, Net, OpenListener, SocketAddr, TcpListener, TcpStream};
use std::rt::Clock;
use std::sync::Wait;
use std::test::Fail;
use std::time::Duration;
use std::{fs, io, thread};

const FOLDER: &str = "serve_test";

const STORE: &str = "serve_test/store";

const KEYS: &[u8] = b"login 5 \nwrite 5 Hello\nread 1\n";

const SHOWN: &[u8] = b"ok\nok 1\nok 5HHello\n";

/// What a second socket sends, and is answered: a login, the level 255, and the end of the server.
const LAST: &[u8] = b"A4Hlast\n1 62 5 0H 0\n2 42 255\n3 44 0\n";

const ANSWERED: &[u8] = b"LysKOM\n=1\n=2\n=3\n";

/// The words of a command line.
fn words_of(alloc: Global, line: &[&str]) -> Result<Words, Memory> {
    let mut words = Words::new(alloc);
    for word in line {
        words.push(word)?;
    }
    Ok(words)
}

/// A port of this machine at which nobody listened a moment ago.
fn free_port(rt: &impl Net) -> io::Result<u16> {
    let listener = TcpListener::bind(rt, SocketAddr::from((Ipv4Addr::UNSPECIFIED, 0)))?;
    Ok(listener.local_addr()?.port())
}

/// A connection to a server that may not listen yet.
fn connect<R: Net + Clock>(rt: &R, port: u16) -> io::Result<R::Stream> {
    let here = SocketAddr::from((Ipv4Addr::LOCALHOST, port));
    for _ in 0..500 {
        if let Ok(stream) = TcpStream::connect(rt, here) {
            return Ok(stream);
        }
        thread::sleep(rt, Duration::from_millis(20));
    }
    TcpStream::connect(rt, here)
}

/// A link that gives these bytes.
fn keys_of(alloc: Global, keys: &[u8]) -> Result<MemoryLink, AllocError>
    ensures { IfOk result (λ link. IsUntouched (⟦<MemoryLink as Link>⟧.view link)) }
{
    let typed = Vec::from_slice(alloc, keys)?;
    Ok(MemoryLink::new(alloc, typed, LinkPlan::new(alloc)))
}

/// Talks to the server at a port, and returns how the talk ends and whether it shows what it
/// should.
fn visit<R: Wait + Net + Clock>(rt: &R, alloc: Global, port: u16) -> io::Result<(TalkEnd, bool)> {
    let mut keys = keys_of(alloc, KEYS)?;
    let mut link = SocketLink::new(connect(rt, port)?, b"localhost".to_vec(alloc)?, rt);
    let mut out = MemorySink::new(alloc, Vec::new(alloc));
    let end = talk(rt, alloc, b"Hanna", &mut keys, &mut link, &mut out);
    Ok((end, out.output() == SHOWN))
}

/// Has the server at a port end, and returns whether it answers as it should, up to the end.
fn finish<R: Net + Clock>(rt: &R, alloc: Global, port: u16) -> io::Result<bool> {
    let mut stream = connect(rt, port)?;
    io::Write::write_all(&mut stream, LAST)?;
    let mut answered = Vec::new(alloc);
    stream.read_to_end(&mut answered)?;
    Ok(answered.as_slice() == ANSWERED)
}

#[test]
fn a_talk_over_a_socket_is_served(rt: HostRuntime) -> Result<(), Fail> {
    let alloc = rt.alloc();
    let _ = fs::remove_dir_all(&rt, FOLDER);
    fs::create_dir(&rt, FOLDER)?;
    let init = words_of(alloc, &["init", STORE, ""])?;
    let made = run(&rt, alloc, &init, &mut StdWorld::new(&rt)).status;
    assert_eq!(rt; made, 0);
    let port = free_port(&rt)?;
    let mut number = ArrayString::<8>::new();
    write!(number, "{}", port)?;
    let serve = words_of(alloc, &["serve", STORE, number.as_str(), "2"])?;
    let (served, (visited, finished)) = thread::join(
        &rt,
        || run(&rt, alloc, &serve, &mut StdWorld::new(&rt)).status,
        || (visit(&rt, alloc, port), finish(&rt, alloc, port)),
    );
    assert_eq!(rt; visited?, (TalkEnd::End, true));
    assert!(rt; finished?);
    assert_eq!(rt; served, 0);
    fs::remove_dir_all(&rt, FOLDER)?;
    Ok(())
}
