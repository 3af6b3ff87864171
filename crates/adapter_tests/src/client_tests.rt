//! The links of a client over real sockets.
use kom_links::{Got, KeysLink, Link, SocketLink, Took};
use std::io::{Read, Write};
use std::net::Shutdown;
use std::os::unix::net::UnixStream;
use std::process::Abort;
use std::test::Fail;

/// Bytes go both ways, until the peer writes no more.
fn check_open(rt: &impl Abort, link: &mut impl Link, far: &mut UnixStream) -> Result<(), Fail> {
    assert!(rt; link.host() == b"::1".as_slice());
    far.write_all(b"hello")?;
    let mut buffer = [0u8; 8];
    assert!(rt; link.read(&mut buffer) == Got::Some(5) && buffer.starts_with(b"hello"));
    assert!(rt; link.write(b"abc") == Took::Some(3));
    assert!(rt; far.read(&mut buffer)? == 3 && buffer.starts_with(b"abc"));
    far.shutdown(Shutdown::Write)?;
    assert!(rt; link.read(&mut buffer) == Got::End && link.faults() == 0);
    Ok(())
}

#[test]
fn a_socket_gives_and_takes(rt: HostRuntime) -> Result<(), Fail> {
    let (near, mut far) = UnixStream::pair(&rt)?;
    let host = b"::1".to_vec(rt.alloc())?;
    let mut link = SocketLink::new(near, host, &rt);
    check_open(&rt, &mut link, &mut far)?;
    drop(far);
    assert!(rt; link.write(b"abc") == Took::Failed && link.faults() == 1);
    Ok(())
}

/// What is typed is read to its end.
fn check_typed(rt: &impl Abort, keys: &mut impl Link, mut far: UnixStream) -> Result<(), Fail> {
    far.write_all(b"list\n")?;
    drop(far);
    let mut buffer = [0u8; 8];
    assert!(rt; keys.read(&mut buffer) == Got::Some(5) && buffer.starts_with(b"list\n"));
    assert!(rt; keys.read(&mut buffer) == Got::End);
    Ok(())
}

#[test]
fn keys_are_only_read(rt: HostRuntime) -> Result<(), Fail> {
    let (near, far) = UnixStream::pair(&rt)?;
    let mut keys = KeysLink::new(near, &rt);
    check_typed(&rt, &mut keys, far)?;
    assert!(rt; keys.write(b"x") == Took::Failed && keys.faults() == 1);
    Ok(())
}
