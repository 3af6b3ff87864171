//! Keep-alive: the system asks a peer that is silent whether it is there, so that a connection ends
//! whose peer has vanished.
ghost use Rattle.libc.specs.Net.{SockOption};

use libc::net::{
    IPPROTO_TCP, SO_KEEPALIVE, SOL_SOCKET, TCP_KEEPCNT, TCP_KEEPIDLE, TCP_KEEPINTVL,
    TCP_USER_TIMEOUT, setsockopt,
};
use std::io;
use std::io::ErrorKind;
use std::net::TcpListener;
use std::os::fd::AsRawFd;

// A peer is asked after so many silent seconds, then every so many, and so often.
const IDLE_SECONDS: u32 = 60;

const PROBE_SECONDS: u32 = 15;

const PROBES: u32 = 4;

// What was sent is sent again for as long, in milliseconds: no peer is asked meanwhile.
const UNANSWERED_MILLIS: u32 = (IDLE_SECONDS + PROBE_SECONDS * PROBES) * 1_000;

/// Has the sockets that a listener accepts fail whose peer has vanished for two minutes.
pub(crate) fn keep_alive(listener: &TcpListener) -> io::Result<()> {
    set_option(listener, SOL_SOCKET, SO_KEEPALIVE, 1)?;
    set_option(listener, IPPROTO_TCP, TCP_KEEPIDLE, IDLE_SECONDS)?;
    set_option(listener, IPPROTO_TCP, TCP_KEEPINTVL, PROBE_SECONDS)?;
    set_option(listener, IPPROTO_TCP, TCP_KEEPCNT, PROBES)?;
    set_option(listener, IPPROTO_TCP, TCP_USER_TIMEOUT, UNANSWERED_MILLIS)
}

// Sets an option whose value is a C `int`. The sockets that are accepted inherit it.
fn set_option(listener: &TcpListener, level: i32, name: i32, value: u32) -> io::Result<()>
    requires { SockOption level name }
{
    let mut bytes = [0u8; 16];
    bytes[..4].copy_from_slice(&value.to_ne_bytes());
    let status = unsafe { setsockopt(listener.as_raw_fd(), level, name, &bytes, 4) };
    if status == 0 {
        Ok(())
    } else {
        Err(io::Error::from(ErrorKind::Other))
    }
}
