//! The terminal client `komc`: its keys are standard input, what it shows goes to standard output,
//! and its server listens at a port of this machine.
#![tactic(auto)]

mod command;

use crate::command::{Command, command_of};
use kom_client::{TalkEnd, talk};
use kom_links::{KeysLink, SocketLink, StandardDescriptors, StdWorld, World};
use kom_types::{Memory, Words};
use std::env;
use std::io::Input;
use std::net::TcpStream;
use std::process::ExitCode;

/// Where the server is: a name of which each address is tried.
const HOST: &str = "localhost";

/// The status of all that does not come to the keys' end.
const FAILED: u8 = 1;

fn main(rt: HostRuntime) -> ExitCode {
    let Ok(_held) = StandardDescriptors::fill(&rt) else {
        return ExitCode::from(FAILED);
    };
    let Ok(words) = words(&rt) else {
        return ExitCode::from(FAILED);
    };
    let Some(Command { port, user }) = command_of(&words) else {
        return ExitCode::from(FAILED);
    };
    let Ok(stream) = TcpStream::connect(&rt, (HOST, port)) else {
        return ExitCode::from(FAILED);
    };
    let Ok(host) = HOST.as_bytes().to_vec(rt.alloc()) else {
        return ExitCode::from(FAILED);
    };
    let mut link = SocketLink::new(stream, host, &rt);
    let mut keys = KeysLink::new(rt.reader(), &rt);
    let mut out = StdWorld::new(&rt).out();
    match talk(
        &rt,
        rt.alloc(),
        user.as_bytes(),
        &mut keys,
        &mut link,
        &mut out,
    ) {
        TalkEnd::End => ExitCode::from(0),
        _ => ExitCode::from(FAILED),
    }
}

/// The words of the command line after the program's name. Words that are no text are no command
/// line.
fn words(rt: &HostRuntime) -> Result<Words, Memory> {
    let mut words = Words::new(rt.alloc());
    if let Ok(args) = env::args(rt) {
        for word in args.skip(1) {
            words.push(word.as_str())?;
        }
    }
    Ok(words)
}
