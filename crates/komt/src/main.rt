//! The terminal client `komt`: a person reads and writes, line by line.
#![tactic(auto)]

mod command;
mod draft_file;
mod terminal;

use crate::command::command_of;
use crate::draft_file::DraftFile;
use crate::terminal::Terminal;
use kom_exchange::{Exchange, VisitEnd};
use kom_links::{KeysLink, SocketLink, StandardDescriptors, StdWorld, World};
use kom_screen::Screen;
use kom_types::{Memory, Words};
use kom_visit::{Guest, visit};
use std::env;
use std::io::Input;
use std::net::TcpStream;
use std::os::fd::AsRawFd;
use std::process::ExitCode;

/// The status of all that does not come to the keys' end.
const FAILED: u8 = 1;

/// The status where the server has gone.
const GONE: u8 = 3;

/// The status where the password is another one.
const REFUSED: u8 = 4;

/// The status where nobody is called so.
const UNKNOWN: u8 = 5;

fn main(rt: HostRuntime) -> ExitCode {
    let Ok(_held) = StandardDescriptors::fill(&rt) else {
        return ExitCode::from(FAILED);
    };
    let Ok(words) = words(&rt) else {
        return ExitCode::from(FAILED);
    };
    let Some(command) = command_of(&words) else {
        let _ = eprintln!(rt;
            "usage: komt [--host NAME] [--port NUMBER] [--user NAME] \
             [--columns NUMBER] [--rows NUMBER] [--zone +0100] NAME"
        );
        return ExitCode::from(FAILED);
    };
    let Ok(stream) = TcpStream::connect(&rt, (command.host, command.port)) else {
        let _ = println!(rt; "* Nobody listens there. Enter tries again.");
        return ExitCode::from(GONE);
    };
    let Ok(terminal) = Terminal::new(&rt, rt.alloc(), stream.as_raw_fd()) else {
        return ExitCode::from(FAILED);
    };
    let Ok(host) = command.host.as_bytes().to_vec(rt.alloc()) else {
        return ExitCode::from(FAILED);
    };
    let link = SocketLink::new(stream, host, &rt);
    let keys = KeysLink::new(rt.reader(), &rt);
    let screen = Screen::new(StdWorld::new(&rt).out(), command.columns, command.rows);
    let user = command.user.as_bytes();
    let Ok(exchange) = Exchange::new(rt.alloc(), user, terminal, keys, link, screen) else {
        return ExitCode::from(FAILED);
    };
    let guest = Guest {
        name: command.name.as_bytes(),
        zone: command.zone,
    };
    let visited = visit(&rt, rt.alloc(), &guest, exchange, DraftFile::new(&rt));
    ExitCode::from(status_of(visited.end))
}

fn status_of(end: VisitEnd) -> u8 {
    match end {
        VisitEnd::Quit | VisitEnd::KeysEnd => 0,
        VisitEnd::ServerEnd | VisitEnd::LinkFault | VisitEnd::Broken => GONE,
        VisitEnd::Refused => REFUSED,
        VisitEnd::Unknown => UNKNOWN,
        VisitEnd::KeysFault | VisitEnd::SinkFault | VisitEnd::Memory => FAILED,
    }
}

/// The words of the command line after the program's name. Words that are no text are no command
/// line.
fn words(rt: &HostRuntime) -> Result<Words, Memory> {
    let mut words = Words::new(rt.alloc());
    if let Ok(args) = env::args(rt) {
        for word in args.skip(1) {
            words.push(word.as_str())?;
        }
    }
    Ok(words)
}
