//! One wait for keys and for the server.
use kom_exchange::{Ready, Waiting};
use mio::unix::SourceFd;
use mio::{Events, Interest, Poll, Token};
use std::alloc::Global;
use std::io;
use std::net::Net;
use std::os::fd::RawFd;

const KEYS: Token = Token(0);

const LINK: Token = Token(1);

/// The descriptor of standard input.
const INPUT: RawFd = 0;

/// Waits for standard input and for a socket.
pub(crate) struct Terminal {
    poll: Poll,
    events: Events<Global>,
    socket: RawFd,
    // A file can always be read, and nothing waits for it.
    is_file: bool,
}

impl Drop for Terminal {
    fn drop(self) {
        let Terminal {
            poll,
            events,
            socket: _,
            is_file: _,
        } = self;
        drop((poll, events));
    }
}

impl Terminal {
    pub(crate) fn new(net: &impl Net, alloc: Global, socket: RawFd) -> io::Result<Terminal> {
        let poll = Poll::new(net)?;
        let events = Events::with_capacity(alloc, 4)?;
        let registry = poll.registry();
        registry.register(&mut SourceFd(&socket), LINK, Interest::READABLE)?;
        let input = INPUT;
        let keys = registry.register(&mut SourceFd(&input), KEYS, Interest::READABLE);
        let is_file = keys.is_err();
        Ok(Terminal {
            poll,
            events,
            socket,
            is_file,
        })
    }

    /// Has what can be read by now be told once more.
    fn arm(&self) -> io::Result<()> {
        let registry = self.poll.registry();
        registry.reregister(&mut SourceFd(&self.socket), LINK, Interest::READABLE)?;
        if !self.is_file {
            let input = INPUT;
            registry.reregister(&mut SourceFd(&input), KEYS, Interest::READABLE)?;
        }
        Ok(())
    }

    fn try_wait(&mut self) -> io::Result<Ready> {
        self.arm()?;
        if self.is_file {
            return Ok(Ready {
                keys: true,
                link: false,
            });
        }
        self.poll.poll(&mut self.events, None)?;
        let mut ready = Ready {
            keys: false,
            link: false,
        };
        for event in self.events.iter() {
            if event.token() == KEYS {
                ready.keys = true;
            } else {
                ready.link = true;
            }
        }
        Ok(ready)
    }
}

impl Waiting for Terminal {
    fn wait(&mut self) -> Ready {
        match self.try_wait() {
            Ok(ready) => ready,
            Err(_) => Ready {
                keys: true,
                link: false,
            },
        }
    }
}
