ghost use Rattle.std.specs.Prelude.{◌≡◌, false, None};
ghost use Rattle.kom_links.specs.Outside.{IsFresh};
ghost use Rattle.kom_links.specs.Doors.{IfLink, Admits};

use crate::bells::RUNG;
use crate::doors::{Arrival, Door};
use crate::gate::{Gate, Next};
use crate::link::Link;
use crate::polled_gate::PolledGate;
use crate::port_gate::PortGate;
use crate::served::Served;
use crate::std_link::StdLink;
use std::io::Input;
use std::net::Net;
use std::rt::Clock;

/// A gate of the process: the one that gives one link, over standard input and output, and then
/// ends; or one at a port, which gives the links of clients that come, and never ends. Such a one
/// gives a link at a time, and waits for one until something is done at the port, for some two
/// seconds at most; or many, and waits for none but in `wait`. It tells nothing of links.
#[derive(Drop)]
pub struct StdGate<'a, R: Input + Print + Clock + Net> {
    entrance: Entrance<'a, R>,
    has_ended: bool,
    faults: u64,
}

// Where the links of a gate come from.
#[derive(Drop)]
enum Entrance<'a, R: Input + Print + Clock + Net> {
    Standard(Option<&'a R>),
    Port(Door<'a, R>),
    Doors(PortGate<'a, R>),
}

impl<'a, R: Input + Print + Clock + Net> StdGate<'a, R> {
    pub(crate) fn new(rt: &'a R) -> StdGate<'a, R>
        ensures not_ended { result.has_ended ≡ false }
        ensures no_fault { result.faults ≡ 0 }
    {
        StdGate {
            entrance: Entrance::Standard(Some(rt)),
            has_ended: false,
            faults: 0,
        }
    }

    /// The gate of this door.
    pub(crate) fn at(door: Door<'a, R>) -> StdGate<'a, R>
        ensures not_ended { result.has_ended ≡ false }
        ensures no_fault { result.faults ≡ 0 }
    {
        StdGate {
            entrance: Entrance::Port(door),
            has_ended: false,
            faults: 0,
        }
    }

    /// The gate of many links at a time.
    pub(crate) fn of_many(gate: PortGate<'a, R>) -> StdGate<'a, R>
        ensures not_ended { result.has_ended ≡ false }
        ensures no_fault { result.faults ≡ 0 }
    {
        StdGate {
            entrance: Entrance::Doors(gate),
            has_ended: false,
            faults: 0,
        }
    }

    // The link of who has come.
    fn admit(&mut self, arrival: Arrival<&'a R>) -> Next<StdLink<'a, R>>
        ensures admits { Admits (⟦<StdGate<'a, R> as Gate>⟧.view self.old) result
            (⟦<StdGate<'a, R> as Gate>⟧.view self.new) }
        ensures fresh { IfLink result (λ link. IsFresh
            (⟦<StdLink<'a, R> as Link>⟧.view link)) }
    {
        match arrival {
            Arrival::Client(socket, host) => Next::Link(StdLink::accepted(socket, host)),
            Arrival::Nobody => Next::NotYet,
            Arrival::Broken => {
                self.faults = self.faults.saturating_add(1);
                Next::Failed
            }
        }
    }
}

impl<'a, R: Input + Print + Clock + Net> Gate for StdGate<'a, R> {
    type Link = StdLink<'a, R>;

    ghost view = { λ gate. record {
      given = None;
      returned = None;
      ended = gate.has_ended;
      faults = gate.faults;
    } };

    fn faults(&self) -> u64 {
        self.faults
    }

    fn next(&mut self) -> Next<StdLink<'a, R>> {
        match &mut self.entrance {
            Entrance::Standard(rt) => match rt.take() {
                Some(rt) => Next::Link(StdLink::new(rt)),
                None => {
                    self.has_ended = true;
                    Next::Ended
                }
            },
            Entrance::Port(door) => {
                let arrival = door.next();
                self.admit(arrival)
            }
            Entrance::Doors(gate) => {
                // Nobody is told of it: by this token it is told of the bell.
                let arrival = gate.let_in(RUNG.0);
                self.admit(arrival)
            }
        }
    }

    fn give_back(&mut self, link: StdLink<'a, R>, _served: Served) {
        let socket = link.into_socket();
        match (&mut self.entrance, socket) {
            (Entrance::Port(door), Some(socket)) => door.close(socket),
            (Entrance::Doors(gate), Some(socket)) => gate.close(socket),
            _ => {}
        }
    }
}

// But for a gate of many links at a time nobody is waited for and told of: `let_in` is `next`.
impl<'a, R: Input + Print + Clock + Net> PolledGate for StdGate<'a, R> {
    fn wait(&mut self, is_busy: bool) {
        if let Entrance::Doors(gate) = &mut self.entrance {
            if gate.wait(is_busy).is_err() {
                self.faults = self.faults.saturating_add(1);
            }
        }
    }

    fn next_ready(&mut self) -> Option<usize> {
        match &mut self.entrance {
            Entrance::Doors(gate) => gate.next_ready(),
            _ => None,
        }
    }

    fn was_rung(&mut self) -> bool {
        match &mut self.entrance {
            Entrance::Doors(gate) => gate.was_rung(),
            _ => false,
        }
    }

    fn ring(&mut self) {
        if let Entrance::Doors(gate) = &mut self.entrance {
            gate.ring();
        }
    }

    fn let_in(&mut self, key: usize) -> Next<StdLink<'a, R>> {
        if let Entrance::Doors(gate) = &mut self.entrance {
            let arrival = gate.let_in(key);
            return self.admit(arrival);
        }
        self.next()
    }
}
