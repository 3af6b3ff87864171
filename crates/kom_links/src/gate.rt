ghost use Rattle.std.specs.Prelude.{◌≡◌};
ghost use Rattle.kom_links.specs.Outside.{IsFresh};
ghost use Rattle.kom_links.specs.Doors.{GateView, IfLink, Admits, TakesBack};

use crate::link::Link;
use crate::served::Served;

/// What a gate returns if a link is asked for.
#[derive(Debug, Drop)]
pub enum Next<L> {
    /// A client has come.
    Link(L),
    /// Nobody had come in this call's own step.
    NotYet,
    /// Nobody will come any more.
    Ended,
    /// The gate failed, which was counted.
    Failed,
}

/// Where clients come in.
pub trait Gate: Drop {
    type Link: Link;

    ghost view: { Self → GateView Self.Link };

    /// How often the gate failed; it stands still at 2^64 - 1.
    fn faults(&self) -> u64
        ensures { result ≡ (view self.now).faults };

    /// The next link, on which nothing was done yet.
    fn next(&mut self) -> Next<Self::Link>
        ensures admits { Admits (view self.old) result (view self.new) }
        ensures fresh { IfLink result (λ link. IsFresh (Self.Link.view link)) };

    /// Takes a link back, with how it was served.
    fn give_back(&mut self, link: Self::Link, served: Served)
        ensures { TakesBack (view self.old) link served (view self.new) };
}
