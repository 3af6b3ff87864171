ghost use Rattle.kom_links.specs.Outside.{IsFresh};
ghost use Rattle.kom_links.specs.Doors.{IfLink, Admits, IsLeft};

use crate::gate::{Gate, Next};

/// A gate at which one waits for many links at a time. It tells which of them may be ready, by the
/// keys under which they were let in. A wrong answer costs time, and no clause hangs on it.
pub trait PolledGate: Gate {
    /// Waits until a link may be ready, somebody may have come or another worker rings, for a
    /// second at most; not at all where there is something to do.
    fn wait(&mut self, is_busy: bool)
        ensures { IsLeft (Self.view self.old) (Self.view self.new) };

    /// A key of a link that may be ready, each once a wait.
    fn next_ready(&mut self) -> Option<usize>
        ensures { IsLeft (Self.view self.old) (Self.view self.new) };

    /// Whether another worker rang since this was last asked.
    fn was_rung(&mut self) -> bool
        ensures { IsLeft (Self.view self.old) (Self.view self.new) };

    /// Rings for the other workers: something may have come to their sessions.
    fn ring(&mut self)
        ensures { IsLeft (Self.view self.old) (Self.view self.new) };

    /// The next link, on which nothing was done yet, and which is told of by this key from now on.
    fn let_in(&mut self, key: usize) -> Next<Self::Link>
        ensures admits { Admits (Self.view self.old) result (Self.view self.new) }
        ensures fresh { IfLink result (λ link. IsFresh (Self.Link.view link)) };
}
