ghost use Rattle.std.specs.Prelude.{ℕ, List, Option};
ghost use Rattle.kom_links.specs.Doors.{Gains, GivesFirst};

use kom_types::Moment;

/// What tells the time. It has no faults.
pub trait Clock: Drop {
    /// The moments that the clock gave so far, where it tells them.
    ghost gave: { Self → Option (List ℕ) };

    /// The moment that it gives first, where it tells that.
    ghost first: { Self → Option ℕ };

    fn now(&mut self) -> Moment
        ensures gains { Gains (gave self.old) result (gave self.new) }
        ensures first { GivesFirst (first self.old) (gave self.old) result };
}
