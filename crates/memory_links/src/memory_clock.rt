ghost use Rattle.std.specs.Prelude.{◌≡◌, ◌<◌, ℕ, [], Some, None, IfSome, length, vec_len};
ghost use Rattle.std.specs.Prelude.{if◌then◌else◌, ◌==◌, ◌^◌, ◌-◌};
ghost use Rattle.kom_links.specs.Doors.{Gains, GivesFirst};
ghost use Rattle.kom_links.specs.WorldCounts.{next_call};
ghost use Rattle.memory_links.specs.Script.{moment_at, readings};

use kom_links::Clock;
use kom_types::Moment;

/// A clock that gives the moments of a script, whose last one it goes on giving.
#[derive(Debug, Drop)]
pub struct MemoryClock {
    script: Vec<Moment>,
    made: u64,
    ghost some: { 0 < vec_len script },
}

impl MemoryClock {
    ghost use Rattle.memory_links.specs.Memories.{moments_of, readings_of};

    /// A clock with this script.
    pub fn new(script: Vec<Moment>) -> MemoryClock
        requires { 0 < vec_len script }
        ensures none_given { ⟦<MemoryClock as Clock>⟧.gave result ≡ Some [] }
        ensures script { moments_of result ≡ script.items }
        ensures no_reading { readings_of result ≡ 0 }
    {
        MemoryClock { script, made: 0 }
    }

    /// How many moments the clock gave; the count stands still at 2^64 - 1.
    pub fn made(&self) -> u64
        ensures { IfSome (⟦<MemoryClock as Clock>⟧.gave self.now) (λ moments.
            result ≡ length moments) }
    {
        self.made
    }
}

impl Clock for MemoryClock {
    ghost use Rattle.memory_links.specs.Memories.{moments_of, readings_of};

    ghost gave = { λ clock.
        if clock.made == 2 ^ 64 - 1 then None else Some (readings clock.script.items clock.made) };

    ghost first = { λ clock. Some (moment_at clock.script.items 0) };

    fn now(&mut self) -> Moment
        ensures gains { Gains (⟦<MemoryClock as Clock>⟧.gave self.old) result
            (⟦<MemoryClock as Clock>⟧.gave self.new) }
        ensures first { GivesFirst (⟦<MemoryClock as Clock>⟧.first self.old)
            (⟦<MemoryClock as Clock>⟧.gave self.old) result }

        // what the script says of this reading
        ensures moment { result ≡ moment_at (moments_of self.old) (readings_of self.old) }
        ensures counted { readings_of self.new ≡ next_call (readings_of self.old) }
        ensures script { moments_of self.new ≡ moments_of self.old }
    {
        let last = self.script.len() - 1;
        let place = if self.made < last as u64 {
            self.made as usize
        } else {
            last
        };
        self.made = self.made.saturating_add(1);
        self.script[place]
    }
}
