ghost use Rattle.std.specs.Prelude.{None};

use crate::clock::Clock;
use kom_types::Moment;
use std::rt;
use std::time::{SystemTime, UNIX_EPOCH};

/// The system's clock. If the system does not tell the time, it gives the moment again that it
/// gave last. It tells nothing of its moments.
#[derive(Drop)]
pub struct SystemClock<R: rt::Clock + Drop> {
    rt: R,
    last: Moment,
}

impl<R: rt::Clock + Drop> SystemClock<R> {
    pub(crate) fn new(rt: R) -> SystemClock<R> {
        SystemClock {
            rt,
            last: Moment::at_most(0),
        }
    }
}

impl<R: rt::Clock + Drop> Clock for SystemClock<R> {
    ghost gave = { λ _. None };

    ghost first = { λ _. None };

    fn now(&mut self) -> Moment {
        if let Ok(time) = SystemTime::now(&self.rt) {
            if let Ok(since) = time.duration_since(UNIX_EPOCH) {
                self.last = Moment::at_most(since.as_secs());
            }
        }
        self.last
    }
}
