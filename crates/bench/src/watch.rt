// What is told of each measure.
ghost use Rattle.std.specs.Prelude.{◌≡◌, IfOk};

use crate::request::Told;
use std::io;
use std::rt::Clock;
use std::time::Instant;

/// Tells of one measure after another.
#[derive(Drop)]
pub struct Watch {
    start: Instant,
    pub told: Told,
    /// How wide a name is where times are told.
    pub width: usize,
}

impl Watch {
    /// A watch at the begin of the first measure.
    pub fn start(clock: &impl Clock, told: Told, width: usize) -> io::Result<Watch>
        ensures told { IfOk result (λ watch. watch.told ≡ told) }
        ensures width { IfOk result (λ watch. watch.width ≡ width) }
    {
        let start = Instant::now(clock)?;
        Ok(Watch { start, told, width })
    }

    /// Ends a measure, and begins the next one.
    pub fn tell<R: Print + Clock>(&mut self, rt: &R, name: &str, sum: u64) -> io::Result<()>
        ensures told { self.new.told ≡ self.old.told }
        ensures width { self.new.width ≡ self.old.width }
    {
        let time = self.start.elapsed(rt)?;
        let width = self.width;
        match self.told {
            Told::Sums => println!(rt; "{name}: {sum}")?,
            Told::Times => println!(rt; "{name:<width$} {time:?} ({sum})")?,
        }
        self.start = Instant::now(rt)?;
        Ok(())
    }
}
