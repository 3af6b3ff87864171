ghost use Rattle.std.specs.Prelude.{◌≡◌, None};

use crate::sink::{Failed, Sink};
use std::io::Write;

/// The process's own output as a sink. It tells nothing of what is put to it.
#[derive(Drop)]
pub struct StdSink<W: Write + Drop> {
    writer: W,
    faults: u64,
}

impl<W: Write + Drop> StdSink<W> {
    pub(crate) fn new(writer: W) -> StdSink<W>
        ensures { result.faults ≡ 0 }
    {
        StdSink { writer, faults: 0 }
    }
}

impl<W: Write + Drop> Sink for StdSink<W> {
    ghost view = { λ sink. record { put = None; faults = sink.faults } };

    fn faults(&self) -> u64 {
        self.faults
    }

    fn write(&mut self, from: &[u8]) -> Result<(), Failed> {
        if self.writer.write_all(from).is_err() {
            self.faults = self.faults.saturating_add(1);
            return Err(Failed);
        }
        Ok(())
    }
}
