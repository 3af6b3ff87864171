ghost use Rattle.std.specs.Prelude.{◌≡◌};
ghost use Rattle.kom_links.specs.Doors.{SinkView, Puts};

/// A call failed, which was counted.
#[derive(Clone, Copy, Debug, PartialEq, Eq)]
pub struct Failed;

/// Where a program's report goes.
pub trait Sink: Drop {
    ghost view: { Self → SinkView };

    /// How often the sink failed; it stands still at 2^64 - 1.
    fn faults(&self) -> u64
        ensures { result ≡ (view self.now).faults };

    /// Writes all the bytes, or fails and has written some of the first of them.
    fn write(&mut self, from: &[u8]) -> Result<(), Failed>
        ensures { Puts (view self.old) from.now result (view self.new) };
}
