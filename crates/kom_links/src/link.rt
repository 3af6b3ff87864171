ghost use Rattle.std.specs.Prelude.{◌≡◌, ◌<◌, length};
ghost use Rattle.kom_links.specs.Outside.{LinkView, Reads, Writes};

/// What a read of a link answers.
#[derive(Clone, Copy, Debug, PartialEq, Eq)]
pub enum Got {
    /// So many bytes stand at the buffer's prefix.
    Some(usize),
    /// Nothing was ready in this call's own step.
    NotYet,
    /// No byte will come any more.
    End,
    /// The link failed, which was counted.
    Failed,
}

/// What a write to a link answers.
#[derive(Clone, Copy, Debug, PartialEq, Eq)]
pub enum Took {
    /// So many bytes were taken from the beginning of what was handed in.
    Some(usize),
    /// Nothing could be taken in this call's own step.
    NotYet,
    /// The link failed, which was counted.
    Failed,
}

/// A connection to a client.
pub trait Link: Drop {
    ghost view: { Self → LinkView };

    /// Where its peer is.
    fn host(&self) -> &[u8]
        ensures { result.now ≡ (view self.now).host };

    /// How often the link failed; it stands still at 2^64 - 1.
    fn faults(&self) -> u64
        ensures { result ≡ (view self.now).faults };

    /// Reads what is ready, up to the buffer's length.
    fn read(&mut self, into: &mut [u8]) -> Got
        requires { 0 < length into.old }
        ensures { Reads (view self.old) into.new result (view self.new) };

    /// Writes what can be written of these bytes.
    fn write(&mut self, from: &[u8]) -> Took
        requires { 0 < length from.now }
        ensures { Writes (view self.old) from.now result (view self.new) };
}
