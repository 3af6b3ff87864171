ghost use Rattle.std.specs.Prelude.{◌≡◌};
ghost use Rattle.kom_client.specs.declared.talk_end.TalkEnd.TheVariants as end;

use kom_types::Memory;

/// How a client's talk ended.
#[derive(Clone, Copy, Debug, PartialEq, Eq)]
pub enum TalkEnd {
    /// The keys ended.
    End,
    /// The server's link ended while a line was awaited.
    ServerEnd,
    /// The server's stream departs at this place, counted from 0, or its line that ends there is
    /// none that a client can take.
    Broken(u64),
    /// The keys failed.
    KeysFault,
    /// The server's link failed.
    LinkFault,
    /// What shows failed.
    SinkFault,
    /// Memory ran out.
    Memory,
}

impl From<Memory> for TalkEnd {
    ghost from_gives = { λ _ found. found ≡ end.Memory };

    fn from(_error: Memory) -> TalkEnd {
        TalkEnd::Memory
    }
}
