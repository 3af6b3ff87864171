ghost use Rattle.std.specs.Prelude.{◌≡◌};
ghost use Rattle.kom_exchange.specs.declared.visit_end.VisitEnd.TheVariants as end;

use kom_records::ReadFault;
use kom_screen::ScreenFault;
use kom_types::Memory;
use std::alloc::{AllocError, AllocFailed};

/// How a visit ended.
#[derive(Clone, Copy, Debug, PartialEq, Eq)]
pub enum VisitEnd {
    /// The person left.
    Quit,
    /// The keys ended.
    KeysEnd,
    /// Nobody is called so, or several are.
    Unknown,
    /// The password is another one.
    Refused,
    /// The server's link ended.
    ServerEnd,
    /// The server's stream departs from the protocol.
    Broken,
    /// The server's link failed.
    LinkFault,
    /// The keys failed.
    KeysFault,
    /// The screen failed.
    SinkFault,
    /// Memory ran out.
    Memory,
}

impl From<Memory> for VisitEnd {
    ghost from_gives = { λ _ found. found ≡ end.Memory };

    fn from(_error: Memory) -> VisitEnd {
        VisitEnd::Memory
    }
}

impl From<AllocError> for VisitEnd {
    ghost from_gives = { λ _ found. found ≡ end.Memory };

    fn from(_error: AllocError) -> VisitEnd {
        VisitEnd::Memory
    }
}

impl<T: Drop> From<AllocFailed<T>> for VisitEnd {
    ghost from_gives = { λ _ found. found ≡ end.Memory };

    fn from(_error: AllocFailed<T>) -> VisitEnd {
        VisitEnd::Memory
    }
}

impl From<ReadFault> for VisitEnd {
    fn from(error: ReadFault) -> VisitEnd {
        match error {
            ReadFault::Departs => VisitEnd::Broken,
            ReadFault::Memory => VisitEnd::Memory,
        }
    }
}

impl From<ScreenFault> for VisitEnd {
    fn from(error: ScreenFault) -> VisitEnd {
        match error {
            ScreenFault::Failed => VisitEnd::SinkFault,
            ScreenFault::Memory => VisitEnd::Memory,
        }
    }
}
