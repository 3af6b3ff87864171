ghost use Rattle.std.specs.Prelude.{◌≡◌};
ghost use Rattle.kom_session.specs.Ends.{end_at, ending_with};

use kom_links::SessionEnd;
use kom_types::{NotMade, Why};

/// The end of a service that was to end so: a fault of the link goes before all, and the desk's
/// first fault before all but out of memory.
pub(crate) fn end_of(risen: bool, planned: SessionEnd, cause: Option<NotMade>) -> SessionEnd
    ensures { result ≡ ending_with risen planned cause }
{
    if risen {
        return SessionEnd::LinkFault;
    }
    match cause {
        None => planned,
        Some(fault) => match planned {
            SessionEnd::Memory => SessionEnd::Memory,
            _ => end_at(fault),
        },
    }
}

/// The end of a service in which the desk answered this fault first.
fn end_at(fault: NotMade) -> SessionEnd
    ensures { result ≡ end_at fault }
{
    match fault {
        NotMade::Gone(Why::Dropped) => SessionEnd::Dropped,
        NotMade::Gone(Why::Overrun) => SessionEnd::Overrun,
        NotMade::Gone(Why::Stopped) => SessionEnd::Stopped,
        NotMade::Gone(Why::Absent) => SessionEnd::Memory,
        NotMade::Full(number) => SessionEnd::Full(number),
        NotMade::Memory => SessionEnd::Memory,
    }
}
