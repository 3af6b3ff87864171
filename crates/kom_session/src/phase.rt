ghost use Rattle.std.specs.Prelude.{◌≡◌};
ghost use Rattle.kom_session.specs.Known.{HasRoom, with_line, with_flush, after_fault};

use kom_links::SessionEnd;

/// How far a session is settled: flushed, and then drained until nothing is given.
#[derive(Clone, Copy, Debug, PartialEq, Eq)]
pub enum Phase {
    /// It is settled.
    Calm,
    /// It is to be flushed, and so many lines were called since it last was settled.
    Due(u8),
    /// It is to be flushed, and no line is called any more.
    Owing,
    /// It was flushed, and is drained until nothing is given.
    Draining,
    /// The desk is asked only to close it.
    Denied,
}

/// How far a stream is served.
#[derive(Clone, Copy, Debug, PartialEq, Eq)]
pub enum Stage {
    /// It is read, and its lines are called.
    Serving,
    /// What waits is sent, and then the service so ends.
    Last(SessionEnd),
    /// The session is to be closed, if there is one, and the service so ends.
    Over(SessionEnd),
}

/// The phase after one more line was called.
pub(crate) fn with_line(phase: Phase) -> Phase
    requires { HasRoom phase }
    ensures { result ≡ with_line phase }
{
    match phase {
        Phase::Calm => Phase::Due(1),
        Phase::Due(lines) => Phase::Due(lines + 1),
        Phase::Owing | Phase::Draining | Phase::Denied => unreachable!(),
    }
}

/// The phase after a flush was made.
pub(crate) fn with_flush(phase: Phase) -> Phase
    ensures { result ≡ with_flush phase }
{
    match phase {
        Phase::Calm | Phase::Due(_) | Phase::Owing | Phase::Draining => Phase::Draining,
        Phase::Denied => Phase::Denied,
    }
}

/// The stage after the desk answered a session a fault: what waits is sent.
pub(crate) fn after_fault(stage: Stage) -> Stage
    ensures { result ≡ after_fault stage }
{
    match stage {
        Stage::Serving => Stage::Last(SessionEnd::End),
        Stage::Last(_) | Stage::Over(_) => stage,
    }
}
