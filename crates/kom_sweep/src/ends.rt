use kom_types::{Memory, NotMade, Why};

/// What a sweep came to.
#[derive(Clone, Copy, Debug, PartialEq, Eq)]
pub enum SweepEnd {
    /// All texts were walked over, and those that were due deleted.
    Done {
        /// How many deletions were not refused.
        swept: u64,
        /// How many other texts there were.
        kept: u64,
    },
    /// The person was not logged in, or may not have all stable: the error's code and status.
    Refused(u32, u32),
    /// The session is served no longer, or the server is not.
    Gone(Why),
    /// This many were made already: sessions, or turns of the server's lock.
    Full(u64),
    /// Memory ran out, here or for a call.
    Memory,
}

/// Why a sweep is broken off.
#[derive(Clone, Copy, Debug)]
pub(crate) enum Cut {
    /// The desk did not make an act.
    Desk(NotMade),
    /// Memory ran out, here or for a call.
    Memory,
}

impl From<Memory> for Cut {
    ghost use Rattle.std.specs.Prelude.{◌≡◌};
    ghost use Rattle.kom_sweep.specs.declared.ends.Cut.TheVariants as cut;

    ghost from_gives = { λ _ why. why ≡ cut.Memory };

    fn from(_error: Memory) -> Cut {
        Cut::Memory
    }
}

impl SweepEnd {
    ghost use Rattle.std.specs.Prelude.{◌≡◌};
    ghost use Rattle.kom_sweep.specs.Ends.{end_at, end_with};

    /// What a sweep comes to for which the desk did not make an act.
    pub(crate) fn at(fault: NotMade) -> SweepEnd
        ensures { result ≡ end_at fault }
    {
        match fault {
            NotMade::Gone(why) => SweepEnd::Gone(why),
            NotMade::Full(number) => SweepEnd::Full(number),
            NotMade::Memory => SweepEnd::Memory,
        }
    }

    /// The same, if it came so far without a fault; else what it came to before.
    pub(crate) fn then(outcome: Result<SweepEnd, Cut>, closed: Result<(), NotMade>) -> SweepEnd
        ensures { result ≡ end_with outcome closed }
    {
        match outcome {
            Err(Cut::Desk(fault)) => SweepEnd::at(fault),
            Err(Cut::Memory) => SweepEnd::Memory.unless(closed),
            Ok(end) => end.unless(closed),
        }
    }

    /// The same, unless its session was not closed.
    fn unless(self, closed: Result<(), NotMade>) -> SweepEnd
        ensures { result ≡ end_with (Ok self) closed }
    {
        match closed {
            Ok(()) => self,
            Err(fault) => SweepEnd::at(fault),
        }
    }
}
