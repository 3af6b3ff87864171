ghost use Rattle.kom_snapshot.specs.Laws.{StandListed, SnapshotStands, MadeStands, StandRaised};
ghost use Rattle.kom_snapshot.specs.SnapRows.{SnapRows};

/// A law alone: the definitions of a snapshot give what was worked out by hand.
pub fn worked_snapshots()
    ensures { SnapRows }
{}

/// A law alone: effects that fit leave whole rows as a snapshot needs them, from no row on.
pub fn effects_leave_listed()
    ensures { StandListed }
{}

/// A law alone: the snapshot of stored rows stands for them; so it does for all rows that effects
/// make.
pub fn snapshots_stand()
    ensures stands { SnapshotStands }
    ensures made { MadeStands }
{}

/// A law alone: a counter that may be raised leaves rows as a snapshot gives them again, and so are
/// the rows that any snapshot stands for.
pub fn raises_leave_restorable()
    ensures { StandRaised }
{}
