ghost use Rattle.kom_load.specs.LoadRows.{LoadRows};

/// A law alone: the definitions of a run give what was worked out by hand.
pub fn worked_runs()
    ensures { LoadRows }
{}
