ghost use Rattle.kom_client.specs.Rows.{ClientRows};

/// A law alone: the definition of a talk gives what was worked out by hand.
pub fn worked_talks()
    ensures { ClientRows }
{}
