ghost use Rattle.kom_sweep.specs.DueRows.{DueRows};

/// A law alone: which texts are due is what was worked out by hand.
pub fn worked_texts()
    ensures { DueRows }
{}
