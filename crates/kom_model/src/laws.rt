ghost use Rattle.kom_model.specs.Laws.{GivesPrefixes, GivesStable, GivesAllBefore};
ghost use Rattle.kom_model.specs.Laws.{GivesAllToDropped, StaysSound, FitsWithin};
ghost use Rattle.kom_model.specs.Laws.{KeptFits, KeptMakes, FittingIsAll};
ghost use Rattle.kom_model.specs.Raising.{RaisesLeaveWhole};
ghost use Rattle.kom_model.specs.Whole.{StandWhole};

/// A law alone: what drains give is a prefix of what the session is to be sent, of stable entries,
/// and in the end all of it.
pub fn drains_give_all()
    ensures prefixes { GivesPrefixes }
    ensures stable { GivesStable }
    ensures all_before { GivesAllBefore }
    ensures all_to_dropped { GivesAllToDropped }
    ensures sound { StaysSound }
    ensures fits { FitsWithin }
{}

/// A law alone: what a store keeps of a record, as far as the rows go, is the record.
pub fn kept_effects_are_made()
    ensures fits { KeptFits }
    ensures makes { KeptMakes }
    ensures all { FittingIsAll }
{}

/// A law alone: a counter that may be raised leaves whole rows whole.
pub fn raises_leave_whole()
    ensures { RaisesLeaveWhole }
{}

/// A law alone: effects leave whole rows whole, from no row on.
pub fn effects_leave_whole()
    ensures { StandWhole }
{}
