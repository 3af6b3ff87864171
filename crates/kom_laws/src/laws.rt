ghost use Rattle.kom_laws.specs.Fitting.{DecidedFit, SoundFit, KeptIsDecided};
ghost use Rattle.kom_laws.specs.Laws.{StandErased};
ghost use Rattle.kom_laws.specs.Refusing.{RefusedChangesNothing, RefusedKeepsRows};
ghost use Rattle.kom_laws.specs.masking.Laws.{StandMasked};

/// A law alone: effects make the same of the stored rows but for what a mask hides, whether that
/// was hidden before or not.
pub fn effects_stand_masked()
    ensures { StandMasked }
{}

/// A law alone: what a group may see and do, and what is shown to it, is the same in the state from
/// which all that is hidden from the group is erased.
pub fn rights_stand_erased()
    ensures { StandErased }
{}

/// A law alone: what a call comes to fits in whole rows, and so in every sound state; what is kept
/// of a record is what its call decides.
pub fn decided_effects_fit()
    ensures decided { DecidedFit }
    ensures sound { SoundFit }
    ensures kept { KeptIsDecided }
{}

/// A law alone: a refused call changes nothing; but accept-async, refused for a number of no
/// message, has its session accept the messages of the others.
pub fn refused_calls_change_nothing()
    ensures decided { RefusedChangesNothing }
    ensures rows { RefusedKeepsRows }
{}
