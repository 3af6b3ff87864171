ghost use Rattle.effect_codec.specs.Laws.{ReadsAgain, BeginsNoOther, StaysShort, IsSpelled, GoesOn};
ghost use Rattle.effect_codec.specs.Laws.{StaysWrong};
ghost use Rattle.effect_codec.specs.Parts.{RaisedStand};

/// A law alone: what is written is read again, whatever follows it; so no effect's bytes begin
/// another's.
pub fn effects_are_read_again()
    ensures again { ReadsAgain }
    ensures no_other { BeginsNoOther }
{}

/// A law alone: an effect is read where its bytes are there, and nowhere else; too few bytes are
/// those that lack some of an effect's; and what is wrong begins with no effect's, whatever
/// follows.
pub fn readings_stay()
    ensures stays_short { StaysShort }
    ensures is_spelled { IsSpelled }
    ensures goes_on { GoesOn }
    ensures stays_wrong { StaysWrong }
{}

/// A law alone: the bytes of a raised counter are read as it, and nothing else is; and no effect's
/// bytes begin those of one.
pub fn raised_counters_stand()
    ensures { RaisedStand }
{}
