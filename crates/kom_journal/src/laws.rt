// What follows from what an image stands for.
ghost use Rattle.kom_journal.specs.Snapshots.{IsSnapshotOfOne};
ghost use Rattle.kom_journal.specs.Laws.{StandsForOne, StandsUndamaged, IsDamagedOnce};
ghost use Rattle.kom_journal.specs.Laws.{SpellsAgain, FitsShort};

/// A law alone: an image stands for one state of the rows, and then it is not damaged; and one that
/// is damaged is so at one place.
pub fn images_stand_for_one()
    ensures rows { StandsForOne }
    ensures undamaged { StandsUndamaged }
    ensures damaged_once { IsDamagedOnce }
{}

/// A law alone: a body spells the effects that were coded in it, and each effect that fits has
/// lengths that can be coded.
pub fn effects_are_kept()
    ensures again { SpellsAgain }
    ensures short { FitsShort }
{}

/// A law alone: bytes are a snapshot of one state of the rows.
pub fn snapshots_stand_for_one()
    ensures { IsSnapshotOfOne }
{}
