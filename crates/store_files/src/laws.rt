// What follows for the pair of both files.
ghost use Rattle.store_files.specs.HeadRows.{HeadRows, ChoiceRows};
ghost use Rattle.store_files.specs.Laws.{ChoiceStands, BatchesAreChosen, SnapshotsKeep, NextStands};

/// A law alone: the definitions give the heads and the choices that were worked out by hand.
pub fn worked_heads()
    ensures heads { HeadRows }
    ensures choices { ChoiceRows }
{}

/// A law alone: what is chosen stays so beside whatever may stand there, with batches after it, and
/// while a snapshot is written into the other file; then that one is chosen, and what was before
/// may be cut.
pub fn pairs_stand()
    ensures stands { ChoiceStands }
    ensures batches { BatchesAreChosen }
    ensures snapshots { SnapshotsKeep }
    ensures next { NextStands }
{}
