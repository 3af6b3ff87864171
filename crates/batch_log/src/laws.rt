// What follows from what a file of batches is.
ghost use Rattle.batch_log.specs.Laws.{BodiesAreUnique, HasNoBreak, BreaksOnce, EndsOrBreaks};
ghost use Rattle.batch_log.specs.Laws.{WalksOverAll};
ghost use Rattle.batch_log.specs.Laws.{FlushKeeps, FlushReads, RepairKeeps};

/// A file has one list of batches, or breaks off at one place.
pub fn batches_are_whole()
    ensures unique { BodiesAreUnique }
    ensures no_break { HasNoBreak }
    ensures breaks_once { BreaksOnce }
    ensures ends_or_breaks { EndsOrBreaks }
    ensures walked { WalksOverAll }
{}

/// What a stop leaves of a flush or of a repair, and what a flush leaves, has the batches from
/// before it.
pub fn batches_are_kept()
    ensures flush { FlushKeeps }
    ensures flushed { FlushReads }
    ensures repair { RepairKeeps }
{}
