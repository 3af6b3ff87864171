ghost use Rattle.sweep_laws.specs.DueRows.{DueRows};
ghost use Rattle.sweep_laws.specs.Leaving.{DeletionLeaves, OtherLeaves, HistoryLeaves};
ghost use Rattle.sweep_laws.specs.Left.{LeavesRest};
ghost use Rattle.sweep_laws.specs.Swept.{SweptLeaves, SessionTells, SessionLeaves, ReachedNumbered};
ghost use Rattle.sweep_laws.specs.Told.{TellsAll, DueIsTold};
ghost use Rattle.sweep_laws.specs.WithoutRows.{WithoutRows};

/// A law alone: rows without some texts are those in which these are not found, and in which every
/// other text has the same author, body, recipients, marks and aux-items, and the same links to
/// those that are left; it is seen in rows that were worked out by hand.
pub fn deletions_leave_the_rest()
    ensures left { LeavesRest }
    ensures worked { WithoutRows }
{}

/// A law alone: delete-text takes its text out of whole rows and nothing else, the other calls of a
/// sweep take out none; and so along a history of such calls the texts go that its calls delete.
pub fn sweeps_delete_alone()
    ensures deletion { DeletionLeaves }
    ensures other { OtherLeaves }
    ensures history { HistoryLeaves }
{}

/// A law alone: which texts are due by stored rows is what was worked out by hand.
pub fn worked_due_texts()
    ensures { DueRows }
{}

/// A law alone: a strong session that asks over whole rows is told all of each text, conference and
/// person, and by the calls for the next one of each which is there.
pub fn strong_sessions_are_told_all()
    ensures { TellsAll }
{}

/// A law alone: which texts are due by the replies to both walks of a sweep is which are due by the
/// stored rows, where all of these were asked by a strong session and none of them was curbed.
pub fn due_is_told()
    ensures { DueIsTold }
{}

/// A law alone: after a whole sweep by one session of a strong person, in which no reply was too
/// long, exactly the texts are gone that were due by the rows before it; and what such a session is
/// given are the replies of its history. No text of rows that effects lead to has the number 0.
pub fn whole_sweeps_leave_what_is_not_due()
    ensures swept { SweptLeaves }
    ensures tells { SessionTells }
    ensures session { SessionLeaves }
    ensures reached { ReachedNumbered }
{}
