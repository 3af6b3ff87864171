ghost use Rattle.kom_rows.specs.CallRows.{CallRows};
ghost use Rattle.kom_rows.specs.DbRows.{DbRows};
ghost use Rattle.kom_rows.specs.HistoryRows.{HistoryRows};
ghost use Rattle.kom_rows.specs.ItemRows.{ItemRows};
ghost use Rattle.kom_rows.specs.MemberRows.{MemberRows};
ghost use Rattle.kom_rows.specs.MessageRows.{WorkedMessages};
ghost use Rattle.kom_rows.specs.NewItemRows.{NewItemRows};
ghost use Rattle.kom_rows.specs.ReadingRows.{ReadingRows};
ghost use Rattle.kom_rows.specs.ShownRows.{ShownRows};
ghost use Rattle.kom_rows.specs.TextRows.{TextRows};

/// A law alone: the definitions give the states, the refusals and the outputs of small histories
/// that were worked out by hand.
pub fn worked_histories()
    ensures { HistoryRows }
{}

/// A law alone: the definitions of the stored rows, of what changes them and of who may see them
/// give what was worked out by hand.
pub fn worked_rights()
    ensures { DbRows }
{}

/// A law alone: the definitions of the calls over persons and conferences give what was worked out
/// by hand.
pub fn worked_calls()
    ensures { CallRows }
{}

/// A law alone: the definitions of the calls over texts give what was worked out by hand.
pub fn worked_texts()
    ensures { TextRows }
{}

/// A law alone: the definitions of the calls over memberships and over what was read give what was
/// worked out by hand.
pub fn worked_memberships()
    ensures memberships { MemberRows }
    ensures reading { ReadingRows }
{}

/// A law alone: the definitions of what is told of persons, conferences and texts, and of the calls
/// that set or delete them, give what was worked out by hand.
pub fn worked_shown()
    ensures { ShownRows }
{}

/// A law alone: the definitions of what becomes of aux-items, of what is told of them, and of the
/// calls over them, give what was worked out by hand.
pub fn worked_items()
    ensures items { ItemRows }
    ensures new_items { NewItemRows }
{}

/// A law alone: the definitions of who gets which message of a call, and of the calls that only
/// tell or send, give what was worked out by hand.
pub fn worked_messages()
    ensures { WorkedMessages }
{}
