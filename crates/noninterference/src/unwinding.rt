ghost use Rattle.noninterference.specs.outputs.Answers.{AnswersStandErased};
ghost use Rattle.noninterference.specs.outputs.Brought.{MessagesStandErased};
ghost use Rattle.noninterference.specs.outputs.Leaks.{LeaksAreRefused};
ghost use Rattle.noninterference.specs.outputs.Same.{RowsStandMasked};
ghost use Rattle.noninterference.specs.steps.Acts.{ActsStandErased};
ghost use Rattle.noninterference.specs.steps.Calls.{CallsStandErased};
ghost use Rattle.noninterference.specs.steps.Steps.{EffectsStandErased};
ghost use Rattle.noninterference.specs.respect.Calls.{HiddenCallsVanish};
ghost use Rattle.noninterference.specs.respect.Entries.{HiddenEntriesVanish, HiddenTextsVanish};
ghost use Rattle.noninterference.specs.respect.Vanishing.{HiddenVanish};

/// A law alone: what definitions read of the stored rows, each by its name, is the same without
/// what a mask hides, where the mask does not hide it.
pub fn rows_stand_masked()
    ensures { RowsStandMasked }
{}

/// A law alone: what a call of a group comes to is the same in the state from which all that is
/// hidden from the group is erased.
pub fn answers_stand_erased()
    ensures { AnswersStandErased }
{}

/// A law alone: what the messages of a call bring to a session of a group is the same there.
pub fn messages_stand_erased()
    ensures { MessagesStandErased }
{}

/// A law alone: definitions that would leak are refused: one that looks into a text before it is
/// known to be read, one that lists what is not seen, and others by a count, a length, an order.
pub fn leaks_are_refused()
    ensures { LeaksAreRefused }
{}

/// A law alone: effects that are no Opening to a group make the same of two states that are the
/// same but for what is hidden from the group.
pub fn effects_stand_erased()
    ensures { EffectsStandErased }
{}

/// A law alone: in states that are the same for a group, a call of the group comes to the same and
/// leaves states that are the same but for what is hidden from it.
pub fn calls_stand_erased()
    ensures { CallsStandErased }
{}

/// A law alone: in such states the same acts of a group's sessions are refused, its drains give the
/// same, and any act that is no call leaves such states.
pub fn acts_stand_erased()
    ensures { ActsStandErased }
{}

/// A law alone: effects of what is hidden from a group leave the stored rows the same but for that.
pub fn hidden_effects_vanish()
    ensures { HiddenVanish }
{}

/// A law alone: a call of what is hidden from a group leaves the state the same for the group.
pub fn hidden_calls_vanish()
    ensures { HiddenCallsVanish }
{}

/// A law alone: a quiet entry that is hidden from a group, and makes no text, leaves the state the
/// same for the group and sends it nothing.
pub fn hidden_entries_vanish()
    ensures { HiddenEntriesVanish }
{}

/// A law alone: two create-texts that are hidden from a group, and alike as far as it sees them,
/// leave states that are the same for the group and send it nothing.
pub fn hidden_texts_vanish()
    ensures { HiddenTextsVanish }
{}
