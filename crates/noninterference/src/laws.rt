ghost use Rattle.noninterference.specs.Hiding.{AllHide, OwnStepsHide, StepsHide};
ghost use Rattle.noninterference.specs.Mail.{MailRows};
ghost use Rattle.noninterference.specs.Worlds.{WorldRows};

/// A law alone: two quiet records whose entries may stand at one place in two worlds are the same
/// step to a group, from sound states that are the same for it.
pub fn steps_hide()
    ensures { StepsHide }
{}

/// A law alone: an act of a session of a group, or of none, that is quiet in one of two such states
/// is quiet in the other, if it may follow there and is not short, and the same step to the group.
pub fn own_steps_hide()
    ensures { OwnStepsHide }
{}

/// A law alone: every history from a sound state is the same to a group as any that is alike and
/// quiet beside it: the states after them are the same for the group, each of its sessions is sent
/// the same, and each of its drains gives the same.
pub fn histories_hide()
    ensures { AllHide }
{}

/// A law alone: the definitions of hidden entries, of lists that are alike and of an Opening give
/// what was worked out by hand.
pub fn worked_worlds()
    ensures { WorldRows }
{}

/// A law alone: two worlds that were worked out by hand, in which one person writes another this or
/// that, are quiet to a third person until the text is sent on to it, and it is sent the same.
pub fn worked_mail()
    ensures { MailRows }
{}
