//! Messages about memberships.
ghost use Rattle.std.specs.Prelude.{◌≡◌, [], ◌∷◌, ◌++◌, is_some, if◌then◌else◌, IfOk};
ghost use Rattle.std.specs.List.{filter_map};
ghost use Rattle.kom_model.specs.Db.{membership_of};
ghost use Rattle.kom_model.specs.Messages as Messages;
ghost use Rattle.kom_model.specs.ToWhom.{left_conference};
ghost use Rattle.async_fanout.specs.Delivered.{all_brought, as_list};

use crate::deliveries::{Delivery, Tells, deliver};
use kom_model::Viewer;
use kom_state::Asked;
use kom_types::{Effect, Memory, Message, async_numbers};
use std::alloc::Global;

/// Message 8, leave-conf: to the person who left.
#[derive(Clone, Copy)]
pub(crate) struct LeaveConference {
    pub(crate) person: u32,
    pub(crate) conference: u32,
}

impl Tells for LeaveConference {
    ghost use Rattle.kom_model.specs.Messages.{leave_conference};

    ghost sending = { λ one. leave_conference one.person one.conference };

    fn number(&self) -> u32 {
        async_numbers::LEAVE_CONF
    }

    fn told(&self, _alloc: Global, viewer: &Viewer) -> Result<Option<Message>, Memory> {
        if viewer.person != self.person {
            return Ok(None);
        }
        Ok(Some(Message::LeaveConference {
            conference: self.conference,
        }))
    }
}

/// Message 18, new-membership: to the person.
#[derive(Clone, Copy)]
pub(crate) struct NewMembership {
    pub(crate) person: u32,
    pub(crate) conference: u32,
}

impl Tells for NewMembership {
    ghost use Rattle.kom_model.specs.Messages.{new_membership};

    ghost sending = { λ one. new_membership one.person one.conference };

    fn number(&self) -> u32 {
        async_numbers::NEW_MEMBERSHIP
    }

    fn told(&self, _alloc: Global, viewer: &Viewer) -> Result<Option<Message>, Memory> {
        if viewer.person != self.person {
            return Ok(None);
        }
        Ok(Some(Message::NewMembership {
            person: self.person,
            conference: self.conference,
        }))
    }
}

/// Adds what is sent for the memberships that go by effects.
pub(crate) fn leave(
    asked: &Asked<'_>,
    effects: &[Effect],
    sent: &mut Vec<Delivery>,
) -> Result<(), Memory>
    ensures { IfOk result (λ done. sent.new.items
        ≡ sent.old.items ++ all_brought asked.now (filter_map left_conference effects.now)) }
{
    for effect in effects {
        push_left(asked, effect, sent)?;
    }
    Ok(())
}

#[tactic(auto, using(crate::proofs::Brought::none, crate::proofs::Brought::one))]
fn push_left(asked: &Asked<'_>, effect: &Effect, sent: &mut Vec<Delivery>) -> Result<(), Memory>
    ensures { IfOk result (λ done. sent.new.items
        ≡ sent.old.items ++ all_brought asked.now (as_list (left_conference effect.now))) }
{
    match effect {
        Effect::MemberGone { person, conference } => {
            let message = LeaveConference {
                person: *person,
                conference: *conference,
            };
            deliver(asked, &message, sent)
        }
        _ => Ok(()),
    }
}

/// Adds what call 100, add-member, sends.
#[tactic(auto, using(crate::proofs::Brought::none, crate::proofs::Brought::one))]
pub(crate) fn add_member(
    asked: &Asked<'_>,
    conference: u32,
    person: u32,
    sent: &mut Vec<Delivery>,
) -> Result<(), Memory>
    ensures { IfOk result (λ done. sent.new.items ≡ sent.old.items ++ all_brought asked.now
        (if is_some (membership_of asked.now.db person conference) then []
        else Messages.new_membership person conference ∷ [])) }
{
    if asked.rows().is_member(person, conference) {
        return Ok(());
    }
    let message = NewMembership { person, conference };
    deliver(asked, &message, sent)
}
