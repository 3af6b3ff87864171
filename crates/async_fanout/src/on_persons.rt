//! Messages about persons.
ghost use Rattle.std.specs.Prelude.{◌≡◌, ◌++◌, IfOk};
ghost use Rattle.kom_model.specs.Db.{person_of};
ghost use Rattle.kom_model.specs.Messages as Messages;
ghost use Rattle.async_fanout.specs.Delivered.{all_brought, of_row};

use crate::deliveries::{Delivery, Tells, deliver};
use kom_model::Viewer;
use kom_state::Asked;
use kom_types::{Memory, Message, async_numbers};
use std::alloc::Global;

/// Message 19, new-user-area: to the person.
#[derive(Clone, Copy)]
pub(crate) struct NewUserArea {
    pub(crate) person: u32,
    pub(crate) old_text: u32,
    pub(crate) new_text: u32,
}

impl Tells for NewUserArea {
    ghost use Rattle.kom_model.specs.Messages.{new_user_area};

    ghost sending = { λ one. new_user_area one.person one.old_text one.new_text };

    fn number(&self) -> u32 {
        async_numbers::NEW_USER_AREA
    }

    fn told(&self, _alloc: Global, viewer: &Viewer) -> Result<Option<Message>, Memory> {
        if viewer.person != self.person {
            return Ok(None);
        }
        Ok(Some(Message::NewUserArea {
            person: self.person,
            old_text: self.old_text,
            new_text: self.new_text,
        }))
    }
}

/// Adds what call 57, set-user-area, sends.
#[tactic(auto, using(crate::proofs::Brought::none, crate::proofs::Brought::one))]
pub(crate) fn set_user_area(
    asked: &Asked<'_>,
    person: u32,
    text: u32,
    sent: &mut Vec<Delivery>,
) -> Result<(), Memory>
    ensures { IfOk result (λ done. sent.new.items ≡ sent.old.items ++ all_brought asked.now
        (of_row (λ row. Messages.new_user_area person row.user_area text)
        (person_of asked.now.db person))) }
{
    match asked.rows().person(person) {
        None => Ok(()),
        Some(row) => {
            let message = NewUserArea {
                person,
                old_text: row.user_area,
                new_text: text,
            };
            deliver(asked, &message, sent)
        }
    }
}
