//! Messages about sessions, and from one to others.
ghost use Rattle.std.specs.Prelude.{◌≡◌, [], ◌∷◌, ◌++◌, IfOk};
ghost use Rattle.kom_model.specs.Messages as Messages;
ghost use Rattle.kom_model.specs.calls.Guards.{caller};
ghost use Rattle.async_fanout.specs.Delivered.{all_brought};

use crate::deliveries::{Delivery, Tells, deliver};
use access_rights::hears;
use kom_model::Viewer;
use kom_state::{Asked, StoredRows};
use kom_types::{Boxed, Bytes, Memory, Message, SentMessage, async_numbers};
use std::alloc::Global;

/// Message 9, login: to all.
#[derive(Clone, Copy)]
pub(crate) struct Login {
    pub(crate) person: u32,
    pub(crate) session: u32,
}

impl Tells for Login {
    ghost use Rattle.kom_model.specs.Messages.{login};

    ghost sending = { λ one. login one.person one.session };

    fn number(&self) -> u32 {
        async_numbers::LOGIN
    }

    fn told(&self, _alloc: Global, _viewer: &Viewer) -> Result<Option<Message>, Memory> {
        Ok(Some(Message::Login {
            person: self.person,
            session: self.session,
        }))
    }
}

/// Message 13, logout: to all.
#[derive(Clone, Copy)]
pub(crate) struct Logout {
    pub(crate) person: u32,
    pub(crate) session: u32,
}

impl Tells for Logout {
    ghost use Rattle.kom_model.specs.Messages.{logout};

    ghost sending = { λ one. logout one.person one.session };

    fn number(&self) -> u32 {
        async_numbers::LOGOUT
    }

    fn told(&self, _alloc: Global, _viewer: &Viewer) -> Result<Option<Message>, Memory> {
        Ok(Some(Message::Logout {
            person: self.person,
            session: self.session,
        }))
    }
}

/// Message 12, send-message: to who hears what is sent to the conference, or to all.
#[derive(Clone, Copy)]
pub(crate) struct SendMessage<'a> {
    pub(crate) rows: &'a StoredRows,
    pub(crate) recipient: u32,
    pub(crate) sender: u32,
    pub(crate) text: &'a Bytes,
}

impl<'a> Tells for SendMessage<'a> {
    ghost use Rattle.kom_model.specs.Messages.{send_message};

    ghost sending = { λ one. send_message one.rows.now.db one.recipient one.sender one.text.now };

    fn number(&self) -> u32 {
        async_numbers::SEND_MESSAGE
    }

    fn told(&self, alloc: Global, viewer: &Viewer) -> Result<Option<Message>, Memory> {
        if !hears(self.rows, viewer.person, self.recipient) {
            return Ok(None);
        }
        let sent = SentMessage {
            recipient: self.recipient,
            sender: self.sender,
            text: Bytes::copy_of(alloc, self.text.as_slice())?,
        };
        Ok(Some(Message::SendMessage(Boxed::new(alloc, sent)?)))
    }
}

/// Adds what call 53, send-message, sends.
#[tactic(auto, using(crate::proofs::Brought::none, crate::proofs::Brought::one))]
pub(crate) fn send_message(
    asked: &Asked<'_>,
    recipient: u32,
    text: &Bytes,
    sent: &mut Vec<Delivery>,
) -> Result<(), Memory>
    ensures { IfOk result (λ done. sent.new.items ≡ sent.old.items ++ all_brought asked.now
        (Messages.send_message asked.now.db recipient (caller asked.now).person text.now ∷ [])) }
{
    let message = SendMessage {
        rows: asked.rows(),
        recipient,
        sender: asked.caller().person,
        text,
    };
    deliver(asked, &message, sent)
}
