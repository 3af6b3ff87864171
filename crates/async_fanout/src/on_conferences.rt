//! Messages about conferences.
ghost use Rattle.std.specs.Prelude.{◌≡◌, ◌++◌, IfOk};
ghost use Rattle.kom_model.specs.Db.{conference_of};
ghost use Rattle.kom_model.specs.Messages as Messages;
ghost use Rattle.async_fanout.specs.Delivered.{all_brought, of_row};

use crate::deliveries::{Delivery, Tells, deliver};
use access_rights::sees;
use kom_model::Viewer;
use kom_state::{Asked, StoredRows};
use kom_types::{Boxed, Bytes, Memory, Message, NewName as Names, async_numbers};
use std::alloc::Global;

/// Message 5, new-name: to who sees the conference.
#[derive(Clone, Copy)]
pub(crate) struct NewName<'a> {
    pub(crate) rows: &'a StoredRows,
    pub(crate) conference: u32,
    pub(crate) old_name: &'a Bytes,
    pub(crate) name: &'a Bytes,
}

impl<'a> Tells for NewName<'a> {
    ghost use Rattle.kom_model.specs.Messages.{new_name};

    ghost sending = { λ one.
        new_name one.rows.now.db one.conference one.old_name.now one.name.now };

    fn number(&self) -> u32 {
        async_numbers::NEW_NAME
    }

    fn told(&self, alloc: Global, viewer: &Viewer) -> Result<Option<Message>, Memory> {
        if !sees(self.rows, viewer, self.conference) {
            return Ok(None);
        }
        let names = Names {
            conference: self.conference,
            old_name: Bytes::copy_of(alloc, self.old_name.as_slice())?,
            new_name: Bytes::copy_of(alloc, self.name.as_slice())?,
        };
        Ok(Some(Message::NewName(Boxed::new(alloc, names)?)))
    }
}

/// Message 20, new-presentation: to who sees the conference.
#[derive(Clone, Copy)]
pub(crate) struct NewPresentation<'a> {
    pub(crate) rows: &'a StoredRows,
    pub(crate) conference: u32,
    pub(crate) old_text: u32,
    pub(crate) new_text: u32,
}

impl<'a> Tells for NewPresentation<'a> {
    ghost use Rattle.kom_model.specs.Messages.{new_presentation};

    ghost sending = { λ one.
        new_presentation one.rows.now.db one.conference one.old_text one.new_text };

    fn number(&self) -> u32 {
        async_numbers::NEW_PRESENTATION
    }

    fn told(&self, _alloc: Global, viewer: &Viewer) -> Result<Option<Message>, Memory> {
        if !sees(self.rows, viewer, self.conference) {
            return Ok(None);
        }
        Ok(Some(Message::NewPresentation {
            conference: self.conference,
            old_text: self.old_text,
            new_text: self.new_text,
        }))
    }
}

/// Message 21, new-motd: to who sees the conference.
#[derive(Clone, Copy)]
pub(crate) struct NewMotd<'a> {
    pub(crate) rows: &'a StoredRows,
    pub(crate) conference: u32,
    pub(crate) old_text: u32,
    pub(crate) new_text: u32,
}

impl<'a> Tells for NewMotd<'a> {
    ghost use Rattle.kom_model.specs.Messages.{new_motd};

    ghost sending = { λ one. new_motd one.rows.now.db one.conference one.old_text one.new_text };

    fn number(&self) -> u32 {
        async_numbers::NEW_MOTD
    }

    fn told(&self, _alloc: Global, viewer: &Viewer) -> Result<Option<Message>, Memory> {
        if !sees(self.rows, viewer, self.conference) {
            return Ok(None);
        }
        Ok(Some(Message::NewMotd {
            conference: self.conference,
            old_text: self.old_text,
            new_text: self.new_text,
        }))
    }
}

/// Adds what call 3, change-name, sends.
#[tactic(auto, using(crate::proofs::Brought::none, crate::proofs::Brought::one))]
pub(crate) fn change_name(
    asked: &Asked<'_>,
    conference: u32,
    name: &Bytes,
    sent: &mut Vec<Delivery>,
) -> Result<(), Memory>
    ensures { IfOk result (λ done. sent.new.items ≡ sent.old.items ++ all_brought asked.now
        (of_row (λ row. Messages.new_name asked.now.db conference row.name name.now)
        (conference_of asked.now.db conference))) }
{
    let rows = asked.rows();
    match rows.conference(conference) {
        None => Ok(()),
        Some(row) => {
            let message = NewName {
                rows,
                conference,
                old_name: &row.name,
                name,
            };
            deliver(asked, &message, sent)
        }
    }
}

/// Adds what call 16, set-presentation, sends.
#[tactic(auto, using(crate::proofs::Brought::none, crate::proofs::Brought::one))]
pub(crate) fn set_presentation(
    asked: &Asked<'_>,
    conference: u32,
    text: u32,
    sent: &mut Vec<Delivery>,
) -> Result<(), Memory>
    ensures { IfOk result (λ done. sent.new.items ≡ sent.old.items ++ all_brought asked.now
        (of_row (λ row. Messages.new_presentation asked.now.db conference row.presentation text)
        (conference_of asked.now.db conference))) }
{
    let rows = asked.rows();
    match rows.conference(conference) {
        None => Ok(()),
        Some(row) => {
            let message = NewPresentation {
                rows,
                conference,
                old_text: row.presentation,
                new_text: text,
            };
            deliver(asked, &message, sent)
        }
    }
}

/// Adds what call 17, set-etc-motd, sends.
#[tactic(auto, using(crate::proofs::Brought::none, crate::proofs::Brought::one))]
pub(crate) fn set_etc_motd(
    asked: &Asked<'_>,
    conference: u32,
    text: u32,
    sent: &mut Vec<Delivery>,
) -> Result<(), Memory>
    ensures { IfOk result (λ done. sent.new.items ≡ sent.old.items ++ all_brought asked.now
        (of_row (λ row. Messages.new_motd asked.now.db conference row.motd text)
        (conference_of asked.now.db conference))) }
{
    let rows = asked.rows();
    match rows.conference(conference) {
        None => Ok(()),
        Some(row) => {
            let message = NewMotd {
                rows,
                conference,
                old_text: row.motd,
                new_text: text,
            };
            deliver(asked, &message, sent)
        }
    }
}
