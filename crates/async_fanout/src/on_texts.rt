//! Messages about texts.
ghost use Rattle.std.specs.Prelude.{◌≡◌, [], ◌∷◌, ◌++◌, IfOk};
ghost use Rattle.kom_model.specs.Db.{recipient_of};
ghost use Rattle.kom_model.specs.Messages as Messages;
ghost use Rattle.kom_model.specs.ToWhom.{of_deleted, of_made};
ghost use Rattle.async_fanout.specs.Added.{made_by};
ghost use Rattle.async_fanout.specs.Delivered.{all_brought, as_list, of_row};

use crate::added::Added;
use crate::deliveries::{Delivery, Tells, deliver};
use access_rights::{gets_text, shown_stat, stat_of, takes};
use kom_model::{TextHead, Viewer};
use kom_state::{Asked, StoredRows};
use kom_types::{Boxed, Effect, Memory, Message, TextRow, async_numbers, lines_of};
use std::alloc::Global;

/// Message 14, deleted-text: to who reads the text and takes the texts of a recipient, with what is
/// told of it to that person.
#[derive(Clone, Copy)]
pub(crate) struct DeletedText<'a> {
    pub(crate) rows: &'a StoredRows,
    pub(crate) text: &'a TextRow,
}

impl<'a> Tells for DeletedText<'a> {
    ghost use Rattle.kom_model.specs.Messages.{deleted_text};

    ghost sending = { λ one. deleted_text one.rows.now.db one.text.now };

    fn number(&self) -> u32 {
        async_numbers::DELETED_TEXT
    }

    fn told(&self, alloc: Global, viewer: &Viewer) -> Result<Option<Message>, Memory> {
        if !gets_text(self.rows, viewer, self.text.number) {
            return Ok(None);
        }
        let stat = shown_stat(alloc, self.rows, viewer, self.text)?;
        Ok(Some(Message::DeletedText {
            text: self.text.number,
            stat: Boxed::new(alloc, stat)?,
        }))
    }
}

/// Message 15, new-text: to who reads the text and takes the texts of a recipient, with what is
/// told of it to that person.
#[derive(Clone, Copy)]
pub(crate) struct NewText<'a> {
    pub(crate) rows: Added<'a>,
    pub(crate) text: TextHead,
}

impl<'a> Tells for NewText<'a> {
    ghost use Rattle.kom_model.specs.Messages.{new_text};
    ghost use Rattle.kom_model.specs.ToWhom.{only_added};

    ghost sending = { λ one.
        new_text (only_added one.rows.effects.now one.rows.rows.now.db) one.text };

    fn number(&self) -> u32 {
        async_numbers::NEW_TEXT
    }

    fn told(&self, alloc: Global, viewer: &Viewer) -> Result<Option<Message>, Memory> {
        if !gets_text(&self.rows, viewer, self.text.number) {
            return Ok(None);
        }
        let stat = stat_of(alloc, &self.rows, viewer, &self.text)?;
        Ok(Some(Message::NewText {
            text: self.text.number,
            stat: Boxed::new(alloc, stat)?,
        }))
    }
}

/// Message 16, new-recipient: to who takes the conference's texts.
#[derive(Clone, Copy)]
pub(crate) struct NewRecipient<'a> {
    pub(crate) rows: &'a StoredRows,
    pub(crate) text: u32,
    pub(crate) conference: u32,
    pub(crate) kind: u32,
}

impl<'a> Tells for NewRecipient<'a> {
    ghost use Rattle.kom_model.specs.Messages.{new_recipient};

    ghost sending = { λ one. new_recipient one.rows.now.db one.text one.conference one.kind };

    fn number(&self) -> u32 {
        async_numbers::NEW_RECIPIENT
    }

    fn told(&self, _alloc: Global, viewer: &Viewer) -> Result<Option<Message>, Memory> {
        if !takes(self.rows, viewer.person, self.conference) {
            return Ok(None);
        }
        Ok(Some(Message::NewRecipient {
            text: self.text,
            conference: self.conference,
            kind: self.kind,
        }))
    }
}

/// Message 17, sub-recipient: to who takes the conference's texts.
#[derive(Clone, Copy)]
pub(crate) struct SubRecipient<'a> {
    pub(crate) rows: &'a StoredRows,
    pub(crate) text: u32,
    pub(crate) conference: u32,
    pub(crate) kind: u32,
}

impl<'a> Tells for SubRecipient<'a> {
    ghost use Rattle.kom_model.specs.Messages.{sub_recipient};

    ghost sending = { λ one. sub_recipient one.rows.now.db one.text one.conference one.kind };

    fn number(&self) -> u32 {
        async_numbers::SUB_RECIPIENT
    }

    fn told(&self, _alloc: Global, viewer: &Viewer) -> Result<Option<Message>, Memory> {
        if !takes(self.rows, viewer.person, self.conference) {
            return Ok(None);
        }
        Ok(Some(Message::SubRecipient {
            text: self.text,
            conference: self.conference,
            kind: self.kind,
        }))
    }
}

/// Adds what call 29, delete-text, sends.
#[tactic(auto, using(crate::proofs::Brought::none, crate::proofs::Brought::one))]
pub(crate) fn delete_text(
    asked: &Asked<'_>,
    text: u32,
    sent: &mut Vec<Delivery>,
) -> Result<(), Memory>
    ensures { IfOk result (λ done. sent.new.items
        ≡ sent.old.items ++ all_brought asked.now (of_deleted asked.now.db text)) }
{
    let rows = asked.rows();
    match rows.text(text) {
        None => Ok(()),
        Some(text) => deliver(asked, &DeletedText { rows, text }, sent),
    }
}

/// Adds what call 30, add-recipient, sends.
#[tactic(auto, using(crate::proofs::Brought::none, crate::proofs::Brought::one))]
pub(crate) fn add_recipient(
    asked: &Asked<'_>,
    text: u32,
    conference: u32,
    kind: u32,
    sent: &mut Vec<Delivery>,
) -> Result<(), Memory>
    ensures { IfOk result (λ done. sent.new.items ≡ sent.old.items ++ all_brought asked.now
        (Messages.new_recipient asked.now.db text conference kind ∷ [])) }
{
    let message = NewRecipient {
        rows: asked.rows(),
        text,
        conference,
        kind,
    };
    deliver(asked, &message, sent)
}

/// Adds what call 31, sub-recipient, sends.
#[tactic(auto, using(crate::proofs::Brought::none, crate::proofs::Brought::one))]
pub(crate) fn sub_recipient(
    asked: &Asked<'_>,
    text: u32,
    conference: u32,
    sent: &mut Vec<Delivery>,
) -> Result<(), Memory>
    ensures { IfOk result (λ done. sent.new.items ≡ sent.old.items ++ all_brought asked.now
        (of_row (λ row. Messages.sub_recipient asked.now.db text conference row.tag)
        (recipient_of asked.now.db text conference))) }
{
    let rows = asked.rows();
    match rows.recipient(text, conference) {
        None => Ok(()),
        Some(row) => {
            let message = SubRecipient {
                rows,
                text,
                conference,
                kind: u32::from(row.tag),
            };
            deliver(asked, &message, sent)
        }
    }
}

/// Adds what is sent for the texts that effects make.
pub(crate) fn make(
    asked: &Asked<'_>,
    effects: &[Effect],
    sent: &mut Vec<Delivery>,
) -> Result<(), Memory>
    ensures { IfOk result (λ done. sent.new.items
        ≡ sent.old.items ++ all_brought asked.now (of_made effects.now asked.now.db)) }
{
    for effect in effects {
        push_made(asked, effects, effect, sent)?;
    }
    Ok(())
}

#[tactic(auto, using(crate::proofs::Brought::none, crate::proofs::Brought::one))]
fn push_made(
    asked: &Asked<'_>,
    effects: &[Effect],
    effect: &Effect,
    sent: &mut Vec<Delivery>,
) -> Result<(), Memory>
    ensures { IfOk result (λ done. sent.new.items ≡ sent.old.items
        ++ all_brought asked.now (as_list (made_by effects.now asked.now.db effect.now))) }
{
    match effect {
        Effect::TextAdded {
            number,
            author,
            at,
            body,
        } => {
            let message = NewText {
                rows: Added {
                    rows: asked.rows(),
                    effects,
                },
                text: TextHead {
                    number: *number,
                    author: *author,
                    created: *at,
                    lines: lines_of(body.as_slice()),
                    chars: body.len(),
                },
            };
            deliver(asked, &message, sent)
        }
        _ => Ok(()),
    }
}
