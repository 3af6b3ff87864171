//! Messages about the server.
ghost use Rattle.std.specs.Prelude.{◌≡◌, [], ◌∷◌, ◌++◌, IfOk};
ghost use Rattle.kom_model.specs.Messages as Messages;
ghost use Rattle.async_fanout.specs.Delivered.{all_brought};

use crate::deliveries::{Delivery, Tells, deliver};
use kom_model::Viewer;
use kom_state::Asked;
use kom_types::{Memory, Message, async_numbers};
use std::alloc::Global;

/// Message 7, sync-db: to all.
#[derive(Clone, Copy)]
pub(crate) struct SyncDatabase;

impl Tells for SyncDatabase {
    ghost use Rattle.kom_model.specs.Messages.{sync_database};

    ghost sending = { λ one. sync_database };

    fn number(&self) -> u32 {
        async_numbers::SYNC_DB
    }

    fn told(&self, _alloc: Global, _viewer: &Viewer) -> Result<Option<Message>, Memory> {
        Ok(Some(Message::SyncDatabase))
    }
}

/// Adds what call 43, sync-kom, sends.
#[tactic(auto, using(crate::proofs::Brought::none, crate::proofs::Brought::one))]
pub(crate) fn sync_kom(asked: &Asked<'_>, sent: &mut Vec<Delivery>) -> Result<(), Memory>
    ensures { IfOk result (λ done. sent.new.items
        ≡ sent.old.items ++ all_brought asked.now (Messages.sync_database ∷ [])) }
{
    deliver(asked, &SyncDatabase, sent)
}
