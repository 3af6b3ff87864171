//! A keeper that counts what it gets.
ghost use Rattle.kom_model.specs.Legal.{HasUser};

use crate::tried::{Tried, entry_of};
use kom_state::Keeper;
use kom_types::{Act, Effect, Memory};

/// Counts the effects that it gets, or has no room.
#[derive(Clone, Copy)]
pub(crate) struct Counter {
    pub(crate) kept: u32,
    pub(crate) is_full: bool,
}

impl Keeper for Counter {
    ghost use Rattle.std.specs.Prelude.{None};

    ghost pending = { λ counter. None };

    ghost has_room = { λ counter effects. Unit {0} };

    ghost stays = { λ old new. Unit {0} };

    fn reserve(&mut self, _effects: &[Effect]) -> Result<(), Memory> {
        if self.is_full { Err(Memory) } else { Ok(()) }
    }

    fn keep(&mut self, _effect: &Effect) {
        self.kept = self.kept.saturating_add(1);
    }

    ghost leaves_room = { λ counter effect more room. tt };

    ghost itself_stays = { λ counter. tt };

    ghost stays_on = { λ first second third one other. tt };
}

impl Tried {
    /// Makes an act whose effects a keeper gets. Returns whether its record is short, if it has
    /// one.
    pub(crate) fn make_kept(
        &mut self,
        act: Act,
        keeper: &mut Counter,
    ) -> Result<Option<bool>, Memory>
        requires { HasUser act }
    {
        self.count()?;
        drop(self.core.act_kept(entry_of(act), keeper)?);
        match self.core.last() {
            Some(record) => Ok(Some(record.short)),
            None => Ok(None),
        }
    }
}
