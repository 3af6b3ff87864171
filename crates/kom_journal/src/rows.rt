// The rows that a store's effects make, and the counters of a snapshot.
ghost use Rattle.std.specs.Prelude.{◌≡◌, true, ◌∷◌, [], OnOk};
ghost use Rattle.kom_state.specs.Room.{HasRoom};
ghost use Rattle.kom_model.specs.Db.{empty_db};
ghost use Rattle.kom_model.specs.Effects.{fits, after_effect, IsProtected};
ghost use Rattle.kom_model.specs.Raising.{may_raise, raised_in};
ghost use Rattle.kom_model.specs.Whole.{IsWhole};
ghost use Rattle.kom_snapshot.specs.Listed.{IsListed};

use kom_state::StoredRows;
use kom_types::{Effect, Memory, Raised};
use std::alloc::Global;
use std::marker::Model;
use std::slice;

/// Rows that effects and raised counters made, from no row on: so they are whole, and as a snapshot
/// needs them, whatever the disk gave.
#[derive(Drop)]
pub(crate) struct MadeRows {
    rows: StoredRows,
}

impl Model for MadeRows {
    ghost use Rattle.kom_snapshot.specs.Laws.{IsRestorable};
    ghost use Rattle.kom_state.specs.Room.{Stored};

    ghost Value = { Stored };

    ghost view = { λ made. made.rows };

    ghost invariant = { λ made. IsRestorable made.rows.db };
}

impl MadeRows {
    /// No rows. It takes no memory.
    pub(crate) fn empty(alloc: Global) -> MadeRows
        ensures { result.db ≡ empty_db }
    {
        MadeRows {
            rows: StoredRows::empty(alloc),
        }
    }

    pub(crate) fn fits(&self, effect: &Effect) -> bool
        ensures { result ≡ fits effect.now self.now.db }
    {
        self.rows.fits(effect)
    }

    /// Takes the room that an effect needs.
    pub(crate) fn reserve_one(&mut self, effect: &Effect) -> Result<(), Memory>
        ensures db { self.new.db ≡ self.old.db }
        ensures ok { OnOk result (HasRoom self.new.room (effect.now ∷ [])) }
    {
        self.rows.reserve(slice::from_ref(effect))
    }

    /// Makes an effect that fits, for which there is room. It takes no memory.
    pub(crate) fn apply_effect(&mut self, effect: Effect)
        requires fits { fits effect self.old.db ≡ true }
        requires room { HasRoom self.old.room (effect ∷ []) }
        ensures { self.new.db ≡ after_effect effect self.old.db }
    {
        self.rows.apply_effect(effect);
    }

    pub(crate) fn may_raise(&self, given: Raised) -> bool
        ensures { result ≡ may_raise given self.now.db }
    {
        self.rows.may_raise(given)
    }

    /// Raises a counter that may be raised so. It takes no memory.
    pub(crate) fn raise(&mut self, given: Raised)
        requires { may_raise given self.old.db ≡ true }
        ensures { self.new.db ≡ raised_in given self.old.db }
    {
        self.rows.raise(given);
    }

    pub(crate) fn into_stored(self) -> StoredRows
        ensures same { result ≡ self }
        ensures protected { IsProtected result.db }
        ensures whole { IsWhole result.db }
        ensures listed { IsListed result.db }
    {
        self.rows
    }
}
