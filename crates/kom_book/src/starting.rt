// The rows of a new server, and the store that is made for them.
ghost use Rattle.std.specs.Prelude.{◌≡◌, ◌≢◌, ◌∷◌, [], ℕ, false, Err, None, IsTrue, IfOk, IfErr};
ghost use Rattle.std.specs.Prelude.{OnOk};
ghost use Rattle.kom_disk.specs.Faults.{Rose};
ghost use Rattle.kom_model.specs.Db.{empty_db};
ghost use Rattle.kom_model.specs.Effects.{apply, apply_all, fitting_effects};
ghost use Rattle.kom_model.specs.Initial.{initial, initial_effects as effects_at_first};
ghost use Rattle.kom_model.specs.State.{IsSound, opening_state};
ghost use Rattle.kom_state.specs.Keepers.{append_pending};
ghost use Rattle.kom_journal.specs.Images.{AreFor, IsKept, images};
ghost use Rattle.kom_journal.specs.Opening.{IsMakeFault};

use batch_log::FlushFault;
use kom_core::Core;
use kom_disk::Disk;
use kom_journal::{Journal, OpenFault};
use kom_state::{Keeper, StoredRows, initial_effects};
use kom_types::{Effect, EffectList, Memory, Moment};
use std::alloc::Global;
use std::slice;

/// A core before its first act, of a new server whose administrator has this password, and its rows
/// in the store, as one batch.
pub(crate) fn store_initial<D: Disk>(
    alloc: Global,
    store: &mut Journal<D>,
    password: &[u8],
    moment: Moment,
) -> Result<Core, OpenFault>
    requires waits { store.old.pending ≡ [] }
    requires calm { store.old.refused ≡ false }
    ensures core { IfOk result (λ core. core
        ≡ record { state = opening_state (initial password.now moment); last = None }) }
    ensures sound { IfOk result (λ core. IsSound core.state) }
    ensures emptied { OnOk result (store.new.pending ≡ []) }
    ensures unfailed { OnOk result (store.new.refused ≡ false) }
    ensures rows { IsTrue D.tells → AreFor (images D.images store.old.disk) empty_db
        → OnOk result (AreFor (images D.images store.new.disk) (initial password.now moment)) }
    ensures kept { IsTrue D.tells → AreFor (images D.images store.old.disk) empty_db
        → IsKept (images D.images store.old.disk)
        → OnOk result (IsKept (images D.images store.new.disk)) }
    ensures kinds { IfErr result IsMakeFault }
    ensures unused { (n : ℕ) → result ≢ Err (OpenFault.Used n) }
    ensures cause { result ≡ Err OpenFault.Fault
        → Rose (D.faults store.old.disk) (D.faults store.new.disk) }
    ensures no_cause { OnOk result (D.faults store.new.disk ≡ D.faults store.old.disk) }
{
    let rows = match initial_rows(alloc, password, moment, store) {
        Ok(rows) => rows,
        Err(Memory) => return Err(OpenFault::Memory),
    };
    match store.flush() {
        Ok(()) => Ok(Core::of(alloc, rows)),
        Err(FlushFault::Fault) => Err(OpenFault::Fault),
        Err(FlushFault::Full(_)) => Err(OpenFault::Memory),
    }
}

/// The rows of a new server, whose administrator has this password. A keeper gets the effects that
/// make them.
fn initial_rows<K: Keeper>(
    alloc: Global,
    password: &[u8],
    moment: Moment,
    keeper: &mut K,
) -> Result<StoredRows, Memory>
    ensures rows { IfOk result (λ rows. rows.db
        ≡ apply_all (effects_at_first password.now moment) empty_db) }
    ensures kept { OnOk result (K.pending keeper.new
        ≡ append_pending (fitting_effects (effects_at_first password.now moment) empty_db)
        (K.pending keeper.old)) }
    ensures rest { K.stays keeper.old keeper.new }
{
    let effects = initial_effects(alloc, password, moment)?;
    let mut rows = StoredRows::empty(alloc);
    match make_all(&mut rows, effects, keeper) {
        Ok(()) => Ok(rows),
        Err(memory) => Err(memory),
    }
}

/// Makes those of the effects that fit, in their order, and gives each of these to a keeper first.
fn make_all<K: Keeper>(
    rows: &mut StoredRows,
    effects: EffectList,
    keeper: &mut K,
) -> Result<(), Memory>
    ensures rows { OnOk result (rows.new.db ≡ apply_all effects rows.old.db) }
    ensures kept { OnOk result (K.pending keeper.new
        ≡ append_pending (fitting_effects effects rows.old.db) (K.pending keeper.old)) }
    ensures rest { K.stays keeper.old keeper.new }
{
    for effect in effects.into_vec() {
        make_one(rows, effect, keeper)?;
    }
    Ok(())
}

/// Makes an effect if it fits, and gives it to a keeper first.
fn make_one<K: Keeper>(rows: &mut StoredRows, effect: Effect, keeper: &mut K) -> Result<(), Memory>
    ensures rows { OnOk result (rows.new.db ≡ apply effect rows.old.db) }
    ensures kept { OnOk result (K.pending keeper.new
        ≡ append_pending (fitting_effects (effect ∷ []) rows.old.db) (K.pending keeper.old)) }
    ensures rest { K.stays keeper.old keeper.new }
{
    rows.reserve(slice::from_ref(&effect))?;
    keeper.reserve(slice::from_ref(&effect))?;
    if !rows.fits(&effect) {
        return Ok(());
    }
    keeper.keep(&effect);
    rows.apply_effect(effect);
    Ok(())
}
