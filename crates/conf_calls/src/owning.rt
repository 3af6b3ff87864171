//! The right by which a conference is changed, or goes.
ghost use Rattle.std.specs.Prelude.{◌∷◌, []};
ghost use Rattle.kom_model.specs.calls.Guards as Guard;
ghost use Rattle.kom_model.specs.calls.Guards.{Guards, first_refusal};

use access_rights::{conference_guard, login_guard, supervisor_guard};
use kom_model::{Refused, Viewer};
use kom_state::StoredRows;

/// The caller supervises a conference that it sees.
pub(crate) fn owner_guards(rows: &StoredRows, caller: &Viewer, number: u32) -> Result<(), Refused>
    ensures { Guards (first_refusal (Guard.login_guard caller.now
        ∷ Guard.conference_guard rows.now.db caller.now number
        ∷ Guard.supervisor_guard rows.now.db caller.now number ∷ [])) result }
{
    login_guard(caller)?;
    conference_guard(rows, caller, number)?;
    supervisor_guard(rows, caller, number)
}
