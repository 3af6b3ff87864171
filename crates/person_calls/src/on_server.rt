//! The calls about the server itself.
ghost use Rattle.kom_model.specs.calls.Call.{Meets};
ghost use Rattle.kom_model.specs.calls.Server as Server;

use access_rights::strong_guard;
use kom_model::CallError;
use kom_state::Asked;
use kom_types::{Decision, Reply, SessionChange};

/// Call 43, sync-kom: a strong session may ask for it, and nothing changes.
pub fn sync_kom(asked: &Asked<'_>) -> Result<Decision, CallError>
    ensures { Meets (Server.sync_kom asked.now) result }
{
    strong_guard(&asked.caller())?;
    Ok(asked.answer(Reply::Done))
}

/// Call 44, shutdown-kom: a strong session stops the server. The call's value is not used.
pub fn shutdown_kom(asked: &Asked<'_>) -> Result<Decision, CallError>
    ensures { Meets (Server.shutdown_kom asked.now) result }
{
    strong_guard(&asked.caller())?;
    Ok(asked.with_change(SessionChange::Stop)?)
}
