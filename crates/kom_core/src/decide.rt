ghost use Rattle.std.specs.Prelude.{◌≡◌, true, IfOk, IsOk};
ghost use Rattle.kom_model.specs.calls.Call.{refuse};
ghost use Rattle.kom_model.specs.Decide.{definition_of, decision_of, is_firm};
ghost use Rattle.kom_model.specs.Decide.{limit_reply as limited_decision};
ghost use Rattle.kom_core.specs.Deciding.{Defines, IsLong, IsReply, HasBody};

use crate::calls;
use kom_model::{CallError, Refused};
use kom_replies::printed_len;
use kom_state::Asked;
use kom_types::limits::LONGEST_REPLY;
use kom_types::{Call, Decision, Item, Memory, Reply, Sequence, errors};
use std::alloc::Global;

/// What a call comes to, and how many bytes its reply prints to, as many as a `u64` holds at most.
#[derive(Drop)]
pub(crate) struct Measured {
    pub(crate) decision: Decision,
    pub(crate) len: u64,
}

/// What a session's call of this reference comes to. A firm call takes no memory.
#[tactic(auto, unfolding(kom_model::specs::Decide::decision_of))]
pub(crate) fn decide(asked: &Asked<'_>, reference: u32, call: &Call) -> Result<Measured, Memory>
    requires { asked.now.reference ≡ reference }
    ensures decided { IfOk result (λ came. came.decision ≡ decision_of asked.now call.now) }
    ensures len { IfOk result (λ came. IsLong reference came.decision.reply came.len) }
    ensures firm { is_firm asked.now call.now ≡ true → IsOk result }
{
    let decision = define(asked, call)?;
    Ok(limited(asked.allocator(), reference, decision))
}

/// What a session's call comes to by its definition, but for the last guard.
fn define(asked: &Asked<'_>, call: &Call) -> Result<Decision, Memory>
    ensures defined { IfOk result (Defines (definition_of asked.now call.now)) }
    ensures firm { is_firm asked.now call.now ≡ true → IsOk result }
{
    match calls::make(asked, call) {
        Ok(decision) => Ok(decision),
        Err(CallError::Refused(refused)) => Ok(refuse(asked.allocator(), refused)),
        Err(CallError::Memory) => Err(Memory),
    }
}

/// The last guard of every call: a reply whose line is too long is refused, and nothing changes.
fn limited(alloc: Global, reference: u32, decision: Decision) -> Measured
    ensures decision { result.decision ≡ limited_decision reference decision }
    ensures len { IsLong reference result.decision.reply result.len }
{
    let came = with_len(reference, decision);
    if came.len <= LONGEST_REPLY as u64 {
        came
    } else {
        drop(came);
        let refused = Refused {
            code: errors::LONG_ARRAY,
            status: 0,
        };
        with_len(reference, refuse(alloc, refused))
    }
}

/// A decision, and how many bytes its reply prints to.
fn with_len(reference: u32, decision: Decision) -> Measured
    ensures decision { result.decision ≡ decision }
    ensures len { IsLong reference result.decision.reply result.len }
{
    let (len, reply) = printed(reference, decision.reply);
    Measured {
        decision: Decision {
            reply,
            effects: decision.effects,
            changes: decision.changes,
        },
        len,
    }
}

/// How many bytes the line of a reply has, as many as a `u64` holds at most, and the reply.
fn printed(reference: u32, body: Reply) -> (u64, Reply)
    ensures length { IsLong reference body result.0 }
    ensures reply { result.1 ≡ body }
{
    let item = Item::Reply { reference, body };
    let length = printed_len(&item);
    (length, body_of(item))
}

/// The reply that stands in an item.
fn body_of(item: Item) -> Reply
    requires { IsReply item }
    ensures { HasBody result item }
{
    match item {
        Item::Reply { body, .. } => body,
        _ => unreachable!(),
    }
}

/// A refused call changes nothing.
fn refuse(alloc: Global, refused: Refused) -> Decision
    ensures { result ≡ refuse refused }
{
    Decision {
        reply: Reply::Refused(refused.code, refused.status),
        effects: Sequence::new(alloc),
        changes: Sequence::new(alloc),
    }
}
