ghost use Rattle.std.specs.Prelude.{◌≡◌, IfOk};
ghost use Rattle.kom_model.specs.calls.Call.{Meets};
ghost use Rattle.kom_model.specs.calls.AuxItems as AuxItems;

use kom_model::CallError;
use kom_state::Asked;
use kom_types::{Boxed, Decision, Memory, Numbers, Reply, Sequence, aux_tags};
use std::alloc::Global;

/// The tags that the server knows.
const KNOWN_TAGS: [u32; 12] = [
    aux_tags::CONTENT_TYPE,
    aux_tags::FAST_REPLY,
    aux_tags::CROSS_REFERENCE,
    aux_tags::NO_COMMENTS,
    aux_tags::PERSONAL_COMMENT,
    aux_tags::REQUEST_CONFIRMATION,
    aux_tags::READ_CONFIRM,
    aux_tags::REDIRECT,
    aux_tags::ALTERNATE_NAME,
    aux_tags::E_MAIL_ADDRESS,
    aux_tags::FAQ_TEXT,
    aux_tags::CREATING_SOFTWARE,
];

/// Call 96, query-predefined-aux-items: the tags that the server knows.
pub fn query_predefined_aux_items(asked: &Asked<'_>) -> Result<Decision, CallError>
    ensures { Meets AuxItems.query_predefined_aux_items result }
{
    let tags = Boxed::new(asked.allocator(), known_tags(asked.allocator())?)?;
    Ok(asked.answer(Reply::Numbers(tags)))
}

fn known_tags(alloc: Global) -> Result<Numbers, Memory>
    ensures { IfOk result (λ tags. tags ≡ AuxItems.known_tags) }
{
    Ok(Sequence::of(Vec::from_slice(alloc, &KNOWN_TAGS)?))
}
