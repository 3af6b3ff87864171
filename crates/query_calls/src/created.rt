//! The texts that a person made, of those that the caller reads.
ghost use Rattle.std.specs.Prelude.{◌≡◌, filter, IfOk};
ghost use Rattle.kom_model.specs.Db.{created_by, next_created_of};
ghost use Rattle.kom_model.specs.calls.Texts as Texts;

use access_rights::reads;
use kom_state::Asked;
use kom_types::{Mapping, Memory};
use local_maps::upward;

/// The first texts that a person made, from a number among them on, of those that the caller reads.
pub(crate) fn created_up(
    asked: &Asked<'_>,
    person: u32,
    first: u32,
    count: u32,
) -> Result<Mapping, Memory>
    ensures { IfOk result (λ mapping. mapping ≡ Texts.created_up asked.now person first count) }
{
    let caller = asked.caller();
    let rows = asked.rows();
    let alloc = asked.allocator();
    let next = rows.next_created(person);
    let count = count as usize;
    let mut taken = Vec::new(alloc);
    let Some(pairs) = rows.created_from(person, first) else {
        return upward(alloc, taken, false, next, first);
    };
    for pair in pairs {
        if reads(rows, &caller, pair.text) {
            if taken.len() == count {
                return upward(alloc, taken, true, next, first);
            }
            taken.push(pair)?;
        }
    }
    upward(alloc, taken, false, next, first)
}
