ghost use Rattle.std.specs.Prelude.{◌≡◌, ◌++◌, filter, take, IfOk};
ghost use Rattle.name_lookup.specs.Letters.{matches};
ghost use Rattle.name_lookup.specs.Order.{letters_in, IsByName};
ghost use Rattle.name_lookup.specs.Walks.{PassesFound};

use crate::blocks::Blocks;
use crate::order::{By, name_of};
use crate::steps::{Step, look_at};
use indexmap::IndexMap;
use kom_types::{Bytes, Memory};

/// How many names a walk passed that are found, and what it does then: `Found` at the end.
#[derive(Clone, Copy)]
pub(crate) struct Passed {
    pub(crate) len: usize,
    pub(crate) step: Step,
}

/// The numbers of the names that a pattern finds, by its letters, in their order.
///
/// From a name that is not found the walk goes to the next one that may be: so it looks at a name
/// or two for each way in which names begin that have the words before one that is not theirs.
pub(crate) fn walk(
    kept: &IndexMap<u32, Bytes>,
    order: &Blocks,
    pattern: &[u8],
) -> Result<Vec<u32>, Memory>
    requires { IsByName kept.now.entries order.now.numbers }
    ensures { IfOk result (λ numbers. numbers.items
        ≡ filter (λ number. matches pattern.now (letters_in kept.now.entries number))
        order.now.numbers) }
{
    let mut numbers = Vec::new(order.alloc());
    let mut target = Vec::new(order.alloc());
    let mut place = 0;
    while place < order.len() {
        let ahead = order.ahead_of(place);
        let passed = push_found(kept, ahead, pattern, &mut numbers, &mut target)?;
        let next = match passed.step {
            Step::Found => place + passed.len,
            Step::Seek => {
                let sought = order.first_at(kept, target.as_slice(), By::Letters);
                sought.max(place + passed.len + 1)
            }
            Step::End => order.len(),
        };
        place = next;
    }
    Ok(numbers)
}

/// Adds numbers up to the first one whose name a pattern does not find. The target is set where
/// the walk is to seek one.
fn push_found(
    kept: &IndexMap<u32, Bytes>,
    ahead: &[u32],
    pattern: &[u8],
    numbers: &mut Vec<u32>,
    target: &mut Vec<u8>,
) -> Result<Passed, Memory>
    ensures passed { IfOk result (λ passed.
        PassesFound kept.now.entries pattern.now ahead.now passed target.new.items) }
    ensures numbers { IfOk result (λ passed.
        numbers.new.items ≡ numbers.old.items ++ take passed.len ahead.now) }
{
    for (len, number) in ahead.iter().enumerate() {
        match look_at(pattern, name_of(kept, *number), target)? {
            Step::Found => numbers.push(*number)?,
            step => return Ok(Passed { len, step }),
        }
    }
    Ok(Passed {
        len: ahead.len(),
        step: Step::Found,
    })
}
