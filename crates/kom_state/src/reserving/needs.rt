ghost use Rattle.std.specs.Prelude.{◌≡◌, ℕ, ◌+◌, ◌<◌, ◌≤◌, ◌^◌, OnOk, IfOk, nat_eq, count_by};
ghost use Rattle.std.specs.Prelude.{if◌then◌else◌};
ghost use Rattle.std.specs.HashMap.{get};
ghost use Rattle.std.specs.Map.{count_at};
ghost use Rattle.texts.specs.Needs.{HasRoom, count_of};
ghost use Rattle.kom_state.specs.Counts.{number_of, is_of, AreCounts};

use kom_types::Memory;
use std::alloc::Global;
use std::collections::HashMap;
use texts::{Need, Texts};

/// So many needs are counted without a table.
pub(crate) const FEW: usize = 12;

/// Makes room for each thing that is needed, as often as it is needed, and now and then for more.
pub(crate) fn reserve_needs(texts: &mut Texts, needs: &[Need], alloc: Global) -> Result<(), Memory>
    ensures rows { texts.new.rows ≡ texts.old.rows }
    ensures ok { OnOk result (HasRoom texts.new.room needs.now) }
{
    if needs.len() <= FEW {
        return reserve_few(texts, needs);
    }
    reserve_many(texts, needs, alloc)
}

/// The same where few are needed: the time grows with the square of the needs.
fn reserve_few(texts: &mut Texts, needs: &[Need]) -> Result<(), Memory>
    ensures rows { texts.new.rows ≡ texts.old.rows }
    ensures ok { OnOk result (HasRoom texts.new.room needs.now) }
{
    for need in needs {
        texts.reserve(*need, most_of_few(*need, needs))?;
    }
    Ok(())
}

/// How often a thing is needed at most: things of one number are counted together.
fn most_of_few(need: Need, needs: &[Need]) -> usize
    ensures { count_of need needs.now ≤ result }
{
    match number_of(need) {
        Some(number) => count_of_number(number, needs),
        None => needs.len(),
    }
}

/// How often things of a number are needed.
fn count_of_number(number: u32, needs: &[Need]) -> usize
    ensures { result ≡ count_by (is_of number) needs.now }
{
    needs.iter().filter(|need| is_of(number, **need)).count()
}

/// Whether a need is of this number.
fn is_of(number: u32, need: Need) -> bool
    ensures { result ≡ is_of number need }
{
    match number_of(need) {
        Some(other) => number == other,
        None => false,
    }
}

/// The same where many are needed: the time grows with the needs.
fn reserve_many(texts: &mut Texts, needs: &[Need], alloc: Global) -> Result<(), Memory>
    ensures rows { texts.new.rows ≡ texts.old.rows }
    ensures ok { OnOk result (HasRoom texts.new.room needs.now) }
{
    let counts = counts_of(needs, alloc)?;
    for need in needs {
        let count = most_of(*need, needs, &counts);
        texts.reserve(*need, count)?;
    }
    Ok(())
}

/// How often a thing is needed at most.
fn most_of(need: Need, needs: &[Need], counts: &HashMap<u32, usize>) -> usize
    requires { AreCounts counts.now needs.now }
    ensures { count_of need needs.now ≤ result }
{
    match number_of(need) {
        Some(number) => count_at(counts, number),
        None => needs.len(),
    }
}

/// How often each number is needed.
fn counts_of(needs: &[Need], alloc: Global) -> Result<HashMap<u32, usize>, Memory>
    ensures { IfOk result (λ counts. AreCounts counts needs.now) }
{
    let mut counts = HashMap::new(alloc);
    for need in needs {
        let Some(number) = number_of(*need) else {
            continue;
        };
        count_one(&mut counts, number)?;
    }
    Ok(counts)
}

/// Counts a number once more.
fn count_one(counts: &mut HashMap<u32, usize>, number: u32) -> Result<(), Memory>
    requires { count_at (get nat_eq counts.old) number + 1 < 2 ^ 64 }
    ensures { OnOk result ((other : ℕ) → count_at (get nat_eq counts.new) other
        ≡ count_at (get nat_eq counts.old) other + (if nat_eq number other then 1 else 0)) }
{
    let count = count_at(counts, number);
    counts.insert(number, count + 1)?;
    Ok(())
}

/// How often a number was counted.
fn count_at(counts: &HashMap<u32, usize>, number: u32) -> usize
    ensures { result ≡ count_at (get nat_eq counts.now) number }
{
    counts.get(&number).copied().unwrap_or(0)
}

/// The number of the text, conference or person that a need is of, if it is of one.
fn number_of(need: Need) -> Option<u32>
    ensures { result ≡ number_of need }
{
    match need {
        Need::Text | Need::Recipient | Need::Link | Need::Mark => None,
        Need::RecipientOf(number)
        | Need::Local(number)
        | Need::LinkFrom(number, _)
        | Need::LinkInto(number, _)
        | Need::MarkOf(number)
        | Need::MarkOn(number)
        | Need::Created(number) => Some(number),
    }
}
