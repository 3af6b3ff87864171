//! The persons and the conferences of memberships, in the order of joining.
ghost use Rattle.std.specs.Prelude.{◌≡◌, ◌==◌, ◌||◌, ◌++◌, map, filter, filter_map, IfOk};
ghost use Rattle.memberships.specs.Entries.{timed_at};

use crate::kept::Kept;
use crate::table::Memberships;
use indexmap::IndexMap;
use kom_types::Memory;
use std::alloc::Global;

/// The person and the conference of a membership, after the turn in which it was set first.
type Timed = (u64, (u32, u32));

impl Memberships {
    /// The person and the conference of each membership, in the order of joining. The list has
    /// eight bytes for each, after one of 16 while they are sorted.
    pub(crate) fn keys(&self) -> Result<Vec<(u32, u32)>, Memory>
        ensures { IfOk result
            (λ keys. keys.items ≡ map (λ row. (row.person, row.conference)) self.now.rows) }
    {
        let alloc = *self.entries.allocator();
        let mut timed = all_timed(&self.entries, alloc)?;
        timed.sort_unstable_by_key(|key| key.0);
        timed.dedup();
        keys_of(&timed, alloc)
    }

    /// The person and the conference of each membership in the conference of a number, or of the
    /// person of that number, in the order of joining. The time grows with their number, times its
    /// logarithm.
    pub fn keys_at(&self, number: u32) -> Result<Vec<(u32, u32)>, Memory>
        ensures { IfOk result (λ keys. keys.items ≡ map (λ row. (row.person, row.conference))
            (filter (λ row. row.person == number || row.conference == number) self.now.rows)) }
    {
        let conferences = self.conferences.list(number);
        let persons = self.persons.list(number);
        let alloc = *self.entries.allocator();
        let mut timed = timed_keys(&self.entries, conferences, persons, number, alloc)?;
        timed.sort_unstable_by_key(|key| key.0);
        timed.dedup();
        keys_of(&timed, alloc)
    }
}

/// Each membership with its turn, in no order.
fn all_timed(entries: &IndexMap<(u32, u32), Kept>, alloc: Global) -> Result<Vec<Timed>, Memory>
    ensures { IfOk result (λ timed. timed.items ≡ map (λ e. (e.1.turn, e.0)) entries.now.entries) }
{
    let timed = entries
        .iter()
        .map(|(key, kept)| (kept.turn, *key))
        .collect(alloc)?;
    Ok(timed)
}

/// The memberships of the person of a number in these conferences, and those of these persons in
/// the conference of that number, each with its turn.
fn timed_keys(
    entries: &IndexMap<(u32, u32), Kept>,
    conferences: &[u32],
    persons: &[u32],
    number: u32,
    alloc: Global,
) -> Result<Vec<Timed>, Memory>
    ensures { IfOk result (λ timed. timed.items ≡ filter_map (timed_at entries.now.entries)
        (map (λ conference. (number, conference)) conferences.now
        ++ map (λ person. (person, number)) persons.now)) }
{
    let own = conferences.iter().map(|conference| (number, *conference));
    let of_others = persons.iter().map(|person| (*person, number));
    let timed = own
        .chain(of_others)
        .filter_map(|key| timed_at(entries, key))
        .collect(alloc)?;
    Ok(timed)
}

/// The membership of a person and a conference with its turn, if it is there.
fn timed_at(entries: &IndexMap<(u32, u32), Kept>, key: (u32, u32)) -> Option<Timed>
    ensures { result ≡ timed_at entries.now.entries key }
{
    let kept = entries.get(&key)?;
    Some((kept.turn, key))
}

/// The persons and the conferences alone.
fn keys_of(timed: &[Timed], alloc: Global) -> Result<Vec<(u32, u32)>, Memory>
    ensures { IfOk result (λ keys. keys.items ≡ map (λ key. key.1) timed.now) }
{
    Ok(timed.iter().map(|key| key.1).collect(alloc)?)
}
