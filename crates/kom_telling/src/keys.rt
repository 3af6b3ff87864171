// By what rows are found, listed before any of them is told.
ghost use Rattle.std.specs.Prelude.{◌≡◌, [], length, filter, insert, IfOk, nat_lt};
ghost use Rattle.std.specs.List.Sorted.{IsNonDecreasing};
ghost use Rattle.kom_telling.specs.Keys.{AreKeys};
ghost use Rattle.kom_telling.specs.Sections.{all_joined, joined_after};

use crate::section::Joined;
use kom_state::StoredRows;
use kom_types::{Memory, Placed};
use row_slots::Lists;
use std::alloc::Global;

/// The numbers of conferences, persons and texts, rising, and the memberships in the order of
/// joining.
pub(crate) struct Keys {
    pub(crate) conferences: Vec<u32>,
    pub(crate) persons: Vec<u32>,
    pub(crate) texts: Vec<u32>,
    pub(crate) memberships: Vec<Joined>,
}

// A call of its own, so that whoever lets the keys go has one step to prove.
impl Drop for Keys {
    fn drop(self) {
        let Keys {
            conferences,
            persons,
            texts,
            memberships,
        } = self;
        drop((conferences, persons, texts));
        drop(memberships);
    }
}

/// The keys of all rows.
pub(crate) fn keys_of(alloc: Global, rows: &StoredRows) -> Result<Keys, Memory>
    ensures { IfOk result (AreKeys rows.now.db) }
{
    Ok(Keys {
        conferences: rows.conference_numbers()?,
        persons: rows.person_numbers()?,
        texts: rows.text_numbers()?,
        memberships: joined(alloc, rows)?,
    })
}

/// The memberships in the order of joining, each with its place among those of its person that
/// joined before it.
fn joined(alloc: Global, rows: &StoredRows) -> Result<Vec<Joined>, Memory>
    ensures { IfOk result (λ joined. joined.items ≡ all_joined rows.now.db) }
{
    let placed = rows.placed_memberships()?;
    ranked(alloc, &placed)
}

fn ranked(alloc: Global, placed: &[Placed]) -> Result<Vec<Joined>, Memory>
    ensures { IfOk result (λ joined. joined.items ≡ joined_after [] placed.now) }
{
    let mut joined = Vec::with_capacity(alloc, placed.len())?;
    // The positions of each person's memberships so far, rising.
    let mut before = Lists::new(alloc);
    for one in placed {
        let place = place_among(before.list(one.person), one.position);
        let Ok(rank) = u32::try_from(place) else {
            return Err(Memory);
        };
        before.reserve(one.person, 1)?;
        before.insert(one.person, place, one.position);
        joined.push(Joined {
            person: one.person,
            conference: one.conference,
            rank,
        })?;
    }
    Ok(joined)
}

/// How many of these numbers are below another, which so is the place at which it goes among them.
fn place_among(numbers: &[u32], limit: u32) -> usize
    requires { IsNonDecreasing numbers.now }
    ensures count { result
        ≡ length (filter (λ number. nat_lt number limit) numbers.now) }
    ensures rising { IsNonDecreasing (insert numbers.now result limit) }
{
    numbers.partition_point(|number| *number < limit)
}
