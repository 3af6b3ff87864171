//! The positions of memberships, in the order of joining.
ghost use Rattle.std.specs.Prelude.{◌≡◌, map, option_map, IfOk, IsTrue};
ghost use Rattle.kom_types.specs.tables.Memberships.{membership_of, placed_of, at_place};
ghost use Rattle.memberships.specs.Placing.{position_of, placed_at};

use crate::kept::Kept;
use crate::table::Memberships;
use indexmap::IndexMap;
use kom_types::{MembershipRow, Memory, Placed};
use row_slots::Lists;
use std::alloc::Global;

impl Memberships {
    /// The person, the conference and the position of each membership, in the order of joining. The
    /// list has 12 bytes for each, and as many are taken beside it, or 16 before it.
    pub fn placed_keys(&self) -> Result<Vec<Placed>, Memory>
        ensures { IfOk result (λ placed. placed.items ≡ map placed_of self.now.rows) }
    {
        let alloc = *self.entries.allocator();
        let keys = self.keys()?;
        let guesses = guessed(&self.entries, &self.conferences, alloc)?;
        all_placed(self, &keys, &guesses, alloc)
    }

    /// The membership of a person in a conference as if it stood first, in constant time.
    pub fn unplaced(&self, person: u32, conference: u32) -> Option<MembershipRow>
        ensures { result
            ≡ option_map (at_place 0) (membership_of person conference self.now.rows) }
    {
        let kept = self.entries.get(&(person, conference))?;
        Some(kept.show(person, conference, 0))
    }

    /// Where a membership stands. The time is constant where that is as its entry's guess says, and
    /// grows else with the person's memberships.
    fn placed(&self, person: u32, conference: u32, guesses: &[u32]) -> Placed
        ensures { result ≡ placed_at self.now.rows (person, conference) }
    {
        let guess = guess_of(&self.entries, person, conference, guesses);
        Placed {
            person,
            conference,
            position: self.position(person, conference, guess),
        }
    }

    /// The position of a membership, which is first looked for at a place.
    fn position(&self, person: u32, conference: u32, guess: u32) -> u32
        ensures { result ≡ position_of self.now.rows (person, conference) }
    {
        if self.is_at(person, conference, guess) {
            return guess;
        }
        match self.get(person, conference) {
            Some(row) => row.position,
            None => 0,
        }
    }

    /// Whether a membership is at a place of its person.
    fn is_at(&self, person: u32, conference: u32, place: u32) -> bool
        ensures { IsTrue result → place ≡ position_of self.now.rows (person, conference) }
    {
        match self.conferences.list(person).get(place as usize) {
            Some(other) => *other == conference,
            None => false,
        }
    }
}

fn all_placed(
    table: &Memberships,
    keys: &[(u32, u32)],
    guesses: &[u32],
    alloc: Global,
) -> Result<Vec<Placed>, Memory>
    ensures { IfOk result (λ placed. placed.items ≡ map (placed_at table.now.rows) keys.now) }
{
    let placed = keys
        .iter()
        .map(|key| table.placed(key.0, key.1, guesses))
        .collect(alloc)?;
    Ok(placed)
}

/// For each entry the place of its conference among those of its person. Each is looked at before
/// it is taken for a position, so nothing depends on them but time.
fn guessed(
    entries: &IndexMap<(u32, u32), Kept>,
    conferences: &Lists,
    alloc: Global,
) -> Result<Vec<u32>, Memory> {
    let mut guesses = vec![in alloc; 0u32; entries.len()]?;
    for ((person, conference), _) in entries.iter() {
        let list = conferences.list(*person);
        // The list of a person is walked once, for the membership that stands first.
        if list.first() == Some(conference) {
            guess_all(entries, *person, list, &mut guesses);
        }
    }
    Ok(guesses)
}

fn guess_all(
    entries: &IndexMap<(u32, u32), Kept>,
    person: u32,
    conferences: &[u32],
    guesses: &mut [u32],
) {
    let mut place = 0u32;
    for conference in conferences {
        guess_one(entries, (person, *conference), place, guesses);
        place = place.saturating_add(1);
    }
}

fn guess_one(
    entries: &IndexMap<(u32, u32), Kept>,
    key: (u32, u32),
    place: u32,
    guesses: &mut [u32],
) {
    let Some(index) = entries.get_index_of(&key) else {
        return;
    };
    if let Some(guess) = guesses.get_mut(index) {
        *guess = place;
    }
}

fn guess_of(
    entries: &IndexMap<(u32, u32), Kept>,
    person: u32,
    conference: u32,
    guesses: &[u32],
) -> u32 {
    let Some(index) = entries.get_index_of(&(person, conference)) else {
        return 0;
    };
    match guesses.get(index) {
        Some(guess) => *guess,
        None => 0,
    }
}
