ghost use Rattle.std.specs.Prelude.{◌≡◌, [], ◌∷◌, drop, MatchOption};
ghost use Rattle.row_slots.specs.Slots.{rows_in};

use crate::slots::Slots;
use std::marker::Model;

/// The rows of slots that are still to come, in the order of adding.
#[derive(Drop)]
pub struct SlotWalk<'a, R> {
    pub(crate) slots: &'a Slots<R>,
    /// The slot at which the walk goes on.
    pub(crate) place: u32,
}

impl<'a, R> Model for SlotWalk<'a, R> {
    ghost use Rattle.std.specs.Prelude.{List, drop};
    ghost use Rattle.row_slots.specs.Slots.{rows_in};

    ghost Value = { List R };

    ghost view = { λ walk. rows_in (drop walk.place walk.slots.now.slots) };
}

impl<'a, R: Drop> SlotWalk<'a, R> {
    /// Gives the next row, if there is one. Of a whole walk the time grows with the slots.
    pub fn next_row(&mut self) -> Option<&'a R>
        ensures { MatchOption result ((self.old ≡ []) × (self.new ≡ []))
            (λ row. self.old ≡ row.now ∷ self.new) }
    {
        match next_from(self.slots, self.place) {
            None => None,
            Some((next, row)) => {
                self.place = next;
                Some(row)
            }
        }
    }
}

/// The first row from a slot on, if there is one, and the slot after it.
fn next_from<R: Drop>(slots: &Slots<R>, from: u32) -> Option<(u32, &R)>
    ensures { MatchOption result (rows_in (drop from slots.now.slots) ≡ []) (λ found.
        rows_in (drop from slots.now.slots)
        ≡ found.1.now ∷ rows_in (drop found.0 slots.now.slots)) }
{
    let end = slots.count() as u32;
    for place in from..end {
        if let Some(row) = slots.get(place) {
            return Some((place + 1, row));
        }
    }
    None
}
