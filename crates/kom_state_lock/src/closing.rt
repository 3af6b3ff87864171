// The passes of a hall are joined into one seat, as it is closed.
ghost use Rattle.std.specs.Prelude.{◌≡◌, ℕ, ◌<◌, [], All, Contains, map, length};
ghost use Rattle.kom_state_lock.specs.Views.{after_join, note_of};
ghost use Rattle.kom_state_lock.specs.Steps.{IsSameSeat, IsSeatOf, IsHallTable};
ghost use Rattle.kom_state_lock.specs.Passes.{HoldsNoTurn, drawn_by, pass_model};
ghost use Rattle.kom_state_lock.specs.Closing.{Covers, IsSettled, IsIn};

use crate::booked::Booked;
use crate::pass::Pass;
use crate::plays::{Both, Desk, Note, Place, Words};

fn join<B: Booked>(words: &Words<B>, seat: &mut Place<B>, other: Place<B>)
    requires table { IsSeatOf words.now.table_id seat.old × IsSeatOf words.now.table_id other }
    requires free { HoldsNoTurn seat.old.me.0.turn × HoldsNoTurn other.me.0.turn
        × (other.me.1 ≡ []) }
    ensures seat { IsSameSeat seat.old seat.new }
    ensures both { seat.new.me ≡ (after_join seat.old.me.0 other.me.0, seat.old.me.1) }
{
    words.join_seat::<Both>(seat, other);
}

// One seat that knows what all the passes know, with the number of one of them.
pub(crate) fn gather<B: Booked>(words: &Words<B>, mut passes: Vec<Pass<B>>) -> (u32, Place<B>)
    requires table { IsHallTable words.now.table_id }
    requires hall { All (λ p. p.table ≡ words.now.table_id) passes.items }
    requires free { All (λ p. HoldsNoTurn p.turn) passes.items }
    requires some { 0 < length passes.items }
    ensures seat { IsSeatOf words.now.table_id result.1 × (result.1.me.1 ≡ [])
        × HoldsNoTurn result.1.me.0.turn }
    ensures number { result.0 ≡ result.1.me.0.number }
    ensures knows { All (IsIn result.1.me.0) passes.items }
    ensures drawn { Contains (map drawn_by passes.items) result.1.me.0.drawn }
{
    let first = passes.pop().unwrap();
    let number = first.number();
    let mut seat = first.into_seat();
    while let Some(pass) = passes.pop() {
        join(words, &mut seat, pass.into_seat());
    }
    passes.destroy_empty();
    (number, seat)
}

// The value at home, and a pass that knows what the last seat knows.
pub(crate) fn settle<B: Booked>(table: Desk<B>, number: u32, mut seat: Place<B>) -> (B, Pass<B>)
    requires table { IsSeatOf table.shared.table_id seat × (seat.me.1 ≡ []) }
    requires free { HoldsNoTurn seat.me.0.turn × (number ≡ seat.me.0.number) }
    requires covers { Covers table.shared.key.passes seat.me.0 }
    ensures leads { B.led table.shared.key.value.value seat.me.0.seen result.0 }
    ensures settled { IsSettled B.pass_of table.shared.key.passes seat.me.0 }
    ensures pass { result.1 ≡ pass_model table.shared.table_id (note_of seat.me.0) }
{
    let note = table.shared.split_seat::<Note>(&mut seat);
    let mut closed = table.close_with(seat);
    let value = closed.take(0).unwrap();
    closed.free();
    let pass = Pass {
        number,
        full: None,
        seat: note,
    };
    (value, pass)
}
