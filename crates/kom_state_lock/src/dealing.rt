// A table with its passes, as a hall is made.
ghost use Rattle.std.specs.Prelude.{◌≡◌, ℕ, ◌<◌, ◌≤◌, ◌+◌, []};
ghost use Rattle.std.specs.Prelude.{length, IfOk, IfErr, vec_len, vec_capacity};
ghost use Rattle.kom_state_lock.specs.declared.views.Turn.TheVariants.{Resting};
ghost use Rattle.kom_state_lock.specs.Views.{after_split, split_off, first_seat};
ghost use Rattle.kom_state_lock.specs.Steps.{IsSameSeat, IsSeatOf, IsHallTable};
ghost use Rattle.kom_state_lock.specs.Passes.{AreNewPasses};

use crate::booked::Booked;
use crate::pass::Pass;
use crate::plays::{Another, Desk, Opening, Place, Words};
use crate::steps::WORDS;
use atomic_table::{Refused, Table};
use std::alloc::Global;
use std::snapshot::Snapshot;

// A table with the value at home in its slot, or the value again.
pub(crate) fn lay_table<B: Booked>(
    alloc: Global,
    value: B,
    passes: u32,
) -> Result<(Desk<B>, Place<B>), B>
    requires { (1 ≤ passes) × (passes ≤ 65) }
    ensures table { IfOk result (λ t. IsHallTable t.0.shared.table_id
        × (t.0.shared.key.value.value ≡ value) × (t.0.shared.key.passes ≡ passes)) }
    ensures seat { IfOk result (λ t. (t.1.table_id ≡ t.0.shared.table_id) × (t.1.id ≡ 0)
        × (t.1.me ≡ (first_seat, []))) }
    ensures err { IfErr result (λ v. v ≡ value) }
{
    let key = Opening {
        value: Snapshot::of(&value),
        passes,
    };
    let Ok(mut slots) = Vec::with_capacity(alloc, 1) else {
        return Err(value);
    };
    slots.push_reserved(Some(value));
    match Table::new(alloc, &[0; WORDS], slots, &key) {
        Ok(made) => Ok(made),
        Err(Refused { mut slots }) => {
            let value = slots.pop().unwrap().unwrap();
            slots.destroy_empty();
            Err(value)
        }
    }
}

// One more seat, with the next number.
fn split<B: Booked>(words: &Words<B>, seat: &mut Place<B>) -> Place<B>
    requires table { IsSeatOf words.now.table_id seat.old }
    requires splits { (0 < seat.old.me.0.next) × (seat.old.me.0.next < words.now.key.passes) }
    requires free { seat.old.me.0.turn ≡ Resting }
    ensures seat { IsSameSeat seat.old seat.new
        × (seat.new.me ≡ (after_split seat.old.me.0, seat.old.me.1)) }
    ensures new { (result.table_id ≡ seat.old.table_id)
        × (result.me ≡ (split_off seat.old.me.0, [])) }
{
    words.split_seat::<Another>(seat)
}

// The passes, with the numbers from 0 on.
pub(crate) fn deal<B: Booked>(
    words: &Words<B>,
    mut seat: Place<B>,
    passes: u32,
    row: &mut Vec<Pass<B>>,
)
    requires table { IsSeatOf words.now.table_id seat }
    requires first { seat.me ≡ (first_seat, []) }
    requires passes { (1 ≤ passes) × (passes ≡ words.now.key.passes) }
    requires room { (vec_len row.old ≡ 0) × (vec_capacity row.old ≡ passes) }
    ensures { AreNewPasses words.now.table_id passes row.new.items }
{
    for number in 1..passes {
        let another = split(words, &mut seat);
        row.push_reserved(Pass {
            number,
            full: None,
            seat: another,
        });
    }
    let first = Pass {
        number: 0,
        full: None,
        seat,
    };
    let Ok(()) = row.insert(0, first) else {
        unreachable!()
    };
}
