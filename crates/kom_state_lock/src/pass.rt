// A pass: the right to take turns in one hall.
ghost use Rattle.std.specs.Prelude.{◌≡◌, []};
ghost use Rattle.std.specs.Prelude.{false};
ghost use Rattle.kom_state_lock.specs.Views.{is_served};
ghost use Rattle.kom_state_lock.specs.Passes.{HoldsNoTurn, pass_model};

use crate::booked::Booked;
use crate::plays::Place;
use std::marker::Model;

/// The right to take turns in one hall, one turn at a time. In its turn, for whose end the others
/// wait, it cannot be let go.
pub struct Pass<B: Booked> {
    pub(crate) number: u32,
    // The ticket that was refused.
    pub(crate) full: Option<u64>,
    pub(crate) seat: Place<B>,
}

impl<B: Booked> Model for Pass<B> {
    ghost use Rattle.kom_state_lock.specs.Passes.{PassModel, IsPass, pass_model};

    ghost Value = { PassModel B B.Entry };

    ghost view = { λ p. pass_model p.seat.table_id p.seat.me.0 };

    ghost invariant = { λ p. IsPass p.number p.full p.seat.me };
}

impl<B: Booked> Pass<B> {
    /// Counted from 0, in the order in which the hall gave its passes.
    pub fn number(&self) -> u32
        ensures { result ≡ self.now.number }
    {
        self.number
    }

    pub(crate) fn into_seat(self) -> Place<B>
        requires { HoldsNoTurn self.turn }
        ensures { (pass_model result.table_id result.me.0 ≡ self) × (result.me.1 ≡ []) }
    {
        let Pass {
            number: _,
            full: _,
            seat,
        } = self;
        seat
    }
}

impl<B: Booked> Drop for Pass<B> {
    fn drop(self)
        requires free { is_served self.turn ≡ false }
    {
        let Self {
            number: _,
            full: _,
            seat: _,
        } = self;
    }
}
