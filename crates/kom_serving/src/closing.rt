// What serving leaves.
use hall_desk::Acts;
use kom_links::World;
use kom_state_lock::Pass;
use std::marker::Model;

/// A pass that has seen the whole history, the gates with the links that were given back, and the
/// clocks.
pub struct Closing<B: Acts + Drop, W: World> {
    pub pass: Pass<B>,
    pub gates: Vec<W::Gate>,
    pub clocks: Vec<W::Clock>,
}

impl<B: Acts + Drop, W: World> Model for Closing<B, W> {
    ghost use Rattle.std.specs.Prelude.{◌≡◌, map, false};
    ghost use Rattle.kom_state_lock.specs.Views.{is_served};
    ghost use Rattle.kom_serving.specs.Runs.{Service};

    ghost Value = { Service B.Entry W.Gate.Link };

    ghost view = { λ closing. record {
      seen = closing.pass.seen;
      drawn = closing.pass.drawn;
      gates = map (λ gate. W.Gate.view gate) closing.gates.items;
      readings = map (λ clock. W.Clock.gave clock) closing.clocks.items;
    } };

    // It can be let go.
    ghost invariant = { λ closing. is_served closing.pass.turn ≡ false };
}

impl<B: Acts + Drop, W: World> Drop for Closing<B, W> {
    fn drop(self) {
        let Closing {
            pass: _,
            gates: _,
            clocks: _,
        } = self;
    }
}
