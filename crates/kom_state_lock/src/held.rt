// The value of a hall, while a pass has its turn.
ghost use Rattle.std.specs.Prelude.{◌≡◌};
ghost use Rattle.std.specs.Borrow.{Lends, sem};
ghost use Rattle.kom_state_lock.specs.contracts.held.Held.{the_row};

use std::marker::Model;

/// The value of a hall, in the turn of one pass. It has to be put back.
pub struct Held<B> {
    value: B,
}

impl<B> Model for Held<B> {
    ghost use Rattle.std.specs.Prelude.{ℕ};

    ghost Value = { B };

    ghost view = { λ h. h.value };
}

impl<B> Held<B> {
    pub(crate) fn new(value: B) -> Held<B>
        ensures { result ≡ value }
    {
        Held { value }
    }

    pub(crate) fn into_value(self) -> B
        ensures { result ≡ self }
    {
        let Held { value } = self;
        value
    }

    pub(crate) fn look(&self) -> &B
        ensures { result.now ≡ self.now }
    {
        &self.value
    }

    /// The value, for reading and for change.
    pub fn value(&mut self) -> &mut B
        ensures* writes_back { sem 𝓛 (Lends (the_row B.row) B.row self.entry result (λ w. w)) }
        ensures value { result.now ≡ self.old }
    {
        &mut self.value
    }
}
