ghost use Rattle.std.specs.Prelude.{◌≡◌, [], ◌∷◌, OnOk};
ghost use Rattle.kom_state.specs.Keepers.{append_pending, HasRoomFirst, FitsSome};

use kom_types::{Effect, Memory};

/// Keeps the effects that are made until they are stable, as a store does. One that keeps nothing
/// has no list of effects that wait.
pub trait Keeper {
    ghost use Rattle.std.specs.Prelude.{List, ◌∷◌, Option};
    ghost use Rattle.kom_types.specs.declared.effects.Effect.{Effect as Change};

    /// The effects that wait, in order, if any are kept.
    ghost pending: { Self → Option (List Change) };

    /// It may keep these effects without memory, or some of them.
    ghost has_room: { Self → List Change → Type 0 };

    /// All of it stays but what waits, and the room for more.
    ghost stays: { Self → Self → Type 0 };

    /// Takes room for effects.
    fn reserve(&mut self, effects: &[Effect]) -> Result<(), Memory>
        ensures room { OnOk result (has_room self.new effects.now) }
        ensures pending { pending self.new ≡ pending self.old }
        ensures rest { stays self.old self.new };

    /// Adds an effect that fits after those that wait. It takes no memory.
    fn keep(&mut self, effect: &Effect)
        requires room { HasRoomFirst has_room self.old effect.now }
        requires fits { FitsSome effect.now }
        ensures kept { pending self.new ≡ append_pending (effect.now ∷ []) (pending self.old) }
        ensures room { (more : List Change) → has_room self.old (effect.now ∷ more)
            → has_room self.new more }
        ensures rest { stays self.old self.new };

    /// An effect that is left out leaves the room of those after it.
    ghost leaves_room: { (keeper : Self) (effect : Change) (more : List Change)
        → has_room keeper (effect ∷ more) → has_room keeper more };

    ghost itself_stays: { (keeper : Self) → stays keeper keeper };

    ghost stays_on: { (first second third : Self) → stays first second → stays second third
        → stays first third };
}

/// Keeps nothing.
#[derive(Clone, Copy, Debug)]
pub struct Unkept;

impl Keeper for Unkept {
    ghost use Rattle.std.specs.Prelude.{None};

    ghost pending = { λ unkept. None };

    ghost has_room = { λ unkept effects. Unit {0} };

    ghost stays = { λ old new. Unit {0} };

    ghost leaves_room = { λ keeper effect more room. tt };

    ghost itself_stays = { λ keeper. tt };

    ghost stays_on = { λ first second third before after. tt };

    fn reserve(&mut self, _effects: &[Effect]) -> Result<(), Memory> {
        Ok(())
    }

    fn keep(&mut self, _effect: &Effect) {}
}
