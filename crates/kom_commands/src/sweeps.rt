// The words of a command line that have a store swept.
ghost use Rattle.std.specs.Prelude.{[], ◌∷◌, IfSome, IfNone, ℕ};
ghost use Rattle.kom_commands.specs.Sweeps.{SaysSweep};

use crate::numbers::number_in;

/// The most bytes of a password.
pub(crate) const LONGEST_PASSWORD: usize = 128;

/// The most that six digits spell.
const GREATEST_PERSON: u32 = 999_999;

/// The number of the person that sweeps, if the words of `sweep` are right.
pub fn sweep_of(word: &str, store: &str, person: &str, password: &str) -> Option<u32>
    ensures some { IfSome result (SaysSweep
        (word.now ∷ store.now ∷ person.now ∷ password.now ∷ [])) }
    ensures none { IfNone result ((number : ℕ) → SaysSweep
        (word.now ∷ store.now ∷ person.now ∷ password.now ∷ []) number → ⊥) }
{
    if word != "sweep" || store.is_empty() || LONGEST_PASSWORD < password.len() {
        return None;
    }
    number_in(person, 0, GREATEST_PERSON)
}
