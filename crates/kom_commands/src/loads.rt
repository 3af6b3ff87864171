// The words of a command line that have a new server loaded.
ghost use Rattle.std.specs.Prelude.{◌≤◌, [], ◌∷◌, IfSome, IfNone, ℕ};
ghost use Rattle.kom_commands.specs.Loads.{SaysLoad};

use crate::numbers::number_in;

/// The most calls that a server is loaded with.
const MOST_CALLS: u32 = 100_000;

/// How many calls the words of `load` ask for, if they are right.
pub fn load_of(word: &str, number: &str) -> Option<u32>
    ensures some { IfSome result (λ count. SaysLoad (word.now ∷ number.now ∷ []) count) }
    ensures none { IfNone result ((count : ℕ)
        → SaysLoad (word.now ∷ number.now ∷ []) count → ⊥) }
    ensures few { IfSome result (λ count. count ≤ 100000) }
{
    if word != "load" {
        return None;
    }
    number_in(number, 0, MOST_CALLS)
}
