// Effects as what a body is made of.
ghost use Rattle.std.specs.Prelude.{◌≡◌, length, IfSome};
ghost use Rattle.kom_journal.specs.Files.{body_of};

use batch_log::Encode;
use effect_codec::{append, coded_len};
use kom_types::Effect;

/// An effect that is told as bytes.
#[derive(Drop)]
pub(crate) struct Coded<'a>(pub &'a Effect);

impl Encode for Coded<'_> {
    ghost use Rattle.effect_codec.specs.Coding.{coded_effect, IsInRange, IsShortEnough};

    ghost bytes = { λ coded. coded_effect coded.0.now };

    ghost is_encodable = { λ coded. IsShortEnough coded.0.now };

    ghost is_encoded = { λ coded. IsInRange coded.0.now };

    fn encode(&self, out: &mut Vec<u8>) {
        append(out, self.0);
    }
}

/// How many bytes effects have, unless they are more than its type tells.
pub(crate) fn total_len(effects: &[Effect]) -> Option<u64>
    ensures { IfSome result (λ total. total ≡ length (body_of effects.now)) }
{
    let mut total: u64 = 0;
    for effect in effects {
        total = total.checked_add(coded_len(effect))?;
    }
    Some(total)
}
