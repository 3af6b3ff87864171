ghost use Rattle.effect_codec.specs.Giving.{Gives, GivesEffect, SpellsEffect};
ghost use Rattle.effect_codec.specs.Coding.{effect_at};

use crate::reader::Reader;
use crate::rows::effect_of;
use crate::stop::Stop;
use kom_types::Effect;
use std::alloc::Global;

/// Why no effect is read.
#[derive(Clone, Copy, Debug, PartialEq, Eq)]
pub enum ReadError {
    /// The bytes begin with no effect, whatever may follow them.
    Wrong,
    /// Memory ran out for a name, a text, the contents of an item or for ranges.
    Memory,
}

/// The effect that the bytes begin with, and how many bytes it has; or none yet, where more bytes
/// have to come. What it has of bytes and ranges is allocated there: a length is compared with its
/// greatest, and all of it has to be there, before memory is taken.
pub fn read(alloc: Global, bytes: &[u8]) -> Result<Option<(Effect, usize)>, ReadError>
    ensures gives { GivesEffect bytes.now result }
    ensures spelled { SpellsEffect bytes.now result }
{
    let mut from = Reader::of(alloc, bytes);
    match next_effect(&mut from) {
        Ok(effect) => Ok(Some((effect, bytes.len() - from.len()))),
        Err(Stop::Short) => Ok(None),
        Err(Stop::Wrong) => Err(ReadError::Wrong),
        Err(Stop::Memory) => Err(ReadError::Memory),
    }
}

fn next_effect(from: &mut Reader<'_>) -> Result<Effect, Stop>
    ensures { Gives (λ x. x) (effect_at from.old) result from.new }
{
    let kind = from.byte()?;
    effect_of(kind, from)
}
