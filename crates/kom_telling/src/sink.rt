ghost use Rattle.std.specs.Prelude.{[], ◌∷◌, OnOk};
ghost use Rattle.kom_types.specs.Parts.{Makes, part_of};
ghost use Rattle.effect_codec.specs.Coding.{IsShortEnough};
ghost use Rattle.effect_codec.specs.Parts.{IsPartShort};
ghost use Rattle.kom_telling.specs.Takes.{Keeps, Takes};

use kom_types::{Effect, PartRef};

/// Where the parts of a snapshot go, one after the other.
pub trait PartSink {
    ghost use Rattle.std.specs.Prelude.{List};
    ghost use Rattle.kom_types.specs.Parts.{Part};

    /// Why a part is refused.
    type Refusal: Drop;

    /// The sink has taken these parts, since it was made.
    ghost took: { Self → List Part → Type 0 };

    /// What becomes of a sink, whether it takes a part or refuses it.
    ghost becomes: { Self → Self → Type 0 };

    /// Takes one part more.
    fn put(&mut self, part: &PartRef<'_>) -> Result<(), Self::Refusal>
        requires { IsPartShort (part_of part.now) }
        ensures told { OnOk result (Takes took self.old self.new (part_of part.now ∷ [])) }
        ensures keeps { Keeps becomes self.old self.new };
}

/// Tells an effect that has no list.
pub(crate) fn put_plain<S: PartSink>(sink: &mut S, effect: Effect) -> Result<(), S::Refusal>
    requires { IsShortEnough effect }
    ensures told { OnOk result (Takes S.took sink.old sink.new (Makes effect ∷ [])) }
    ensures keeps { Keeps S.becomes sink.old sink.new }
{
    sink.put(&PartRef::Plain(&effect))
}
