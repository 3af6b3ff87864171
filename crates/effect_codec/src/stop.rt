use kom_types::Memory;

// Why no value was read: the bytes end too early; they begin with none; or memory ran out.
#[derive(Clone, Copy, Debug)]
pub(crate) enum Stop {
    Short,
    Wrong,
    Memory,
}

impl From<Memory> for Stop {
    ghost use Rattle.std.specs.Prelude.{◌≡◌};
    ghost use Rattle.effect_codec.specs.declared.stop.Stop.TheVariants as stop;

    ghost from_gives = { λ _ e. e ≡ stop.Memory };

    fn from(_memory: Memory) -> Stop {
        Stop::Memory
    }
}
