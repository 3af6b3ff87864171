ghost use Rattle.std.specs.Prelude.{◌≡◌};
ghost use Rattle.kom_screen.specs.declared.screen_fault.ScreenFault.TheVariants as fault;

use std::alloc::AllocError;

/// Why a line was not shown.
#[derive(Clone, Copy, Debug)]
pub enum ScreenFault {
    /// What shows failed.
    Failed,
    /// Memory ran out.
    Memory,
}

impl From<AllocError> for ScreenFault {
    ghost from_gives = { λ _ found. found ≡ fault.Memory };

    fn from(_error: AllocError) -> ScreenFault {
        ScreenFault::Memory
    }
}
