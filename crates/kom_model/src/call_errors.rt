ghost use Rattle.std.specs.Prelude.{◌≡◌};
ghost use Rattle.kom_model.specs.declared.call_errors.CallError.TheVariants as error;

use kom_types::Memory;

/// What a guard refuses: the error's code and its status. (Protocol A, "Error Codes".)
#[derive(Clone, Copy, Debug, PartialEq, Eq)]
pub struct Refused {
    pub code: u32,
    pub status: u32,
}

/// Why a call is not carried out.
#[derive(Clone, Copy, Debug, PartialEq, Eq)]
pub enum CallError {
    Refused(Refused),
    Memory,
}

impl From<Refused> for CallError {
    ghost from_gives = { λ refused e. e ≡ error.Refused refused };

    fn from(refused: Refused) -> CallError {
        CallError::Refused(refused)
    }
}

impl From<Memory> for CallError {
    ghost from_gives = { λ _ e. e ≡ error.Memory };

    fn from(_memory: Memory) -> CallError {
        CallError::Memory
    }
}
