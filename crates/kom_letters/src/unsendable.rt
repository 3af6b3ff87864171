ghost use Rattle.std.specs.Prelude.{◌≡◌};
ghost use Rattle.kom_letters.specs.declared.unsendable.Unsendable.TheVariants as unsendable;

use std::alloc::{AllocError, AllocFailed};
use std::error::Error;
use std::fmt;

/// Why what was typed is not sent.
#[derive(Clone, Copy, Debug, PartialEq, Eq)]
pub enum Unsendable {
    /// It is no UTF-8.
    NotUtf8,
    /// A letter of it is not in ISO 8859-1.
    NotLatin1,
    /// Memory ran out.
    Memory,
}

impl fmt::Display for Unsendable {
    fn fmt<W: fmt::Write>(&self, f: &mut fmt::Formatter<W>) -> fmt::Result {
        f.write_str(match self {
            Unsendable::NotUtf8 => "this is no UTF-8",
            Unsendable::NotLatin1 => "a letter is not in ISO 8859-1",
            Unsendable::Memory => "out of memory",
        })
    }
}

impl Error for Unsendable {}

impl From<AllocError> for Unsendable {
    ghost from_gives = { λ _ found. found ≡ unsendable.Memory };

    fn from(_error: AllocError) -> Unsendable {
        Unsendable::Memory
    }
}

impl<T: Drop> From<AllocFailed<T>> for Unsendable {
    ghost from_gives = { λ _ found. found ≡ unsendable.Memory };

    fn from(_error: AllocFailed<T>) -> Unsendable {
        Unsendable::Memory
    }
}
