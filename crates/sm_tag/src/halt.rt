//! Why a part of a tag isn't read.
ghost use Rattle.std.specs.Prelude.{◌≡◌};
ghost use Rattle.sm_tag.specs.declared.halt.Halt.TheVariants.{Memory};

use sm_model::NoMemory;
use std::alloc::{AllocError, AllocFailed};

/// Why a part of a tag isn't read.
#[derive(Clone, Copy, Debug, PartialEq, Eq)]
pub enum Halt {
    /// Memory ran out.
    Memory,
    /// The text ends before a byte that fits nothing.
    Short,
    /// A byte fits nothing.
    Wrong,
}

impl From<AllocError> for Halt {
    ghost from_gives = { λ _ e. e ≡ Memory };

    fn from(_: AllocError) -> Halt {
        Halt::Memory
    }
}

impl<T: Drop> From<AllocFailed<T>> for Halt {
    ghost from_gives = { λ _ e. e ≡ Memory };

    fn from(_: AllocFailed<T>) -> Halt {
        Halt::Memory
    }
}

impl From<NoMemory> for Halt {
    ghost from_gives = { λ _ e. e ≡ Memory };

    fn from(_: NoMemory) -> Halt {
        Halt::Memory
    }
}
