ghost use Rattle.std.specs.Prelude.{◌≡◌};
ghost use Rattle.te_reader.specs.declared.refusal.Refusal.TheVariants.{Memory};

use std::alloc::{AllocError, AllocFailed};
use te_terms::NoMemory;

/// Why a part of a text was not read.
#[derive(Clone, Copy, Debug, PartialEq, Eq)]
pub enum Refusal {
    /// It is part of no script.
    Refused,
    /// There was no memory.
    Memory,
}

impl From<AllocError> for Refusal {
    ghost from_gives = { λ _ fault. fault ≡ Memory };

    fn from(_refused: AllocError) -> Refusal {
        Refusal::Memory
    }
}

impl<T: Drop> From<AllocFailed<T>> for Refusal {
    ghost from_gives = { λ _ fault. fault ≡ Memory };

    fn from(_refused: AllocFailed<T>) -> Refusal {
        Refusal::Memory
    }
}

impl From<NoMemory> for Refusal {
    ghost from_gives = { λ _ fault. fault ≡ Memory };

    fn from(_refused: NoMemory) -> Refusal {
        Refusal::Memory
    }
}
