ghost use Rattle.std.specs.Prelude.{◌≡◌};
ghost use Rattle.te_serial.specs.declared.fault.FinishFault.TheVariants.{Memory};

use te_terms::NoMemory;

/// Why `finish` stopped before every caller had ended. What was appended by then stands. This project's own.
#[derive(Clone, Copy, Debug, PartialEq, Eq)]
pub enum FinishFault {
    /// The search of the list that is parked now has used up its budget, by so many paths and partial groups. `front` is
    /// the length of the history.
    Spent { front: u64, paths: u64, groups: u64 },
    /// An idle caller wishes to synchronise, and the board has no room for its post and all that it may then need.
    Full,
    /// There was no memory.
    Memory,
}

impl From<NoMemory> for FinishFault {
    ghost from_gives = { λ _ fault. fault ≡ Memory };

    fn from(_: NoMemory) -> FinishFault {
        FinishFault::Memory
    }
}
