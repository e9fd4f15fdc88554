ghost use Rattle.std.specs.Prelude.{◌≡◌};
ghost use Rattle.te_io.specs.declared.fault.ReadFault.TheVariants.{Failed as ReadFailed, Memory};

use std::alloc::AllocError;
use thiserror::Error;

/// The refusal of a source or a sink: it failed in this call, and counted it.
#[derive(Clone, Copy, Debug, PartialEq, Eq)]
pub struct Failed;

/// Why bytes were not read to the end.
#[derive(Clone, Copy, Debug, PartialEq, Eq, Error)]
pub enum ReadFault {
    /// The source failed in this call.
    #[error("the source failed")]
    Failed,
    /// Memory ran out.
    #[error("out of memory")]
    Memory,
}

impl From<Failed> for ReadFault {
    ghost from_gives = { λ _ fault. fault ≡ ReadFailed };

    fn from(_failed: Failed) -> ReadFault {
        ReadFault::Failed
    }
}

impl From<AllocError> for ReadFault {
    ghost from_gives = { λ _ fault. fault ≡ Memory };

    fn from(_error: AllocError) -> ReadFault {
        ReadFault::Memory
    }
}
