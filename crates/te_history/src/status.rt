ghost use Rattle.std.specs.Prelude.{◌≡◌, IfOk};

use crate::copying::copy_rows;
use std::alloc::Global;
use te_terms::{NoMemory, Outcome, Rows, Value};

/// How a thread ends. This project's own.
#[derive(Drop)]
pub enum How {
    /// Past its last statement, with the values that it emitted.
    Done(Rows<Value>),
    /// By a raised value.
    Raised(Value),
    /// In a synchronisation that no group can complete.
    Stuck,
}

impl How {
    // The same way once more.
    pub(crate) fn copy(&self, alloc: Global) -> Result<How, NoMemory>
        ensures { IfOk result (λ how. how ≡ self.now) }
    {
        match self {
            How::Done(values) => Ok(How::Done(copy_rows(alloc, values.as_slice())?)),
            How::Raised(value) => Ok(How::Raised(*value)),
            How::Stuck => Ok(How::Stuck),
        }
    }
}

/// Where a caller stands. This project's own.
#[derive(Clone, Copy, Debug, PartialEq, Eq)]
pub enum Status {
    /// It has no parked event and no outcome to take, and hasn't ended.
    Idle,
    /// Its event is parked under this ticket.
    Parked(u32),
    /// A group that it was in committed: under this ticket it gets this outcome, which it hasn't taken yet.
    Given(u32, Outcome),
    /// It has ended.
    Ended,
}

/// Whether the board is declared stuck. This project's own.
#[derive(Clone, Copy, Debug, PartialEq, Eq)]
pub enum Phase {
    /// It isn't.
    Running,
    /// It is, and only ends may follow.
    Stuck,
}
