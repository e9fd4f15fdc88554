ghost use Rattle.std.specs.Prelude.{◌≡◌, ◌↔◌, IfOk, IsTrue};
ghost use Rattle.te_history.specs.Follows.{caller_of};
ghost use Rattle.te_history.specs.Refusals.{IsEndEntry};

use crate::copying::{copy_cert, copy_rows};
use crate::status::{How, Status};
use std::alloc::Global;
use te_cert::{Cert, CertFault};
use te_terms::{Event, NoMemory, Outcome, Rows};

/// One entry of a history; `by` is the thread that appends it, from 0, and a ticket is the number of a thread's earlier
/// posts. Entries are this project's own.
#[derive(Drop)]
pub enum Entry {
    /// The caller parks its event, under the number of its earlier posts as the ticket.
    Post {
        by: u32,
        ticket: u32,
        event: Event,
    },
    /// The certificate's members commit, and get these outcomes, in order of the members.
    Commit {
        by: u32,
        cert: Cert,
        outcomes: Rows<Outcome>,
    },
    /// The caller takes its event back, which is parked under this ticket.
    Withdraw {
        by: u32,
        ticket: u32,
    },
    /// The caller takes the outcome that it was given under this ticket.
    Take {
        by: u32,
        ticket: u32,
        outcome: Outcome,
    },
    /// The caller tells the threads to come back: the board is resting from here on.
    Rest {
        by: u32,
    },
    /// The caller declares that no group of the parked events can commit. A loose history may hold it wrongly.
    Stuck {
        by: u32,
    },
    /// The caller ends.
    End {
        by: u32,
        how: How,
    },
}

impl Entry {
    /// The same entry once more; an event's code is shared. The one refusal is want of memory.
    pub fn copy(&self, alloc: Global) -> Result<Entry, NoMemory>
        ensures { IfOk result (λ entry. entry ≡ self.now) }
    {
        let entry = match self {
            Entry::Post { by, ticket, event } => Entry::Post {
                by: *by,
                ticket: *ticket,
                event: event.copy()?,
            },
            Entry::Commit { by, cert, outcomes } => Entry::Commit {
                by: *by,
                cert: copy_cert(alloc, cert)?,
                outcomes: copy_rows(alloc, outcomes.as_slice())?,
            },
            Entry::Withdraw { by, ticket } => Entry::Withdraw {
                by: *by,
                ticket: *ticket,
            },
            Entry::Take {
                by,
                ticket,
                outcome,
            } => Entry::Take {
                by: *by,
                ticket: *ticket,
                outcome: *outcome,
            },
            Entry::Rest { by } => Entry::Rest { by: *by },
            Entry::Stuck { by } => Entry::Stuck { by: *by },
            Entry::End { by, how } => Entry::End {
                by: *by,
                how: how.copy(alloc)?,
            },
        };
        Ok(entry)
    }

    /// The thread that appends it.
    pub(crate) fn caller(&self) -> u32
        ensures { result ≡ caller_of self.now }
    {
        match self {
            Entry::Post { by, .. }
            | Entry::Commit { by, .. }
            | Entry::Withdraw { by, .. }
            | Entry::Take { by, .. }
            | Entry::Rest { by }
            | Entry::Stuck { by }
            | Entry::End { by, .. } => *by,
        }
    }

    pub(crate) fn is_end(&self) -> bool
        ensures { IsTrue result ↔ IsEndEntry self.now }
    {
        match self {
            Entry::End { .. } => true,
            _ => false,
        }
    }
}

/// Why an entry may not follow a history: the first need that fails. Places count from 0. This project's own.
#[derive(Clone, Copy, Debug, PartialEq, Eq)]
pub enum StepFault {
    /// `by` is no caller.
    Caller,
    /// The board is stuck, where only ends follow.
    Closed,
    /// The caller stands so, and the entry needs another standing.
    Other(Status),
    /// The entry needs this ticket.
    Ticket(u32),
    /// This member of the certificate is the first that names no caller.
    Stranger(u32),
    /// This member is the first that isn't parked under its ticket; it stands so.
    Stale(u32, Status),
    /// The certificate has no member, its threads don't rise, or the check of it on the members' events finds this; never
    /// want of memory.
    Unsound(CertFault),
    /// The outcome at this place is another, or only one of the two lists goes on here; of a take the place is 0.
    Result(u32),
    /// This caller, the lowest such, stands so, and is neither parked nor ended.
    Live(u32, Status),
    /// The board is resting already.
    Resting,
    /// Exactly one of the end and the board is stuck.
    How,
    /// There was no memory.
    Memory,
}
