ghost use Rattle.std.specs.Prelude.{◌≡◌, ◌↔◌, ◌+◌, ◌<◌, ◌≤◌, length, IfSome, IsNone, IfOk, IsTrue};
ghost use Rattle.te_terms.specs.Terms.{closed};
ghost use Rattle.te_terms.specs.Codes.{term_under};
ghost use Rattle.te_terms.specs.Measures.{weight, counts_of};
ghost use Rattle.te_terms.specs.Limits.{IsWithinLimits};
ghost use Rattle.te_terms.specs.Made.{IsMadeOf, HasCode, HasRoot, HasRegisters};

use crate::code::{Counts, EventCode};
use crate::limits::MOST_REGISTERS;
use crate::memory::NoMemory;
use crate::same::same_under;
use crate::value::Value;
use std::marker::Model;
use std::sync::Arc;

/// What a group leaves a member with: a value that it gives or raises.
#[derive(Clone, Copy, Debug, PartialEq, Eq)]
pub enum Outcome {
    Gives(Value),
    Raises(Value),
}

/// An event: a node of a code as root, with the values of the registers. It is seen as the closed term
/// under the root.
#[derive(Drop)]
pub struct Event {
    code: Arc<EventCode>,
    root: u32,
    regs: [Value; MOST_REGISTERS],
}

impl Model for Event {
    ghost use Rattle.te_terms.specs.Terms.{Term, closed};
    ghost use Rattle.te_terms.specs.Stored.{coded_term};
    ghost use Rattle.te_terms.specs.Codes.{term_under};

    ghost Value = { Term };

    ghost coded = { coded_term };

    ghost view = { λ e. closed e.regs (term_under e.code.value e.root) };

    ghost use Rattle.std.specs.Prelude.{◌<◌, length};

    ghost invariant = { λ e. e.root < length e.code.value };
}

impl Event {
    /// The event under node `root` of the code, with these values of the registers; `None` exactly where
    /// there is no such node.
    pub fn new(code: Arc<EventCode>, root: u32, regs: [Value; 8]) -> Option<Event>
        ensures some { IfSome result (λ event. event ≡ closed regs (term_under code.value root)) }
        ensures none { IsNone result ↔ (length code.value ≤ root) }
    {
        if root >= code.len() {
            return None;
        }
        Some(Event { code, root, regs })
    }

    /// What the event was made of: the code, the number of the root among its nodes, and the values of the
    /// registers, from register 0 on. Together they make the event's term, which tells of none of them alone.
    pub fn parts(&self) -> (&Arc<EventCode>, u32, &[Value; 8])
        ensures { IsMadeOf result.0.now.value result.1 result.2.now self.now }
    {
        (&self.code, self.root, &self.regs)
    }

    /// The code that the event was made of. Its contract says that there are a root and registers with which it
    /// makes the event's term; `parts` tells which.
    pub fn code(&self) -> &Arc<EventCode>
        ensures { HasCode result.now.value self.now }
    {
        &self.code
    }

    /// The number of the node under which the event's term stands. Its contract says that there are a code and
    /// registers with which it makes the term; `parts` tells which.
    pub fn root(&self) -> u32
        ensures { HasRoot result self.now }
    {
        self.root
    }

    /// The values of the registers, from register 0 on. The contract says that there are a code and a root with
    /// which they make the event's term; `parts` tells which.
    pub fn regs(&self) -> &[Value; 8]
        ensures { HasRegisters result.now self.now }
    {
        &self.regs
    }

    /// The number of choose, send and receive nodes under the root.
    pub fn weight(&self) -> u32
        ensures value { result ≡ weight self.now }
        ensures limits { IsWithinLimits self.now }
    {
        let counts = self.counts();
        counts.choices + (counts.sends + counts.receives)
    }

    /// The numbers of choose, send and receive nodes under the root; their sum is `weight`. It takes no memory.
    pub fn counts(&self) -> Counts
        ensures value { result ≡ counts_of self.now }
        ensures sum { result.choices + (result.sends + result.receives) ≡ weight self.now }
        ensures limits { IsWithinLimits self.now }
    {
        self.code.counts(self.root)
    }

    /// Whether both are the same term, whatever the numbers of their nodes, over the values of their
    /// registers. It takes no memory.
    pub fn same(&self, other: &Event) -> bool
        ensures { IsTrue result ↔ (self.now ≡ other.now) }
    {
        same_under(
            &self.code,
            self.root,
            &self.regs,
            &other.code,
            other.root,
            &other.regs,
        )
    }

    /// The same event once more; the code is shared.
    pub fn copy(&self) -> Result<Event, NoMemory>
        ensures { IfOk result (λ event. event ≡ self.now) }
    {
        let Ok(code) = Arc::try_clone(&self.code) else {
            return Err(NoMemory);
        };
        Ok(Event {
            code,
            root: self.root,
            regs: self.regs,
        })
    }
}

/// An event on which a thread synchronises, under its ticket.
#[derive(Drop)]
pub struct Parked {
    pub thread: u32,
    pub ticket: u32,
    pub event: Event,
}
