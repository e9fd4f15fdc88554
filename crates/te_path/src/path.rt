ghost use Rattle.std.specs.Prelude.{◌≡◌, OnOk, OnErr, IfOk, IsSome};
ghost use Rattle.te_terms.specs.Joint.{after_choice, sending, receiving};
ghost use Rattle.te_terms.specs.Settling.{settled};
ghost use Rattle.te_terms.specs.Steps.{IsSettled, come_to};
ghost use Rattle.te_path.specs.declared.spot.Stop.{Stop};
ghost use Rattle.te_path.specs.Paths.{IsChoice, StandsAt, HasFewFresh, StepsTo, after_sending, after_receiving};

use crate::cells::Cells;
use crate::posted::Posted;
use crate::spot::{Spot, Stop};
use std::alloc::Global;
use std::marker::Model;
use std::sync::Arc;
use te_terms::{Event, EventCode, NoMemory, Value};

/// An event as far as a path of a thread through it has come under a ticket, with no quiet step left: it is seen
/// as the member, which is the thread, the ticket, how many fresh channels were made, and the term. Its steps are
/// those of Donnelly and Fluet, Transactional Events, JFP 18(5-6), 2008, with this project's own traps, throw,
/// catch, if and fresh. A state is a node of the event's code, which all its copies share, with the values of the
/// registers and of the inner names and what stands round the node; no second term is ever built.
#[derive(Drop)]
pub struct PathState {
    code: Arc<EventCode>,
    regs: [Value; 8],
    thread: u32,
    ticket: u32,
    cells: Cells,
    spot: Spot,
}

impl Model for PathState {
    ghost use Rattle.te_terms.specs.Steps.{Member};
    ghost use Rattle.te_path.specs.Stored.{coded_member};

    ghost Value = { Member };

    ghost coded = { coded_member };

    ghost use Rattle.te_path.specs.Spots.{spelled, IsSpot};

    ghost view = { λ p. spelled (record { code = p.code.value; regs = p.regs; thread = p.thread; ticket = p.ticket }) p.cells p.spot };

    ghost invariant = { λ p. IsSpot (record { code = p.code.value; regs = p.regs; thread = p.thread; ticket = p.ticket }) p.cells p.spot };
}

impl PathState {
    /// The event of a thread under a ticket, after its quiet steps; its fresh channels are numbered for the two.
    /// The one refusal is want of memory.
    pub fn start(
        alloc: Global,
        event: &Event,
        thread: u32,
        ticket: u32,
    ) -> Result<PathState, NoMemory>
        ensures { IfOk result (λ path. path ≡ settled (come_to thread ticket 0 event.now)) }
    {
        let (code, root, regs) = event.parts();
        let mut cells = Cells::new(alloc);
        let posted = Posted {
            code,
            regs,
            thread,
            ticket,
        };
        let spot = cells.start(&posted, root)?;
        let Ok(code) = Arc::try_clone(code) else {
            return Err(NoMemory);
        };
        Ok(PathState {
            code,
            regs: *regs,
            thread,
            ticket,
            cells,
            spot,
        })
    }

    /// The same state once more. The one refusal is want of memory.
    pub fn copy(&self) -> Result<PathState, NoMemory>
        ensures { IfOk result (λ path. path ≡ self.now) }
    {
        let cells = self.cells.copy()?;
        let Ok(code) = Arc::try_clone(&self.code) else {
            return Err(NoMemory);
        };
        Ok(PathState {
            code,
            regs: self.regs,
            thread: self.thread,
            ticket: self.ticket,
            cells,
            spot: self.spot,
        })
    }

    /// Where the state stands; `Dead` exactly where its head is `never`. It takes no memory.
    pub fn stop(&self) -> Stop
        ensures told { StandsAt self.now.term result }
        ensures only { (stop : Stop) → StandsAt self.now.term stop → result ≡ stop }
        ensures settled { IsSettled self.now }
        ensures few { HasFewFresh self.now }
    {
        self.spot.stop
    }

    /// Makes the choice at the head, the left part for `true`, and all quiet steps after it. Condition: the
    /// stop is Choice. After a refusal, for want of memory, the state is as before.
    pub fn choose(&mut self, left: bool) -> Result<(), NoMemory>
        requires { IsChoice self.old.term }
        ensures ok { OnOk result (StepsTo self.old (after_choice left self.old.term) self.new) }
        ensures err { OnErr result (self.new ≡ self.old) }
    {
        let posted = Posted {
            code: &self.code,
            regs: &self.regs,
            thread: self.thread,
            ticket: self.ticket,
        };
        self.cells.choose(&posted, &mut self.spot, left)
    }

    /// Goes on from the send at the head with (), and makes all quiet steps after it. Condition: the stop is
    /// Send. After a refusal, for want of memory, the state is as before.
    pub fn sent(&mut self) -> Result<(), NoMemory>
        requires { IsSome (sending self.old.term) }
        ensures ok { OnOk result (StepsTo self.old (after_sending self.old.term) self.new) }
        ensures err { OnErr result (self.new ≡ self.old) }
    {
        let posted = Posted {
            code: &self.code,
            regs: &self.regs,
            thread: self.thread,
            ticket: self.ticket,
        };
        self.cells.sent(&posted, &mut self.spot)
    }

    /// Goes on from the receive at the head with the value, and makes all quiet steps after it. Condition: the
    /// stop is Recv. After a refusal, for want of memory, the state is as before.
    pub fn received(&mut self, value: Value) -> Result<(), NoMemory>
        requires { IsSome (receiving self.old.term) }
        ensures ok { OnOk result (StepsTo self.old (after_receiving value self.old.term) self.new) }
        ensures err { OnErr result (self.new ≡ self.old) }
    {
        let posted = Posted {
            code: &self.code,
            regs: &self.regs,
            thread: self.thread,
            ticket: self.ticket,
        };
        self.cells.received(&posted, &mut self.spot, value)
    }
}
