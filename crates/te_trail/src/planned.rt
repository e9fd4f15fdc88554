// The events of a store.

ghost use Rattle.std.specs.Prelude.{◌≡◌, ◌<◌, length, IfOk, OnOk, OnErr, IsSome};
ghost use Rattle.te_terms.specs.Joint.{after_choice, sending, receiving};
ghost use Rattle.te_terms.specs.Settling.{settled};
ghost use Rattle.te_path.specs.declared.spot.Stop.TheVariants.{Choice};
ghost use Rattle.te_path.specs.Growth.{AreLinked, Grows};
ghost use Rattle.te_path.specs.Paths.{StepsTo, after_sending, after_receiving};
ghost use Rattle.te_path.specs.Spots.{spelled, IsSpot};
ghost use Rattle.te_trail.specs.Records.{origin_at, member_of_event};

use std::sync::Arc;
use te_path::{Cells, Posted, Spot};
use te_terms::{EventCode, NoMemory, Value};

/// The event of a thread, once for all its paths.
#[derive(Drop)]
pub(crate) struct Planned {
    pub(crate) code: Arc<EventCode>,
    pub(crate) root: u32,
    pub(crate) regs: [Value; 8],
    pub(crate) thread: u32,
    pub(crate) ticket: u32,
}

impl Planned {
    /// Its first path.
    pub(crate) fn start(&self, cells: &mut Cells) -> Result<Spot, NoMemory>
        requires root { self.now.root < length self.now.code.value }
        requires linked { AreLinked cells.old }
        ensures grows { Grows cells.old cells.new }
        ensures spot { IfOk result (IsSpot (origin_at self.now) cells.new) }
        ensures settles { IfOk result (λ spot. spelled (origin_at self.now) cells.new spot ≡ settled (member_of_event self.now)) }
    {
        let posted = Posted {
            code: &self.code,
            regs: &self.regs,
            thread: self.thread,
            ticket: self.ticket,
        };
        cells.start(&posted, self.root)
    }

    /// The path after a choice.
    pub(crate) fn choose(
        &self,
        cells: &mut Cells,
        spot: &mut Spot,
        left: bool,
    ) -> Result<(), NoMemory>
        requires spot { IsSpot (origin_at self.now) cells.old spot.old }
        requires choice { spot.old.stop ≡ Choice }
        ensures grows { Grows cells.old cells.new }
        ensures spot { OnOk result (IsSpot (origin_at self.now) cells.new spot.new) }
        ensures step { OnOk result (StepsTo (spelled (origin_at self.now) cells.old spot.old)
            (after_choice left (spelled (origin_at self.now) cells.old spot.old).term)
            (spelled (origin_at self.now) cells.new spot.new)) }
    {
        let posted = Posted {
            code: &self.code,
            regs: &self.regs,
            thread: self.thread,
            ticket: self.ticket,
        };
        cells.choose(&posted, spot, left)
    }

    /// The path after a send.
    pub(crate) fn sent(&self, cells: &mut Cells, spot: &mut Spot) -> Result<(), NoMemory>
        requires spot { IsSpot (origin_at self.now) cells.old spot.old }
        requires send { IsSome (sending (spelled (origin_at self.now) cells.old spot.old).term) }
        ensures grows { Grows cells.old cells.new }
        ensures spot { OnOk result (IsSpot (origin_at self.now) cells.new spot.new) }
        ensures step { OnOk result (StepsTo (spelled (origin_at self.now) cells.old spot.old)
            (after_sending (spelled (origin_at self.now) cells.old spot.old).term)
            (spelled (origin_at self.now) cells.new spot.new)) }
    {
        let posted = Posted {
            code: &self.code,
            regs: &self.regs,
            thread: self.thread,
            ticket: self.ticket,
        };
        cells.sent(&posted, spot)
    }

    /// The path after a receive.
    pub(crate) fn received(
        &self,
        cells: &mut Cells,
        spot: &mut Spot,
        value: Value,
    ) -> Result<(), NoMemory>
        requires spot { IsSpot (origin_at self.now) cells.old spot.old }
        requires receive { IsSome (receiving (spelled (origin_at self.now) cells.old spot.old).term) }
        ensures grows { Grows cells.old cells.new }
        ensures spot { OnOk result (IsSpot (origin_at self.now) cells.new spot.new) }
        ensures step { OnOk result (StepsTo (spelled (origin_at self.now) cells.old spot.old)
            (after_receiving value (spelled (origin_at self.now) cells.old spot.old).term)
            (spelled (origin_at self.now) cells.new spot.new)) }
    {
        let posted = Posted {
            code: &self.code,
            regs: &self.regs,
            thread: self.thread,
            ticket: self.ticket,
        };
        cells.received(&posted, spot, value)
    }
}
