// The moves of paths over cells.

ghost use Rattle.std.specs.Prelude.{◌≡◌, cond, ◌<◌, length, IfOk, OnOk, OnErr, IsSome};
ghost use Rattle.te_terms.specs.Terms.{closed};
ghost use Rattle.te_terms.specs.Codes.{term_under};
ghost use Rattle.te_terms.specs.Joint.{after_choice, sending, receiving};
ghost use Rattle.te_terms.specs.Settling.{settled};
ghost use Rattle.te_terms.specs.Steps.{giving, with_head, at_term};
ghost use Rattle.te_path.specs.declared.spot.Stop.TheVariants.{Choice};
ghost use Rattle.te_path.specs.Growth.{AreLinked, Grows};
ghost use Rattle.te_path.specs.Origins.{origin_of, member_at};
ghost use Rattle.te_path.specs.Paths.{StepsTo, after_sending, after_receiving};
ghost use Rattle.te_path.specs.Places.{Alike};
ghost use Rattle.te_path.specs.Spots.{spelled, IsSpot};

use crate::cells::Cells;
use crate::looking::node;
use crate::place::{Place, Went, end, settle};
use crate::posted::Posted;
use crate::spot::{Spot, Stop};
use te_terms::{NoMemory, NodeView, Outcome, Value};

impl Cells {
    /// The path of the event under node `root`, after its quiet steps: the spot spells what the event settles
    /// as for the thread and the ticket. The one refusal is want of memory.
    pub fn start(&mut self, posted: &Posted, root: u32) -> Result<Spot, NoMemory>
        requires root { root < length posted.now.code.now }
        requires linked { AreLinked self.old }
        ensures grows { Grows self.old self.new }
        ensures spot { IfOk result (IsSpot (origin_of posted.now) self.new) }
        ensures settles { IfOk result (λ spot. spelled (origin_of posted.now) self.new spot ≡ settled
            (member_at (origin_of posted.now) 0 (closed posted.now.regs.now (term_under posted.now.code.now root)))) }
    {
        let is_node = root < posted.code.len();
        prove!(is_node);
        let mut spot = Spot {
            stop: Stop::Dead,
            node: 0,
            values: 0,
            frames: 0,
            count: 0,
        };
        let place = Place {
            node: root,
            values: 0,
            frames: 0,
            count: 0,
        };
        settle(self, posted, place, &mut spot)?;
        Ok(spot)
    }

    /// Makes the choice at the head, the left part for `true`, and all quiet steps after it. After a refusal,
    /// for want of memory, the spot is as before.
    pub fn choose(&mut self, posted: &Posted, spot: &mut Spot, left: bool) -> Result<(), NoMemory>
        requires spot { IsSpot (origin_of posted.now) self.old spot.old }
        requires choice { spot.old.stop ≡ Choice }
        ensures grows { Grows self.old self.new }
        ensures spot { OnOk result (IsSpot (origin_of posted.now) self.new spot.new) }
        ensures step { OnOk result (StepsTo (spelled (origin_of posted.now) self.old spot.old)
            (after_choice left (spelled (origin_of posted.now) self.old spot.old).term) (spelled (origin_of posted.now)
            self.new spot.new)) }
        ensures err { OnErr result (spot.new ≡ spot.old) }
    {
        let NodeView::Choose(a, b) = node(posted.code, spot.node - 1) else {
            unreachable!()
        };
        let place = Place {
            node: part(left, a, b),
            values: spot.values,
            frames: spot.frames,
            count: spot.count,
        };
        settle(self, posted, place, spot)
    }

    /// Goes on from the send at the head with (), and makes all quiet steps after it. After a refusal, for want
    /// of memory, the spot is as before.
    pub fn sent(&mut self, posted: &Posted, spot: &mut Spot) -> Result<(), NoMemory>
        requires spot { IsSpot (origin_of posted.now) self.old spot.old }
        requires send { IsSome (sending (spelled (origin_of posted.now) self.old spot.old).term) }
        ensures grows { Grows self.old self.new }
        ensures spot { OnOk result (IsSpot (origin_of posted.now) self.new spot.new) }
        ensures step { OnOk result (StepsTo (spelled (origin_of posted.now) self.old spot.old)
            (after_sending (spelled (origin_of posted.now) self.old spot.old).term) (spelled (origin_of posted.now)
            self.new spot.new)) }
        ensures err { OnErr result (spot.new ≡ spot.old) }
    {
        hand(self, posted, spot, Value::unit())
    }

    /// Goes on from the receive at the head with the value, and makes all quiet steps after it. After a refusal,
    /// for want of memory, the spot is as before.
    pub fn received(
        &mut self,
        posted: &Posted,
        spot: &mut Spot,
        value: Value,
    ) -> Result<(), NoMemory>
        requires spot { IsSpot (origin_of posted.now) self.old spot.old }
        requires receive { IsSome (receiving (spelled (origin_of posted.now) self.old spot.old).term) }
        ensures grows { Grows self.old self.new }
        ensures spot { OnOk result (IsSpot (origin_of posted.now) self.new spot.new) }
        ensures step { OnOk result (StepsTo (spelled (origin_of posted.now) self.old spot.old)
            (after_receiving value (spelled (origin_of posted.now) self.old spot.old).term)
            (spelled (origin_of posted.now) self.new spot.new)) }
        ensures err { OnErr result (spot.new ≡ spot.old) }
    {
        hand(self, posted, spot, value)
    }
}

// Goes on from the head with the value, and makes all quiet steps after it.
fn hand(cells: &mut Cells, posted: &Posted, spot: &mut Spot, value: Value) -> Result<(), NoMemory>
    requires { IsSpot (origin_of posted.now) cells.old spot.old }
    ensures grows { Grows cells.old cells.new }
    ensures spot { OnOk result (IsSpot (origin_of posted.now) cells.new spot.new) }
    ensures alike { OnOk result (Alike (at_term (spelled (origin_of posted.now) cells.old spot.old)
        (with_head (giving value) (spelled (origin_of posted.now) cells.old spot.old).term))
        (spelled (origin_of posted.now) cells.new spot.new)) }
    ensures err { OnErr result (spot.new ≡ spot.old) }
{
    match end(
        cells,
        posted,
        spot.count,
        spot.frames,
        &Outcome::Gives(value),
        spot,
    )? {
        Went::To(place) => settle(cells, posted, place, spot),
        Went::At => Ok(()),
    }
}

fn part(left: bool, a: u32, b: u32) -> u32
    ensures { result ≡ cond left a b }
{
    if left { a } else { b }
}
