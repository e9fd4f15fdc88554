// How paths are made.

ghost use Rattle.std.specs.Prelude.{◌≡◌, ◌<◌, ◌+◌, length, IfOk, OnOk, OnErr, MatchBool};
ghost use Rattle.te_trail.specs.declared.store.Last.TheVariants as lasts;
ghost use Rattle.te_terms.specs.Steps.{Member};
ghost use Rattle.te_path.specs.Growth.{Grows};
ghost use Rattle.te_trail.specs.Records.{SpotSpells, SpotsFace, SpotsMeet};
ghost use Rattle.te_trail.specs.Trails.{IsUnplanted, IsPlanted, IsAtChoice, IsUnmade, IsBranched, AreMeetingEnds, AreAgreeing, AreUnmet, HaveMet};

use crate::planned::Planned;
use crate::store::{Last, PathRecord, TrailStore};
use crate::ticks::{Stretch, Tick, join, raise};
use te_path::{Cells, Spot, Stop};
use te_terms::NoMemory;

#[tactic(auto, using(crate::proofs::RecordsRead::length_paths))]
impl TrailStore {
    /// Makes the first path of event `i`, and answers its number. Conditions: there is such an event, it isn't
    /// planted, and the store has fewer than 2^31 paths. After a refusal, for want of memory, the store is as before.
    pub fn plant(&mut self, i: u32) -> Result<u32, NoMemory>
        requires event { i < length self.old.events }
        requires unplanted { IsUnplanted self.old i }
        requires room { length self.old.paths < 2147483648 }
        ensures number { IfOk result (λ n. n ≡ length self.old.paths) }
        ensures ok { OnOk result (IsPlanted self.old i self.new) }
        ensures err { OnErr result (self.new ≡ self.old) }
    {
        let number = self.records.len() as u32;
        self.records.reserve(1)?;
        let event = &self.events[i as usize];
        let thread = event.thread;
        let spot = event.start(&mut self.cells)?;
        // Named, since the prover plans no copy of an enum that the function doesn't name.
        let _stop: Stop = spot.stop();
        let at = self.ticks.len();
        if at > 4294967294 {
            return Err(NoMemory);
        }
        self.ticks.reserve(1)?;
        self.ticks.push_reserved(Tick {
            thread,
            path: number,
        });
        let clock = Stretch {
            at: at as u32,
            len: 1,
        };
        self.records.push_reserved(PathRecord {
            spot,
            clock,
            parent: 0,
            thread,
            event: i,
            last: Last::Root,
        });
        Ok(number)
    }

    /// Makes the path after a choice, the left part for `true`, and answers its number. Conditions: `p` stands at
    /// Choice, this branch of it isn't made, and the store has fewer than 2^31 paths. After a refusal, for want of
    /// memory, the store is as before.
    pub fn branch(&mut self, p: u32, left: bool) -> Result<u32, NoMemory>
        requires path { p < length self.old.paths }
        requires stands { IsAtChoice self.old p }
        requires unmade { IsUnmade self.old p left }
        requires room { length self.old.paths < 2147483648 }
        ensures number { IfOk result (λ n. n ≡ length self.old.paths) }
        ensures ok { OnOk result (IsBranched self.old p left self.new) }
        ensures err { OnErr result (self.new ≡ self.old) }
    {
        let number = self.records.len() as u32;
        let parent = self.records[p as usize];
        self.records.reserve(1)?;
        let mut spot = parent.spot;
        // Named, since the prover plans no copy of an enum that the function doesn't name.
        let _stop: Stop = spot.stop();
        let event = &self.events[parent.event as usize];
        event.choose(&mut self.cells, &mut spot, left)?;
        let own = Tick {
            thread: parent.thread,
            path: number,
        };
        let clock = raise(&mut self.ticks, parent.clock, own)?;
        self.records.push_reserved(PathRecord {
            spot,
            clock,
            parent: p,
            thread: parent.thread,
            event: parent.event,
            last: side(left),
        });
        Ok(number)
    }

    /// Makes both paths of a meeting, and answers their numbers, the sender's first. Conditions: `p` stands at Send
    /// and `q` at Recv of one channel, they agree, this pair hasn't met, and the store has fewer than 2^31 paths.
    /// After a refusal, for want of memory, neither path is made and the store is as before.
    pub fn meet(&mut self, p: u32, q: u32) -> Result<(u32, u32), NoMemory>
        requires sender { p < length self.old.paths }
        requires receiver { q < length self.old.paths }
        requires stand { AreMeetingEnds self.old p q }
        requires agree { AreAgreeing self.old p q }
        requires unmet { AreUnmet self.old p q }
        requires room { length self.old.paths < 2147483648 }
        ensures numbers { IfOk result (λ ns. (ns.0 ≡ length self.old.paths) × (ns.1 ≡ length self.old.paths + 1)) }
        ensures ok { OnOk result (HaveMet self.old p q self.new) }
        ensures err { OnErr result (self.new ≡ self.old) }
    {
        let number = self.records.len() as u32;
        let sender = self.records[p as usize];
        let receiver = self.records[q as usize];
        self.records.reserve(2)?;
        // Named, since the prover plans no copy of an enum that the function doesn't name.
        let _stop: Stop = sender.spot.stop();
        let spots = hand_over(&self.events, &mut self.cells, &sender, &receiver)?;
        let one = Tick {
            thread: sender.thread,
            path: number,
        };
        let two = Tick {
            thread: receiver.thread,
            path: number + 1,
        };
        let clock = join(&mut self.ticks, sender.clock, receiver.clock, one, two)?;
        self.records.push_reserved(PathRecord {
            spot: spots.0,
            clock,
            parent: p,
            thread: sender.thread,
            event: sender.event,
            last: Last::Sender,
        });
        self.records.push_reserved(PathRecord {
            spot: spots.1,
            clock,
            parent: q,
            thread: receiver.thread,
            event: receiver.event,
            last: Last::Receiver,
        });
        Ok((number, number + 1))
    }
}

// The spots of both ends after a meeting.
fn hand_over(
    events: &[Planned],
    cells: &mut Cells,
    sender: &PathRecord,
    receiver: &PathRecord,
) -> Result<(Spot, Spot), NoMemory>
    requires sender { (a : Member) × SpotSpells events.now cells.old sender.now.event sender.now.spot a }
    requires receiver { (b : Member) × SpotSpells events.now cells.old receiver.now.event receiver.now.spot b }
    requires face { SpotsFace events.now cells.old sender.now.event sender.now.spot receiver.now.event receiver.now.spot }
    ensures grows { Grows cells.old cells.new }
    ensures met { IfOk result (λ spots. SpotsMeet events.now cells.old cells.new sender.now.event sender.now.spot spots.0 receiver.now.event receiver.now.spot spots.1) }
{
    let Stop::Send(_, value) = sender.spot.stop() else {
        unreachable!()
    };
    let mut sender_spot = sender.spot;
    let mut receiver_spot = receiver.spot;
    events[sender.event as usize].sent(cells, &mut sender_spot)?;
    events[receiver.event as usize].received(cells, &mut receiver_spot, value)?;
    Ok((sender_spot, receiver_spot))
}

fn side(left: bool) -> Last
    ensures { MatchBool left (result ≡ lasts.Left) (result ≡ lasts.Right) }
{
    if left { Last::Left } else { Last::Right }
}
