ghost use Rattle.std.specs.Prelude.{◌≡◌, ◌<◌, length, IfOk, OnOk, OnErr, Some, None, []};
ghost use Rattle.te_terms.specs.Joint.{IsGroup, as_group, as_member, member_of};
ghost use Rattle.te_trail.specs.Stores.{IsStore};
ghost use Rattle.te_trail.specs.Trails.{unplanted, with_event, with_mark, IsCut};

use crate::planned::Planned;
use crate::ticks::{Stretch, Tick};
use std::alloc::Global;
use std::marker::Model;
use std::sync::Arc;
use te_path::{CellMark, Cells, Spot};
use te_terms::{NoMemory, Parked};

/// The move that made a path.
#[derive(Clone, Copy)]
pub(crate) enum Last {
    Root,
    Left,
    Right,
    Sender,
    Receiver,
}

/// A path: where it stands, its clock, the number of its parent (0 where it has none), its thread, the place of its
/// event, and its last move. The two ends of a meeting stand one after the other, the sender's first.
#[derive(Clone, Copy)]
pub(crate) struct PathRecord {
    pub(crate) spot: Spot,
    pub(crate) clock: Stretch,
    pub(crate) parent: u32,
    pub(crate) thread: u32,
    pub(crate) event: u32,
    pub(crate) last: Last,
}

/// How long the lists were.
#[derive(Clone, Copy)]
pub(crate) struct StoreMark {
    pub(crate) events: usize,
    pub(crate) cells: CellMark,
    pub(crate) paths: usize,
    pub(crate) ticks: usize,
}

/// Paths of parked events: partial runs of single threads, each resting on a past of choices and meetings. It is
/// seen as the events that it was made for, and the list of its paths, oldest first; each path is a tree (planted,
/// branched, or an end of a meeting), with no number and no clock. Choices and meetings are those of Donnelly and
/// Fluet, Transactional Events, JFP 18(5-6), 2008; paths and clocks are this project's own.
#[derive(Drop)]
pub struct TrailStore {
    pub(crate) events: Vec<Planned>,
    pub(crate) cells: Cells,
    pub(crate) records: Vec<PathRecord>,
    pub(crate) ticks: Vec<Tick>,
    pub(crate) marks: Vec<StoreMark>,
}

impl Model for TrailStore {
    ghost use Rattle.std.specs.Prelude.{map};
    ghost use Rattle.te_trail.specs.Trails.{Trail};
    ghost use Rattle.te_trail.specs.Stored.{coded_trail};

    ghost Value = { Trail };

    ghost coded = { coded_trail };

    ghost use Rattle.te_trail.specs.Records.{members_of, paths_of, mark_seen, StoreIsWhole};

    ghost view = { λ s. record { events = members_of s.events.items; paths = paths_of s.records.items; marks = map mark_seen s.marks.items } };

    ghost invariant = { λ s. StoreIsWhole s.events.items s.cells s.records.items s.ticks.items s.marks.items };
}

#[tactic(auto, using(crate::proofs::RecordsRead::length_paths))]
impl TrailStore {
    /// A store of these events, with no path. Condition: threads rise strictly. The one refusal is want of memory.
    pub fn new(alloc: Global, parked: &[Parked]) -> Result<TrailStore, NoMemory>
        requires rising { IsGroup (as_group parked.now) }
        ensures { IfOk result (λ store. store ≡ unplanted (as_group parked.now)) }
    {
        let mut store = TrailStore {
            events: Vec::new(alloc),
            cells: Cells::new(alloc),
            records: Vec::new(alloc),
            ticks: Vec::new(alloc),
            marks: Vec::new(alloc),
        };
        'events: for i in 0..parked.len() {
            store.put(&parked[i])?;
        }
        Ok(store)
    }

    /// Puts one more event, which can be planted then. Condition: its thread has none. After a refusal, for want of
    /// memory, the store is as before. It is public for the crates above alone.
    #[doc(hidden)]
    pub fn put(&mut self, parked: &Parked) -> Result<(), NoMemory>
        requires new { member_of parked.now.thread self.old.events ≡ None }
        ensures ok { OnOk result (self.new ≡ with_event self.old (as_member parked.now)) }
        ensures err { OnErr result (self.new ≡ self.old) }
    {
        let (code, root, regs) = parked.event.parts();
        let Ok(code) = Arc::try_clone(code) else {
            return Err(NoMemory);
        };
        self.events.reserve(1)?;
        self.events.push_reserved(Planned {
            code,
            root,
            regs: *regs,
            thread: parked.thread,
            ticket: parked.ticket,
        });
        Ok(())
    }

    /// The number of paths. What is told of the store holds of every store.
    pub fn len(&self) -> u32
        ensures number { result ≡ length self.now.paths }
        ensures store { IsStore self.now.events self.now.paths }
    {
        self.records.len() as u32
    }

    /// Marks how many events and paths there are, and answers the mark's number, from 0. After a refusal, for want
    /// of memory, the store is as before. It is public for the crates above alone.
    #[doc(hidden)]
    pub fn mark(&mut self) -> Result<usize, NoMemory>
        ensures number { IfOk result (λ n. n ≡ length self.old.marks) }
        ensures ok { OnOk result (self.new ≡ with_mark self.old) }
        ensures err { OnErr result (self.new ≡ self.old) }
    {
        let number = self.marks.len();
        self.marks.reserve(1)?;
        self.marks.push_reserved(StoreMark {
            events: self.events.len(),
            cells: self.cells.mark(),
            paths: self.records.len(),
            ticks: self.ticks.len(),
        });
        Ok(number)
    }

    /// Goes back to mark `i`: the events that were put since, the paths that were made since and the later marks go
    /// away, and mark `i` with them. Condition: there is such a mark. It is public for the crates above alone.
    #[doc(hidden)]
    pub fn cut(&mut self, i: usize)
        requires { i < length self.old.marks }
        ensures { IsCut self.old i self.new }
    {
        let mark = self.marks[i];
        self.events.truncate(mark.events);
        self.cells.cut(mark.cells);
        self.records.truncate(mark.paths);
        self.ticks.truncate(mark.ticks);
        self.marks.truncate(i);
    }
}
