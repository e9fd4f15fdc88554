// The levels of a search that is kept while its list changes.

ghost use Rattle.std.specs.Prelude.{◌≡◌, ◌≤◌, ◌<◌, ◌+◌, ◌↔◌, length, take, suc, ◌++◌, ◌∷◌, [], slice_get, Some, OnOk, OnErr, IfOk, IsTrue, false};
ghost use Rattle.te_terms.specs.declared.event.Parked.{Parked};
ghost use Rattle.te_search.specs.Stacks.{HasLevels, IsStack, AwaitsPlanting, TellsBetter, IsReady, IsBegun, IsOpened, PlaceIsLow};
ghost use Rattle.te_search.specs.Works.{IsWithinBudget};

use crate::listed::ParkedList;
use crate::planted::PlantedThreads;
use crate::work::Work;
use te_terms::NoMemory;

/// How all stood when an event was planted: the lengths of the work's lists, and how many partial groups were tried.
#[derive(Clone, Copy)]
pub(crate) struct Level {
    pub(crate) moves: usize,
    pub(crate) waiting: usize,
    pub(crate) finals: usize,
    pub(crate) groups: u64,
}

/// The parked events, by rising threads; the threads of those that are planted, in the order of planting, and for each
/// a level; and the work on them. An event is planted only where no other work is left, so each level is a search with
/// nothing left to do, and going back to it takes no memory.
#[derive(Drop)]
pub(crate) struct Stack {
    pub(crate) parked: ParkedList,
    pub(crate) threads: PlantedThreads,
    pub(crate) levels: Vec<Level>,
    pub(crate) work: Work,
}

impl Stack {
    /// Goes back to how all stood when level `i` began.
    pub(crate) fn cut(&mut self, i: usize)
        requires levels { HasLevels self.old }
        requires low { i < length self.old.levels.items }
        ensures stack { IsStack self.new }
        ensures parked { self.new.parked ≡ self.old.parked }
        ensures threads { self.new.threads ≡ take i self.old.threads }
        ensures fewer { length self.new.levels.items ≡ i }
    {
        let level = self.levels[i];
        self.work.store.cut(i);
        self.work.moves.truncate(level.moves);
        self.work.waiting.cut(level.waiting);
        self.work.finals.cut(level.finals);
        self.work.pending.clear();
        self.work.groups = level.groups;
        self.threads.cut(i);
        self.levels.truncate(i);
    }

    /// A place whose event isn't planted, of those the one with the lowest ticket: who has been parked for long is
    /// mostly left alone by what commits, and so stands on a low level.
    pub(crate) fn next(&self) -> Option<usize>
        ensures { AwaitsPlanting self.now.threads self.now.parked result }
    {
        let mut best: Option<usize> = None;
        'places: for i in 0..self.parked.len() {
            if self.is_better(i, best) {
                best = Some(i);
            }
        }
        best
    }

    // Whether the event at a place isn't planted, and has a lower ticket than the best so far.
    fn is_better(&self, i: usize, best: Option<usize>) -> bool
        requires place { i < length self.now.parked }
        requires best { PlaceIsLow self.now.parked best }
        ensures { TellsBetter self.now.threads self.now.parked i best result }
    {
        let parked = self.parked.at(i);
        let earlier = match best {
            Some(b) => parked.ticket < self.parked.at(b).ticket,
            None => true,
        };
        earlier && !self.threads.has(parked.thread)
    }

    // Marks how all stands, where nothing is left to do.
    fn begin(&mut self) -> Result<(), NoMemory>
        requires stack { IsStack self.old }
        ensures ok { OnOk result (IsBegun self.old self.new) }
        ensures err { OnErr result (IsStack self.new) }
        ensures parked { self.new.parked ≡ self.old.parked }
    {
        self.levels.reserve(1)?;
        self.work.store.mark()?;
        self.levels.push_reserved(Level {
            moves: self.work.moves.len(),
            waiting: self.work.waiting.mark(),
            finals: self.work.finals.len(),
            groups: self.work.groups,
        });
        Ok(())
    }

    // Puts and plants the event at a place, where a level has just begun.
    fn plant(&mut self, place: usize) -> Result<(), NoMemory>
        requires begun { IsReady self.old }
        requires left { AwaitsPlanting self.old.threads self.old.parked (Some place) }
        requires room { length self.old.work.store.paths < 2147483648 }
        ensures ok { OnOk result (IsOpened self.old self.new) }
        ensures err { OnErr result (HasLevels self.new) }
        ensures parked { self.new.parked ≡ self.old.parked }
        ensures levels { self.new.levels.items ≡ self.old.levels.items }
    {
        self.work.moves.reserve(1)?;
        self.work.pending.reserve(1)?;
        let parked = self.parked.at(place);
        let count = self.threads.len();
        self.threads.push(parked.thread)?;
        let Ok(()) = self.work.store.put(parked) else {
            self.threads.cut(count);
            return Err(NoMemory);
        };
        let i = count as u32;
        let p = self.work.store.plant(i)?;
        let _made = self.work.store.len();
        self.work.moves.push_reserved(None);
        self.work.pending.push_reserved(p);
        Ok(())
    }

    /// Plants the event at a place on a level of its own. After a refusal, for want of memory, nothing is left to do.
    pub(crate) fn open(&mut self, place: usize) -> Result<(), NoMemory>
        requires stack { IsStack self.old }
        requires left { AwaitsPlanting self.old.threads self.old.parked (Some place) }
        requires room { length self.old.work.store.paths < 2147483648 }
        ensures ok { OnOk result (IsOpened self.old self.new) }
        ensures err { OnErr result (IsStack self.new) }
        ensures parked { self.new.parked ≡ self.old.parked }
    {
        self.begin()?;
        let top = self.levels.len() - 1;
        let Ok(()) = self.plant(place) else {
            self.cut(top);
            return Err(NoMemory);
        };
        Ok(())
    }
}
