// Parked events in a list that is cheap to change.

ghost use Rattle.std.specs.Prelude.{◌≡◌, ◌≤◌, ◌<◌, [], length, Some, slice_get, MatchOption, IfOk, OnOk, OnErr};
ghost use Rattle.std.specs.List.{insert, remove};
ghost use Rattle.te_search.specs.Findings.{HasThread};
ghost use Rattle.te_search.specs.Stacks.{IsPlaceFor, IsPlaceWith};

use std::alloc::Global;
use std::boxed::Box;
use std::marker::Model;
use te_terms::{NoMemory, Parked};

/// Parked events, each in a block of its own: none is moved where one is put in or taken out. It is seen as their list.
#[derive(Drop)]
pub(crate) struct ParkedList {
    alloc: Global,
    blocks: Vec<Box<Parked>>,
}

impl Model for ParkedList {
    ghost use Rattle.std.specs.Prelude.{List, map};
    ghost use Rattle.std.specs.Coded.{coded_list};
    ghost use Rattle.te_terms.specs.declared.event.Parked.{Parked};
    ghost use Rattle.te_terms.specs.contracts.event.Parked as row;

    ghost Value = { List Parked };

    ghost coded = { coded_list row.the_row.coded };

    ghost view = { λ l. map (λ b. b.value) l.blocks.items };
}

impl ParkedList {
    pub(crate) fn new(alloc: Global) -> ParkedList
        ensures { result ≡ [] }
    {
        ParkedList {
            alloc,
            blocks: Vec::new(alloc),
        }
    }

    pub(crate) fn len(&self) -> usize
        ensures { result ≡ length self.now }
    {
        self.blocks.len()
    }

    /// The event at a place.
    pub(crate) fn at(&self, i: usize) -> &Parked
        requires { i < length self.now }
        ensures { slice_get self.now i ≡ Some result.now }
    {
        self.blocks[i].as_ref()
    }

    /// The same events once more, which are shared.
    pub(crate) fn copies(&self, alloc: Global) -> Result<Vec<Parked>, NoMemory>
        ensures { IfOk result (λ parked. parked.items ≡ self.now) }
    {
        let mut parked = Vec::new(alloc);
        'parked: for i in 0..self.len() {
            let one = self.at(i);
            let event = one.event.copy()?;
            parked.push(Parked {
                thread: one.thread,
                ticket: one.ticket,
                event,
            })?;
        }
        Ok(parked)
    }

    /// The place that a new thread is to have.
    pub(crate) fn place_for(&self, thread: u32) -> usize
        ensures { IsPlaceFor self.now thread result }
    {
        'places: for i in 0..self.len() {
            if thread < self.at(i).thread {
                return i;
            }
        }
        self.len()
    }

    /// The place of a thread.
    pub(crate) fn place(&self, thread: u32) -> Option<usize>
        ensures { MatchOption result (¬ HasThread self.now thread) (λ i. IsPlaceWith self.now thread i) }
    {
        'places: for i in 0..self.len() {
            if self.at(i).thread == thread {
                return Some(i);
            }
        }
        None
    }

    /// Puts an event in before the one at a place, or behind all.
    pub(crate) fn insert(&mut self, i: usize, parked: Parked) -> Result<(), NoMemory>
        requires { i ≤ length self.old }
        ensures ok { OnOk result (self.new ≡ insert self.old i parked) }
        ensures err { OnErr result (self.new ≡ self.old) }
    {
        let block = Box::new(self.alloc, parked)?;
        self.blocks.insert(i, block)?;
        Ok(())
    }

    /// Takes the event at a place out.
    pub(crate) fn remove(&mut self, i: usize)
        requires { i < length self.old }
        ensures { self.new ≡ remove self.old i }
    {
        let _gone = self.blocks.remove(i);
    }
}
