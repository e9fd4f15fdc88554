ghost use Rattle.std.specs.Prelude.{ℕ, ◌≡◌, ◌+◌, ◌<◌, ◌≤◌, ◌^◌, [], length, slice_get, IfOk, OnOk, OnErr};
ghost use Rattle.std.specs.Option.{option_copied};
ghost use Rattle.te_terms.specs.Limits.{most_threads};
ghost use Rattle.te_history.specs.declared.status.Status.TheVariants.{Parked};
ghost use Rattle.te_history.specs.State.{parked, posts_by};
ghost use Rattle.te_history.specs.Follows.{Stands, LooselyFollows, IsLoose};
ghost use Rattle.te_history.specs.Histories.{History, now, pushed, HasStatus, phase_of};

use crate::entry::Entry;
use crate::seat::{Seat, idle_seats, phase_after, resting_after, sit};
use crate::status::{Phase, Status};
use std::alloc::Global;
use std::marker::Model;
use te_terms::{Event, NoMemory};

/// A history: the entries of its callers, each of which follows loosely those before it. Contracts see the number of
/// callers, the entries, and the spare room for more. Histories and their entries are this project's own.
#[derive(Drop)]
pub struct Hist {
    entries: Vec<Entry>,
    seats: Vec<Seat>,
    phase: Phase,
    resting: bool,
}

impl Model for Hist {
    ghost use Rattle.te_history.specs.Histories.{History};

    ghost Value = { History };

    ghost use Rattle.te_history.specs.HistoryCode.{history_code};

    ghost coded = { history_code };

    ghost use Rattle.std.specs.Prelude.{◌-◌, length};
    ghost use Rattle.std.specs.Vec.{vec_capacity, vec_len};
    ghost use Rattle.te_history.specs.Kept.{StateIsKept};

    ghost view = { λ h. record { callers = length h.seats.items; entries = h.entries.items; spare = vec_capacity h.entries - vec_len h.entries } };

    ghost invariant = { λ h. StateIsKept h.entries.items h.seats.items h.phase h.resting };
}

impl Hist {
    /// The history of so many callers with no entry and no spare room. Condition: 1 to 64 callers. Refused for want of
    /// memory alone.
    pub fn new(alloc: Global, callers: u32) -> Result<Hist, NoMemory>
        requires some { 1 ≤ callers }
        requires few { callers ≤ most_threads }
        ensures { IfOk result (λ hist. hist ≡ record { callers = callers; entries = []; spare = 0 }) }
    {
        let seats = idle_seats(alloc, callers)?;
        Ok(Hist {
            entries: Vec::new(alloc),
            seats,
            phase: Phase::Running,
            resting: false,
        })
    }

    /// Makes the spare room at least `more`; callers and entries stay. Refused for want of memory alone, and the history
    /// is then as it was.
    pub fn reserve(&mut self, more: usize) -> Result<(), NoMemory>
        ensures callers { self.new.callers ≡ self.old.callers }
        ensures entries { self.new.entries ≡ self.old.entries }
        ensures grows { self.old.spare ≤ self.new.spare }
        ensures ok { OnOk result (more ≤ self.new.spare) }
        ensures err { OnErr result (self.new ≡ self.old) }
    {
        self.entries.reserve(more)?;
        Ok(())
    }

    /// Appends an entry, in the spare room; it takes no memory. Condition: the entry follows loosely, there is spare
    /// room, and there are fewer than 2^31 entries.
    pub fn push(&mut self, entry: Entry)
        requires follows { LooselyFollows self.old.callers self.old.entries entry }
        requires spare { 1 ≤ self.old.spare }
        requires few { length self.old.entries < 2 ^ 31 }
        ensures { self.new ≡ pushed self.old entry }
    {
        let place = self.entries.len();
        self.entries.push_reserved(entry);
        let entry = &self.entries[place];
        sit(&mut self.seats, place as u32, entry);
        self.phase = phase_after(self.phase, entry);
        self.resting = resting_after(self.resting, entry);
    }

    /// The number of callers, 1 to 64.
    pub fn callers(&self) -> u32
        ensures value { result ≡ self.now.callers }
        ensures some { 1 ≤ self.now.callers }
        ensures few { self.now.callers ≤ most_threads }
    {
        self.seats.len() as u32
    }

    /// The number of entries, at most 2^31.
    pub fn len(&self) -> u64
        ensures value { result ≡ length self.now.entries }
        ensures few { length self.now.entries ≤ 2 ^ 31 }
        ensures loose { IsLoose self.now.callers self.now.entries }
    {
        self.entries.len() as u64
    }

    /// The entry at place `i`, from 0; `None` exactly where there are no more.
    pub fn get(&self, i: u64) -> Option<&Entry>
        ensures { option_copied result ≡ slice_get self.now.entries i }
    {
        self.entries.get(i as usize)
    }

    /// Where a caller stands. Condition: `t` is below the number of callers.
    pub fn status(&self, t: u32) -> Status
        requires { t < self.now.callers }
        ensures { HasStatus (now self.now) t result }
    {
        self.seats[t as usize].status
    }

    /// The ticket of a caller's next post, which is how often it has posted. Condition: `t` is below the number of callers.
    /// It takes constant time.
    #[doc(hidden)]
    pub fn posts(&self, t: u32) -> u32
        requires { t < self.now.callers }
        ensures { result ≡ posts_by t self.now.entries }
    {
        self.seats[t as usize].posts
    }

    /// The event that a caller is parked with, where it lies among the entries. Condition: the caller is parked. It takes
    /// constant time.
    #[doc(hidden)]
    pub fn parked_event(&self, t: u32) -> &Event
        requires { (ticket : ℕ) × HasStatus (now self.now) t (Parked ticket) }
        ensures { (ticket : ℕ) → HasStatus (now self.now) t (Parked ticket) → Stands (now self.now) t (parked ticket result.now) }
    {
        let place = self.seats[t as usize].place;
        let Entry::Post { event, .. } = &self.entries[place as usize] else {
            unreachable!()
        };
        event
    }

    /// Whether the board is stuck.
    pub fn phase(&self) -> Phase
        ensures { result ≡ phase_of (now self.now) }
    {
        self.phase
    }

    /// Whether the board is resting.
    pub fn resting(&self) -> bool
        ensures { result ≡ (now self.now).resting }
    {
        self.resting
    }
}
