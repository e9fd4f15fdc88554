// A search for a group among parked events, event by event.

ghost use Rattle.std.specs.Prelude.{◌≡◌, ◌≢◌, ◌≤◌, ◌<◌, ◌↔◌, ◌+◌, ℕ, length, take, Ok, Err, Some, None, IfOk, IfSome, IsTrue};
ghost use Rattle.te_cert.specs.Certificates.{Certificate};
ghost use Rattle.te_terms.specs.Joint.{IsGroup, as_group, CanCommit};
ghost use Rattle.te_search.specs.Bounds.{enough_for};
ghost use Rattle.te_search.specs.Findings.{IsGroupOf, IsUsedUp, IsBudget};
ghost use Rattle.te_search.specs.Stacks.{HasLevels, IsStack, AwaitsPlanting, IsOpened, IsExploring, count_left};
ghost use Rattle.te_search.specs.Works.{IsWithinBudget, IsHit};
ghost use Rattle.te_search.specs.Assemblies.{AreNone};
ghost use Rattle.te_search.specs.Picks.{HasNoneBelow};
ghost use Rattle.te_search.specs.declared.finding.SearchFault.TheVariants as faults;
ghost use Rattle.te_search.specs.declared.finding.Found.TheVariants as answers;

use crate::assembly::Refused;
use crate::certifying::{Group, certify};
use crate::stack::Stack;
use crate::work::Work;
use std::alloc::Global;
use te_cert::Cert;
use te_terms::{NoMemory, Parked};
use te_trail::TrailStore;

/// What a search of parked events finds: the certificate of a group, or nothing.
#[derive(Drop)]
pub enum Found {
    /// These members reduce together, and can't be split into two parts with no meeting between them.
    Group(Cert),
    /// No part of the list reduces.
    Blocked,
}

/// Why a search was refused.
#[derive(Clone, Copy, Debug, PartialEq, Eq)]
pub enum SearchFault {
    /// The next step would make paths and partial groups more than the budget: so many paths were made and so many partial
    /// groups tried, together the budget or one less.
    Spent { paths: u64, groups: u64 },
    /// Want of memory.
    Memory,
}

// The first place of a joined past that names a path.
fn named_from(joined: &[Option<u32>]) -> usize
    ensures { AreNone (take result joined.now) }
{
    'places: for i in 0..joined.len() {
        match joined[i] {
            Some(_) => return i,
            None => {}
        }
    }
    joined.len()
}

impl Work {
    // Whether paths and partial groups are at most the budget.
    fn is_within(&self, budget: u64) -> bool
        ensures { IsTrue result ↔ IsWithinBudget self.now budget }
    {
        self.groups <= budget && self.store.len() as u64 <= budget - self.groups
    }
}

impl Stack {
    // How much is used.
    fn spent(&self) -> SearchFault
        ensures { result ≡ faults.Spent (length self.now.work.store.paths) self.now.work.groups }
    {
        SearchFault::Spent {
            paths: self.work.store.len() as u64,
            groups: self.work.groups,
        }
    }

    // Goes back until paths and partial groups are at most the budget.
    fn cut_within(&mut self, budget: u64)
        requires { IsStack self.old }
        ensures stack { IsStack self.new }
        ensures within { IsWithinBudget self.new.work budget }
        ensures parked { self.new.parked ≡ self.old.parked }
    {
        'levels: while !self.work.is_within(budget) {
            let count = self.levels.len();
            if count == 0 {
                return;
            }
            self.cut(count - 1);
        }
    }

    // How many paths there were when the first event of a joined past was planted: none of them has a move of it.
    fn first_path(&self, joined: &[Option<u32>]) -> u32
        requires levels { HasLevels self.now }
        requires hit { IsHit self.now.work self.now.threads joined.now }
        ensures low { result ≤ length self.now.work.store.paths }
        ensures none { HasNoneBelow self.now.work.store.events self.now.work.store.paths self.now.threads joined.now result }
    {
        let _paths = self.work.store.len();
        let i = named_from(joined);
        if i < self.levels.len() {
            let level = &self.levels[i];
            level.moves as u32
        } else {
            0
        }
    }

    // The group of a joined past that was found. Then its level is gone, as the search that found it isn't whole.
    fn take(
        &mut self,
        alloc: Global,
        level: usize,
        joined: &[Option<u32>],
    ) -> Result<Option<Group>, SearchFault>
        requires levels { HasLevels self.old }
        requires low { level < length self.old.levels.items }
        requires hit { IsHit self.old.work self.old.threads joined.now }
        ensures stack { IsStack self.new }
        ensures parked { self.new.parked ≡ self.old.parked }
        ensures some { result ≡ Ok None → ⊥ }
        ensures group { IfOk result (λ found. IfSome found (λ group. IsGroupOf self.old.parked group.cert group.outcomes)) }
        ensures spent { (paths groups : ℕ) → result ≡ Err (faults.Spent paths groups) → ⊥ }
    {
        let first = self.first_path(joined);
        let group = certify(
            alloc,
            &self.parked,
            &self.work,
            &self.threads,
            joined,
            first,
        );
        self.cut(level);
        match group {
            Ok(group) => Ok(Some(group)),
            Err(_) => Err(SearchFault::Memory),
        }
    }

    // Does all work on the event that was just planted: a group that it is in, where there is one. Then, and after a
    // refusal, its level is gone.
    fn explore(&mut self, alloc: Global, budget: u64) -> Result<Option<Group>, SearchFault>
        requires exploring { IsExploring self.old }
        requires within { IsWithinBudget self.old.work budget }
        requires budget { IsBudget budget }
        ensures stack { IsStack self.new }
        ensures parked { self.new.parked ≡ self.old.parked }
        ensures none { result ≡ Ok None → (self.new.threads ≡ self.old.threads) × IsWithinBudget self.new.work budget }
        ensures group { IfOk result (λ found. IfSome found (λ group. IsGroupOf self.old.parked group.cert group.outcomes)) }
        ensures spent { (paths groups : ℕ) → result ≡ Err (faults.Spent paths groups) → IsUsedUp self.old.parked budget paths groups }
    {
        let top = self.levels.len() - 1;
        match self.work.settle(alloc, self.threads.as_slice(), budget) {
            Ok(None) => Ok(None),
            Ok(Some(joined)) => self.take(alloc, top, &joined),
            Err(Refused::Spent) => {
                let spent = self.spent();
                self.cut(top);
                Err(spent)
            }
            Err(Refused::Memory) => {
                self.cut(top);
                Err(SearchFault::Memory)
            }
        }
    }

    // Plants the event at a place, and does all work on it.
    fn advance(
        &mut self,
        alloc: Global,
        place: usize,
        budget: u64,
    ) -> Result<Option<Group>, SearchFault>
        requires stack { IsStack self.old }
        requires left { AwaitsPlanting self.old.threads self.old.parked (Some place) }
        requires within { IsWithinBudget self.old.work budget }
        requires budget { IsBudget budget }
        ensures stack { IsStack self.new }
        ensures parked { self.new.parked ≡ self.old.parked }
        ensures none { result ≡ Ok None → (count_left self.new.threads self.new.parked < count_left self.old.threads self.old.parked) × IsWithinBudget self.new.work budget }
        ensures group { IfOk result (λ found. IfSome found (λ group. IsGroupOf self.old.parked group.cert group.outcomes)) }
        ensures spent { (paths groups : ℕ) → result ≡ Err (faults.Spent paths groups) → IsUsedUp self.old.parked budget paths groups }
    {
        if self.work.left(budget) == 0 {
            return Err(self.spent());
        }
        let Ok(()) = self.open(place) else {
            return Err(SearchFault::Memory);
        };
        self.explore(alloc, budget)
    }

    /// A group among the parked events, planting those that aren't planted yet. After each answer nothing is left to do
    /// on what is planted.
    pub(crate) fn search(
        &mut self,
        alloc: Global,
        budget: u64,
    ) -> Result<Option<Group>, SearchFault>
        requires stack { IsStack self.old }
        requires budget { IsBudget budget }
        ensures stack { IsStack self.new }
        ensures parked { self.new.parked ≡ self.old.parked }
        ensures group { IfOk result (λ found. IfSome found (λ group. IsGroupOf self.old.parked group.cert group.outcomes)) }
        ensures blocked { result ≡ Ok None → ¬ CanCommit self.old.parked }
        ensures spent { (paths groups : ℕ) → result ≡ Err (faults.Spent paths groups) → IsUsedUp self.old.parked budget paths groups }
        ensures enough { enough_for (as_group self.old.parked) ≤ budget → (paths groups : ℕ) → result ≢ Err (faults.Spent paths groups) }
    {
        self.cut_within(budget);
        'events: while let Some(place) = self.next() {
            match self.advance(alloc, place, budget) {
                Ok(None) => {}
                Ok(Some(group)) => return Ok(Some(group)),
                Err(fault) => return Err(fault),
            }
        }
        Ok(None)
    }
}
