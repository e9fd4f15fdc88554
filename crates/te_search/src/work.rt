// The work of a search: paths that are still to be worked on, waiting ends, and final paths.

ghost use Rattle.std.specs.Prelude.{◌≡◌, ◌≤◌, ◌<◌, ◌+◌, length, ◌∷◌, [], Err, OnOk, slice_get, Some, MatchBool, IfOk, IsOk};
ghost use Rattle.te_trail.specs.Paths.{Path, branched, sent, got};
ghost use Rattle.te_search.specs.declared.assembly.Refused.TheVariants as refusals;
ghost use Rattle.te_search.specs.Works.{AreLow, IsWork, IsWorkOn, IsWithinBudget, RunsShort, IsSpentAt};
ghost use Rattle.te_search.specs.Works.{Gains, CanMeet, met_paths, WaitsOn, IsReadyFor, MeetsOne, HasMet, StepEndsSo, threads_of, WorkGrows, SettlesSo, WorkKeeps};
ghost use Rattle.te_search.specs.Groups.{IsFinal};
ghost use Rattle.te_trail.specs.Stores.{IsStore};
ghost use Rattle.te_trail.specs.Trails.{IsAtChoice, IsUnmade, AreMeetingEnds, AreAgreeing, AreUnmet};

use crate::assembly::{Refused, assemble, lacks_one, past_of};
use crate::finals::Finals;
use std::alloc::Global;
use te_pair::Waiting;
use te_path::Stop;
use te_trail::{Move, TrailStore};

/// A search of the events of its store: the paths made so far and their moves (told by the first end of a meeting
/// alone), those that are still to be worked on, those that wait, those that are final in the order of assembling, and
/// how many partial groups were tried.
#[derive(Drop)]
pub(crate) struct Work {
    pub(crate) store: TrailStore,
    pub(crate) moves: Vec<Option<Move>>,
    pub(crate) pending: Vec<u32>,
    pub(crate) waiting: Waiting,
    pub(crate) finals: Finals,
    pub(crate) groups: u64,
}

impl Work {
    // What is left of the budget.
    pub(crate) fn left(&self, budget: u64) -> u64
        requires { IsWithinBudget self.now budget }
        ensures left { result + (length self.now.store.paths + self.now.groups) ≡ budget }
        ensures store { IsStore self.now.store.events self.now.store.paths }
    {
        budget - (self.store.len() as u64 + self.groups)
    }

    /// Makes one branch of a path, the left part for `true`.
    pub(crate) fn branch_one(&mut self, p: u32, left: bool, budget: u64) -> Result<(), Refused>
        requires within { IsWithinBudget self.old budget }
        requires few { budget ≤ 1000000 }
        requires path { p < length self.old.store.paths }
        requires stands { IsAtChoice self.old.store p }
        requires unmade { IsUnmade self.old.store p left }
        requires low { AreLow self.old.store.paths self.old.pending.items }
        ensures keeps { WorkKeeps self.old self.new }
        ensures ok { OnOk result ((x : Path) → slice_get self.old.store.paths p ≡ Some x → Gains self.old self.new (branched x left ∷ [])) }
        ensures within { OnOk result (IsWithinBudget self.new budget) }
        ensures spent { result ≡ Err refusals.Spent → (self.new ≡ self.old) × RunsShort self.old budget }
    {
        if self.left(budget) == 0 {
            return Err(Refused::Spent);
        }
        let thread = self.store.thread(p);
        if self.pending.reserve(1).is_err() {
            return Err(Refused::Memory);
        }
        if self.moves.reserve(1).is_err() {
            return Err(Refused::Memory);
        }
        let Ok(number) = self.store.branch(p, left) else {
            return Err(Refused::Memory);
        };
        let _paths = self.store.len();
        self.pending.push_reserved(number);
        self.moves
            .push_reserved(Some(Move::Branch { thread, left }));
        Ok(())
    }

    // Makes both branches of the path in hand.
    fn branch(&mut self, p: u32, budget: u64) -> Result<(), Refused>
        requires work { IsWorkOn self.old p }
        requires within { IsWithinBudget self.old budget }
        requires few { budget ≤ 1000000 }
        requires path { p < length self.old.store.paths }
        requires stands { IsAtChoice self.old.store p }
        ensures keeps { WorkKeeps self.old self.new }
        ensures ok { OnOk result (IsWork self.new) }
        ensures events { OnOk result (self.new.store.events ≡ self.old.store.events) }
        ensures grows { OnOk result (WorkGrows self.old self.new) }
        ensures within { OnOk result (IsWithinBudget self.new budget) }
        ensures spent { result ≡ Err refusals.Spent → IsSpentAt self.new self.old.store.events budget }
    {
        self.branch_one(p, true, budget)?;
        self.branch_one(p, false, budget)
    }

    // Makes both paths of a meeting of the path in hand, which sends or receives, and a kept end.
    fn meet_one(&mut self, p: u32, q: u32, budget: u64) -> Result<(), Refused>
        requires within { IsWithinBudget self.old budget }
        requires few { budget ≤ 1000000 }
        requires sender { p < length self.old.store.paths }
        requires receiver { q < length self.old.store.paths }
        requires stand { AreMeetingEnds self.old.store p q }
        requires agree { AreAgreeing self.old.store p q }
        requires unmet { AreUnmet self.old.store p q }
        requires low { AreLow self.old.store.paths self.old.pending.items }
        ensures keeps { WorkKeeps self.old self.new }
        ensures ok { OnOk result ((x y : Path) → slice_get self.old.store.paths p ≡ Some x → slice_get self.old.store.paths q ≡ Some y → Gains self.old self.new (sent x y ∷ (got x y ∷ []))) }
        ensures within { OnOk result (IsWithinBudget self.new budget) }
        ensures spent { result ≡ Err refusals.Spent → (self.new ≡ self.old) × RunsShort self.old budget }
    {
        if self.left(budget) < 2 {
            return Err(Refused::Spent);
        }
        let sender = self.store.thread(p);
        let receiver = self.store.thread(q);
        if self.pending.reserve(2).is_err() {
            return Err(Refused::Memory);
        }
        if self.moves.reserve(2).is_err() {
            return Err(Refused::Memory);
        }
        let Ok((first, second)) = self.store.meet(p, q) else {
            return Err(Refused::Memory);
        };
        let _paths = self.store.len();
        self.pending.push_reserved(first);
        self.pending.push_reserved(second);
        self.moves
            .push_reserved(Some(Move::Meet { sender, receiver }));
        self.moves.push_reserved(None);
        Ok(())
    }

    /// Makes both paths of a meeting of the path in hand, which sends or receives, and a kept end.
    pub(crate) fn meet_with(
        &mut self,
        p: u32,
        q: u32,
        sends: bool,
        budget: u64,
    ) -> Result<(), Refused>
        requires within { IsWithinBudget self.old budget }
        requires few { budget ≤ 1000000 }
        requires own { p < length self.old.store.paths }
        requires other { q < length self.old.store.paths }
        requires ready { MatchBool sends (CanMeet self.old.store p q) (CanMeet self.old.store q p) }
        requires low { AreLow self.old.store.paths self.old.pending.items }
        ensures keeps { WorkKeeps self.old self.new }
        ensures ok { OnOk result ((x y : Path) → slice_get self.old.store.paths p ≡ Some x → slice_get self.old.store.paths q ≡ Some y → Gains self.old self.new (met_paths sends x y)) }
        ensures within { OnOk result (IsWithinBudget self.new budget) }
        ensures spent { result ≡ Err refusals.Spent → (self.new ≡ self.old) × RunsShort self.old budget }
    {
        if sends {
            self.meet_one(p, q, budget)
        } else {
            self.meet_one(q, p, budget)
        }
    }

    // Meets a kept path that stands on the other side of the channel, where it agrees with the path in hand.
    fn meet_other(&mut self, p: u32, q: u32, sends: bool, budget: u64) -> Result<(), Refused>
        requires within { IsWithinBudget self.old budget }
        requires few { budget ≤ 1000000 }
        requires own { p < length self.old.store.paths }
        requires other { q < length self.old.store.paths }
        requires ready { IsReadyFor self.old p q sends }
        requires low { AreLow self.old.store.paths self.old.pending.items }
        ensures keeps { WorkKeeps self.old self.new }
        ensures ok { OnOk result ((x y : Path) → slice_get self.old.store.paths p ≡ Some x → slice_get self.old.store.paths q ≡ Some y → MeetsOne self.old self.new x y sends) }
        ensures within { OnOk result (IsWithinBudget self.new budget) }
        ensures spent { result ≡ Err refusals.Spent → (self.new ≡ self.old) × RunsShort self.old budget }
    {
        if !self.store.agree(p, q) {
            return Ok(());
        }
        self.meet_with(p, q, sends, budget)
    }

    // Meets every kept path of the other direction on the channel that agrees with the path in hand. Their numbers are
    // taken out first, since the work changes while they are met.
    fn meet_all(
        &mut self,
        alloc: Global,
        p: u32,
        channel: u32,
        sends: bool,
        budget: u64,
    ) -> Result<(), Refused>
        requires work { IsWorkOn self.old p }
        requires within { IsWithinBudget self.old budget }
        requires few { budget ≤ 1000000 }
        requires path { p < length self.old.store.paths }
        requires stands { (x : Path) → slice_get self.old.store.paths p ≡ Some x → WaitsOn self.old.store.events x channel sends }
        ensures keeps { WorkKeeps self.old self.new }
        ensures ok { OnOk result ((x : Path) → slice_get self.old.store.paths p ≡ Some x → HasMet self.old self.new x channel sends) }
        ensures within { OnOk result (IsWithinBudget self.new budget) }
        ensures spent { result ≡ Err refusals.Spent → IsSpentAt self.new self.old.store.events budget }
    {
        let Ok(others) = Vec::from_slice(alloc, self.waiting.ends(channel, !sends)) else {
            return Err(Refused::Memory);
        };
        'others: for i in 0..others.len() {
            let q = others[i];
            if let Err(refused) = self.meet_other(p, q, sends, budget) {
                return Err(refused);
            }
        }
        Ok(())
    }

    // Keeps the path in hand as a waiting end, once it has met its partners.
    fn wait(
        &mut self,
        alloc: Global,
        p: u32,
        channel: u32,
        sends: bool,
        budget: u64,
    ) -> Result<(), Refused>
        requires work { IsWorkOn self.old p }
        requires within { IsWithinBudget self.old budget }
        requires few { budget ≤ 1000000 }
        requires path { p < length self.old.store.paths }
        requires stands { (x : Path) → slice_get self.old.store.paths p ≡ Some x → WaitsOn self.old.store.events x channel sends }
        ensures keeps { WorkKeeps self.old self.new }
        ensures ok { OnOk result (IsWork self.new) }
        ensures events { OnOk result (self.new.store.events ≡ self.old.store.events) }
        ensures grows { OnOk result (WorkGrows self.old self.new) }
        ensures within { OnOk result (IsWithinBudget self.new budget) }
        ensures spent { result ≡ Err refusals.Spent → IsSpentAt self.new self.old.store.events budget }
    {
        if let Err(refused) = self.meet_all(alloc, p, channel, sends, budget) {
            return Err(refused);
        }
        let Ok(()) = self.waiting.keep_at(p, channel, sends) else {
            return Err(Refused::Memory);
        };
        Ok(())
    }

    // Assembles from the path in hand, which is final: the joined past of a group, where one is found.
    fn end(
        &mut self,
        alloc: Global,
        threads: &[u32],
        p: u32,
        budget: u64,
    ) -> Result<Option<Vec<Option<u32>>>, Refused>
        requires work { IsWorkOn self.old p }
        requires within { IsWithinBudget self.old budget }
        requires path { p < length self.old.store.paths }
        requires at_end { (x : Path) → slice_get self.old.store.paths p ≡ Some x → IsFinal self.old.store.events x }
        requires threads { threads.now ≡ threads_of self.old.store.events }
        ensures keeps { WorkKeeps self.old self.new }
        ensures ok { IfOk result (λ found. StepEndsSo self.new threads.now found) }
        ensures events { IsOk result → self.new.store.events ≡ self.old.store.events }
        ensures grows { IsOk result → WorkGrows self.old self.new }
        ensures within { IsOk result → IsWithinBudget self.new budget }
        ensures spent { result ≡ Err refusals.Spent → IsSpentAt self.new self.old.store.events budget }
    {
        let mut left = self.left(budget);
        if left == 0 {
            return Err(Refused::Spent);
        }
        left -= 1;
        let thread = self.store.thread(p);
        let Ok(()) = self.finals.push(p, thread) else {
            return Err(Refused::Memory);
        };
        if lacks_one(&self.store, threads, &self.finals, p) {
            self.groups = budget - self.store.len() as u64 - left;
            return Ok(None);
        }
        let Ok(joined) = past_of(alloc, &self.store, threads, p) else {
            return Err(Refused::Memory);
        };
        let answer = assemble(
            alloc,
            &self.store,
            threads,
            &self.finals,
            &joined,
            &mut left,
        );
        self.groups = budget - self.store.len() as u64 - left;
        answer
    }

    // Works on the path in hand: the joined past of a group, where one is found.
    fn step(
        &mut self,
        alloc: Global,
        threads: &[u32],
        p: u32,
        budget: u64,
    ) -> Result<Option<Vec<Option<u32>>>, Refused>
        requires work { IsWorkOn self.old p }
        requires within { IsWithinBudget self.old budget }
        requires few { budget ≤ 1000000 }
        requires path { p < length self.old.store.paths }
        requires threads { threads.now ≡ threads_of self.old.store.events }
        ensures keeps { WorkKeeps self.old self.new }
        ensures ok { IfOk result (λ found. StepEndsSo self.new threads.now found) }
        ensures events { IsOk result → self.new.store.events ≡ self.old.store.events }
        ensures grows { IsOk result → WorkGrows self.old self.new }
        ensures within { IsOk result → IsWithinBudget self.new budget }
        ensures spent { result ≡ Err refusals.Spent → IsSpentAt self.new self.old.store.events budget }
    {
        match self.store.stop(p) {
            Stop::Done(_) => self.end(alloc, threads, p, budget),
            Stop::Raised(_) => self.end(alloc, threads, p, budget),
            Stop::Send(channel, _) => match self.wait(alloc, p, channel, true, budget) {
                Ok(()) => Ok(None),
                Err(refused) => Err(refused),
            },
            Stop::Recv(channel) => match self.wait(alloc, p, channel, false, budget) {
                Ok(()) => Ok(None),
                Err(refused) => Err(refused),
            },
            Stop::Choice => match self.branch(p, budget) {
                Ok(()) => Ok(None),
                Err(refused) => Err(refused),
            },
            Stop::Dead => Ok(None),
        }
    }

    /// Works on all that is left to do: the joined past of a group, where one is found.
    pub(crate) fn settle(
        &mut self,
        alloc: Global,
        threads: &[u32],
        budget: u64,
    ) -> Result<Option<Vec<Option<u32>>>, Refused>
        requires work { IsWork self.old }
        requires within { IsWithinBudget self.old budget }
        requires few { budget ≤ 1000000 }
        requires threads { threads.now ≡ threads_of self.old.store.events }
        ensures keeps { WorkKeeps self.old self.new }
        ensures ok { IfOk result (λ found. SettlesSo self.new threads.now found) }
        ensures events { IsOk result → self.new.store.events ≡ self.old.store.events }
        ensures within { IsOk result → IsWithinBudget self.new budget }
        ensures spent { result ≡ Err refusals.Spent → IsSpentAt self.new self.old.store.events budget }
    {
        'work: while let Some(p) = self.pending.pop() {
            match self.step(alloc, threads, p, budget) {
                Err(refused) => return Err(refused),
                Ok(Some(found)) => return Ok(Some(found)),
                Ok(None) => {}
            }
        }
        Ok(None)
    }
}
