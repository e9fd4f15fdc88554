// A search that goes on path by path, the lowest first, in batches.

ghost use Rattle.std.specs.Prelude.{◌≡◌, ◌≢◌, ◌↔◌, ◌⊎◌, ◌≤◌, ◌<◌, ltb, ◌+◌, ◌++◌, ◌∷◌, [], ℕ, List, length, slice_get, true, false, Ok, Err, Some, None, IfOk, OnOk, IsOk, IsTrue};
ghost use Rattle.std.specs.List.{filter};
ghost use Rattle.te_cert.specs.Certificates.{Certificate};
ghost use Rattle.te_terms.specs.declared.event.Outcome.{Outcome};
ghost use Rattle.te_terms.specs.Joint.{IsGroup, as_group, CanCommit};
ghost use Rattle.te_trail.specs.Paths.{Path, branched};
ghost use Rattle.te_trail.specs.Trails.{IsAtChoice};
ghost use Rattle.te_pair.specs.Ends.{IsAtEnd};
ghost use Rattle.te_search.specs.Groups.{IsFinal};
ghost use Rattle.te_search.specs.Assemblies.{AssemblyStand};
ghost use Rattle.te_search.specs.Works.{IsWithinBudget, IsSpentAt, WaitsOn};
ghost use Rattle.te_search.specs.Bounds.{enough_for};
ghost use Rattle.te_search.specs.Findings.{IsGroupOf, IsUsedUp, IsBudget};
ghost use Rattle.te_search.specs.Batches.{IsStart, NextBatch, IsLook, IsApplied, NoneTogether};
ghost use Rattle.te_search.specs.Finals.{numbers_of, TellThreads};
ghost use Rattle.te_search.specs.Batching.{HasLater, IsBatched, IsStarting, batches_of, EndsAreKept, KeepsOne, BatchStays, BatchGoesOn};
ghost use Rattle.te_search.specs.Batching.{MeetsThose, MeetsThese, EndsWith, BatchStepsTo, HasTried, IsSpentTrying};
ghost use Rattle.te_search.specs.declared.assembly.Refused.TheVariants as refusals;
ghost use Rattle.te_search.specs.declared.finding.SearchFault.TheVariants as faults;
ghost use Rattle.te_search.specs.declared.batched.Look.{Look};
ghost use Rattle.te_search.specs.declared.batched.Look.TheVariants as looks;

use crate::assembly::{Refused, assemble, past_of};
use crate::certifying::certify;
use crate::finals::Finals;
use crate::finding::SearchFault;
use crate::kept::copies_of;
use crate::listed::ParkedList;
use crate::planted::PlantedThreads;
use crate::work::Work;
use std::alloc::Global;
use te_cert::Cert;
use te_pair::Waiting;
use te_path::Stop;
use te_terms::{NoMemory, Parked, Rows};
use te_trail::TrailStore;

// How many paths a batch has at most.
const MOST: u32 = 64;

/// What a path is to do.
#[derive(Drop)]
pub enum Look {
    /// Nothing more: it is at its end.
    Final,
    /// Nothing: it has no step.
    Dead,
    /// To take both branches of a choice.
    Fork,
    /// To meet these paths, which are lower, in rising order.
    Ends(Rows<u32>),
}

/// A search of parked events, all of them planted in order. Of its paths the lowest were in a batch, and of these the
/// lowest have gone on; those of a batch that stand at a send or a receive are kept.
#[derive(Drop)]
pub(crate) struct Batched {
    pub(crate) alloc: Global,
    pub(crate) parked: ParkedList,
    pub(crate) threads: PlantedThreads,
    pub(crate) work: Work,
    pub(crate) budget: u64,
    pub(crate) batched: u32,
    pub(crate) applied: u32,
}

// How many of so many paths a batch takes.
fn size_of_batch(left: u32) -> u32
    ensures most { ((result ≡ 64) × (64 ≤ left)) ⊎ ((result ≡ left) × (left < 64)) }
    ensures low { result ≤ left }
{
    if left < MOST { left } else { MOST }
}

// Whether a joined past has a path that comes after this one.
fn has_later(joined: &[Option<u32>], p: u32) -> bool
    ensures { IsTrue result ↔ HasLater joined.now p }
{
    'places: for i in 0..joined.len() {
        let Some(q) = joined[i] else {
            continue;
        };
        if p < q {
            return true;
        }
    }
    false
}

// Those of some numbers that are below another.
fn lower(alloc: Global, found: &[u32], p: u32) -> Result<Rows<u32>, NoMemory>
    ensures { IfOk result (λ lower. lower ≡ filter (λ q. ltb q p) found.now) }
{
    let mut lower = Rows::new(alloc);
    'found: for i in 0..found.len() {
        let q = found[i];
        if q >= p {
            continue;
        }
        lower.push(q)?;
    }
    Ok(lower)
}

impl Work {
    // Tries partial groups from a path that is final: the joined past of a group, where one is found. Where the path rests
    // on a later one, which is then the other end of its own meeting and hasn't gone on, nothing is tried besides: the group
    // is found from that one.
    fn try_from(
        &mut self,
        alloc: Global,
        threads: &[u32],
        p: u32,
        budget: u64,
    ) -> Result<Option<Vec<Option<u32>>>, Refused>
        requires within { IsWithinBudget self.old budget }
        requires path { p < length self.old.store.paths }
        requires stand { AssemblyStand self.old.store.events self.old.store.paths threads.now (numbers_of self.old.finals ++ p ∷ []) }
        requires told { TellThreads self.old.store.paths self.old.finals }
        ensures ok { IfOk result (HasTried self.old self.new p threads.now) }
        ensures within { IsOk result → IsWithinBudget self.new budget }
        ensures spent { result ≡ Err refusals.Spent → IsSpentTrying self.old self.new p budget }
    {
        let mut left = self.left(budget);
        if left == 0 {
            return Err(Refused::Spent);
        }
        left -= 1;
        let Ok(joined) = past_of(alloc, &self.store, threads, p) else {
            return Err(Refused::Memory);
        };
        let thread = self.store.thread(p);
        let Ok(()) = self.finals.push(p, thread) else {
            return Err(Refused::Memory);
        };
        if has_later(&joined, p) {
            self.groups += 1;
            return Ok(None);
        }
        let answer = assemble(
            alloc,
            &self.store,
            threads,
            &self.finals,
            &joined,
            &mut left,
        );
        self.groups = budget - self.store.len() as u64 - left;
        answer
    }
}

impl Batched {
    // How much is used.
    fn spent(&self) -> SearchFault
        ensures { result ≡ faults.Spent (length self.now.work.store.paths) self.now.work.groups }
    {
        SearchFault::Spent {
            paths: self.work.store.len() as u64,
            groups: self.work.groups,
        }
    }

    // A search of these events, of which none is planted.
    fn unplanted(alloc: Global, parked: &[Parked], budget: u64) -> Result<Batched, NoMemory>
        requires rising { IsGroup (as_group parked.now) }
        requires budget { IsBudget budget }
        ensures starting { IfOk result (λ s. IsStarting s 0) }
        ensures parked { IfOk result (λ s. s.parked ≡ parked.now) }
        ensures budget { IfOk result (λ s. s.budget ≡ budget) }
    {
        let copies = copies_of(alloc, parked)?;
        let store = TrailStore::new(alloc, parked)?;
        let _paths = store.len();
        Ok(Batched {
            alloc,
            parked: copies,
            threads: PlantedThreads::new(alloc),
            work: Work {
                store,
                moves: Vec::new(alloc),
                pending: Vec::new(alloc),
                waiting: Waiting::new(alloc),
                finals: Finals::new(alloc),
                groups: 0,
            },
            budget,
            batched: 0,
            applied: 0,
        })
    }

    // Plants the event at a place, of which those before it are planted.
    fn plant(&mut self, i: usize) -> Result<(), NoMemory>
        requires starting { IsStarting self.old i }
        requires place { i < length self.old.parked }
        requires room { length self.old.work.store.paths < self.old.budget }
        ensures ok { OnOk result (IsStarting self.new (i + 1)) }
        ensures parked { self.new.parked ≡ self.old.parked }
        ensures budget { self.new.budget ≡ self.old.budget }
    {
        let event = i as u32;
        let parked = self.parked.at(i);
        self.threads.push(parked.thread)?;
        self.work.moves.push(None)?;
        self.work.store.plant(event)?;
        let _paths = self.work.store.len();
        Ok(())
    }

    /// Plants every event, in order.
    pub(crate) fn start(
        alloc: Global,
        parked: &[Parked],
        budget: u64,
    ) -> Result<Batched, SearchFault>
        requires rising { IsGroup (as_group parked.now) }
        requires budget { IsBudget budget }
        ensures ok { IfOk result (λ s. IsStart parked.now budget (batches_of (Some s))) }
        ensures batched { IfOk result IsBatched }
        ensures spent { (paths groups : ℕ) → result ≡ Err (faults.Spent paths groups) → IsUsedUp parked.now budget paths groups }
        ensures enough { enough_for (as_group parked.now) ≤ budget → (paths groups : ℕ) → result ≢ Err (faults.Spent paths groups) }
    {
        let Ok(mut batched) = Batched::unplanted(alloc, parked, budget) else {
            return Err(SearchFault::Memory);
        };
        'events: for i in 0..parked.len() {
            if batched.work.left(budget) == 0 {
                return Err(batched.spent());
            }
            let Ok(()) = batched.plant(i) else {
                return Err(SearchFault::Memory);
            };
        }
        Ok(batched)
    }

    // Keeps a path, where it stands at a send or a receive.
    fn keep(&mut self, p: u32) -> Result<(), NoMemory>
        requires kept { EndsAreKept self.old.work p }
        requires path { p < length self.old.work.store.paths }
        ensures ok { OnOk result (KeepsOne self.old.work self.new.work p) }
        ensures stays { BatchStays self.old self.new }
    {
        match self.work.store.stop(p) {
            Stop::Send(channel, _) => self.work.waiting.keep_at(p, channel, true),
            Stop::Recv(channel) => self.work.waiting.keep_at(p, channel, false),
            Stop::Done(_) => Ok(()),
            Stop::Raised(_) => Ok(()),
            Stop::Choice => Ok(()),
            Stop::Dead => Ok(()),
        }
    }

    /// The lowest paths that were in no batch. Those that stand at a send or a receive are kept.
    pub(crate) fn next_batch(&mut self) -> Result<Rows<u32>, NoMemory>
        requires batched { IsBatched self.old }
        requires applied { self.old.applied ≡ self.old.batched }
        ensures ok { IfOk result (λ batch. NextBatch (batches_of (Some self.old)) batch (batches_of (Some self.new))) }
        ensures empty { IfOk result (λ batch. (batch ≡ []) ↔ (self.old.batched ≡ length self.old.work.store.paths)) }
        ensures batched { IsOk result → IsBatched self.new }
        ensures none { result ≡ Ok [] → ¬ CanCommit self.old.parked }
    {
        let count = self.work.store.len();
        let size = size_of_batch(count - self.batched);
        let end = self.batched + size;
        let mut batch = Rows::new(self.alloc);
        'paths: for p in self.batched..end {
            self.keep(p)?;
            batch.push(p)?;
        }
        self.batched = end;
        Ok(batch)
    }

    // The lower ones of a path's partners.
    fn lower_partners(&self, p: u32) -> Result<Look, NoMemory>
        requires batched { IsBatched self.now }
        requires path { p < self.now.batched }
        requires stands { IsAtEnd self.now.work.store p }
        ensures { IfOk result (IsLook (batches_of (Some self.now)) p) }
    {
        let found = self.work.waiting.partners(self.alloc, &self.work.store, p)?;
        let others = lower(self.alloc, found.as_slice(), p)?;
        Ok(Look::Ends(others))
    }

    /// What a path of a batch is to do.
    pub(crate) fn look(&self, p: u32) -> Result<Look, NoMemory>
        requires batched { IsBatched self.now }
        requires path { p < self.now.batched }
        ensures { IfOk result (IsLook (batches_of (Some self.now)) p) }
    {
        match self.work.store.stop(p) {
            Stop::Done(_) => Ok(Look::Final),
            Stop::Raised(_) => Ok(Look::Final),
            Stop::Send(_, _) => self.lower_partners(p),
            Stop::Recv(_) => self.lower_partners(p),
            Stop::Choice => Ok(Look::Fork),
            Stop::Dead => Ok(Look::Dead),
        }
    }

    /// How many kept ends a look at a path compares with it.
    pub(crate) fn ends_compared(&self, p: u32) -> usize
        requires batched { IsBatched self.now }
        requires path { p < self.now.batched }
    {
        match self.work.store.stop(p) {
            Stop::Send(channel, _) => self.work.waiting.ends(channel, false).len(),
            Stop::Recv(channel) => self.work.waiting.ends(channel, true).len(),
            _ => 0,
        }
    }

    // Makes both branches of the lowest path of the batch.
    fn fork(&mut self) -> Result<(), Refused>
        requires batched { IsBatched self.old }
        requires some { self.old.applied < self.old.batched }
        requires stands { IsAtChoice self.old.work.store self.old.applied }
        ensures stays { BatchStays self.old self.new }
        ensures ok { OnOk result ((x : Path) → slice_get self.old.work.store.paths self.old.applied ≡ Some x → BatchGoesOn self.old self.new (branched x true ∷ (branched x false ∷ []))) }
        ensures spent { result ≡ Err refusals.Spent → IsSpentAt self.new.work self.old.work.store.events self.old.budget }
    {
        let p = self.applied;
        self.work.branch_one(p, true, self.budget)?;
        self.work.branch_one(p, false, self.budget)
    }

    // Makes a meeting of the lowest path of the batch, which sends or receives, with each of these.
    fn meet_each(&mut self, others: &[u32], sends: bool) -> Result<(), Refused>
        requires batched { IsBatched self.old }
        requires some { self.old.applied < self.old.batched }
        requires look { IsLook (batches_of (Some self.old)) self.old.applied (looks.Ends others.now) }
        requires stands { (x : Path) → slice_get self.old.work.store.paths self.old.applied ≡ Some x → (channel : ℕ) × WaitsOn self.old.work.store.events x channel sends }
        ensures stays { BatchStays self.old self.new }
        ensures ok { OnOk result (MeetsThose self.old self.new sends others.now) }
        ensures spent { result ≡ Err refusals.Spent → IsSpentAt self.new.work self.old.work.store.events self.old.budget }
    {
        let p = self.applied;
        'others: for i in 0..others.len() {
            let q = others[i];
            self.work.meet_with(p, q, sends, self.budget)?;
        }
        Ok(())
    }

    // The same, of a path that stands at a send or a receive.
    fn meet(&mut self, others: &[u32]) -> Result<(), Refused>
        requires batched { IsBatched self.old }
        requires some { self.old.applied < self.old.batched }
        requires look { IsLook (batches_of (Some self.old)) self.old.applied (looks.Ends others.now) }
        ensures stays { BatchStays self.old self.new }
        ensures ok { OnOk result ((x : Path) → slice_get self.old.work.store.paths self.old.applied ≡ Some x → MeetsThese self.old self.new x others.now) }
        ensures spent { result ≡ Err refusals.Spent → IsSpentAt self.new.work self.old.work.store.events self.old.budget }
    {
        match self.work.store.stop(self.applied) {
            Stop::Send(_, _) => self.meet_each(others, true),
            Stop::Recv(_) => self.meet_each(others, false),
            _ => unreachable!(),
        }
    }

    // Tries partial groups from the lowest path of the batch, which is final: the joined past of a group, where one is
    // found.
    fn end(&mut self) -> Result<Option<Vec<Option<u32>>>, Refused>
        requires batched { IsBatched self.old }
        requires some { self.old.applied < self.old.batched }
        requires at_end { (x : Path) → slice_get self.old.work.store.paths self.old.applied ≡ Some x → IsFinal self.old.work.store.events x }
        ensures stays { BatchStays self.old self.new }
        ensures ok { IfOk result (EndsWith self.old self.new) }
        ensures spent { result ≡ Err refusals.Spent → IsSpentAt self.new.work self.old.work.store.events self.old.budget }
    {
        self.work.try_from(
            self.alloc,
            self.threads.as_slice(),
            self.applied,
            self.budget,
        )
    }

    // Does what a look says of the lowest path of the batch: the joined past of a group, where one is found.
    fn step(&mut self, look: &Look) -> Result<Option<Vec<Option<u32>>>, Refused>
        requires batched { IsBatched self.old }
        requires some { self.old.applied < self.old.batched }
        requires look { IsLook (batches_of (Some self.old)) self.old.applied look.now }
        ensures stays { BatchStays self.old self.new }
        ensures ok { IfOk result (BatchStepsTo self.old look.now self.new) }
        ensures spent { result ≡ Err refusals.Spent → IsSpentAt self.new.work self.old.work.store.events self.old.budget }
    {
        match look {
            Look::Final => self.end(),
            Look::Dead => Ok(None),
            Look::Fork => match self.fork() {
                Ok(()) => Ok(None),
                Err(refused) => Err(refused),
            },
            Look::Ends(others) => match self.meet(others.as_slice()) {
                Ok(()) => Ok(None),
                Err(refused) => Err(refused),
            },
        }
    }

    /// Does what a look says of a path, the lowest of the batch that hasn't gone on: the certificate of a group, where
    /// one is found.
    pub(crate) fn apply(&mut self, p: u32, look: &Look) -> Result<Option<Cert>, SearchFault>
        requires batched { IsBatched self.old }
        requires lowest { p ≡ self.old.applied }
        requires some { p < self.old.batched }
        requires look { IsLook (batches_of (Some self.old)) p look.now }
        ensures applied { result ≡ Ok None → IsApplied (batches_of (Some self.old)) p look.now (batches_of (Some self.new)) }
        ensures batched { result ≡ Ok None → IsBatched self.new }
        ensures looks { result ≡ Ok None → (q : ℕ) (l : Look) → q < self.old.batched → IsLook (batches_of (Some self.old)) q l → IsLook (batches_of (Some self.new)) q l }
        ensures none { result ≡ Ok None → NoneTogether (batches_of (Some self.old)) p }
        ensures group { (cert : Certificate) → result ≡ Ok (Some cert) → (outcomes : List Outcome) × IsGroupOf self.old.parked cert outcomes }
        ensures spent { (paths groups : ℕ) → result ≡ Err (faults.Spent paths groups) → IsUsedUp self.old.parked self.old.budget paths groups }
        ensures enough { enough_for (as_group self.old.parked) ≤ self.old.budget → (paths groups : ℕ) → result ≢ Err (faults.Spent paths groups) }
    {
        let next = p + 1;
        match self.step(look) {
            Ok(None) => {
                self.work.pending.clear();
                self.applied = next;
                Ok(None)
            }
            Ok(Some(joined)) => match certify(
                self.alloc,
                &self.parked,
                &self.work,
                &self.threads,
                &joined,
                0,
            ) {
                Ok(group) => Ok(Some(group.cert)),
                Err(_) => Err(SearchFault::Memory),
            },
            Err(Refused::Spent) => Err(self.spent()),
            Err(Refused::Memory) => Err(SearchFault::Memory),
        }
    }
}
