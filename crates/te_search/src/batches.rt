// A search that is taken in batches.

ghost use Rattle.std.specs.Prelude.{◌≡◌, ◌≢◌, ◌≤◌, ◌<◌, ◌↔◌, ℕ, List, [], length, true, Ok, Err, Some, None, IfOk};
ghost use Rattle.te_cert.specs.Certificates.{Certificate};
ghost use Rattle.te_terms.specs.declared.event.Outcome.{Outcome};
ghost use Rattle.te_terms.specs.Joint.{IsGroup, as_group, CanCommit};
ghost use Rattle.te_search.specs.Bounds.{enough_for};
ghost use Rattle.te_search.specs.Findings.{IsGroupOf, IsUsedUp, IsBudget};
ghost use Rattle.te_search.specs.Batches.{IsStart, NextBatch, IsInBatch, IsLook, IsApplied, NoneTogether};
ghost use Rattle.te_search.specs.declared.batched.Look.{Look};
ghost use Rattle.te_search.specs.declared.finding.SearchFault.TheVariants as faults;

use crate::batched::{Batched, Look};
use crate::finding::SearchFault;
use std::alloc::Global;
use std::marker::Model;
use te_cert::Cert;
use te_terms::{NoMemory, Parked, Rows};

/// A search that is taken in batches, for a caller that shares the looks at the paths of a batch among workers. It is
/// seen as its list and budget, its events and paths with the waiting ends that are kept, how many paths were in a batch
/// and how many of these were applied, and whether it goes on: it doesn't after a refusal or a group. This is the
/// project's own.
#[derive(Drop)]
pub struct Search {
    batched: Option<Batched>,
}

impl Model for Search {
    ghost use Rattle.te_search.specs.Batches.{Batches};
    ghost use Rattle.te_search.specs.Batching.{coded_batches, batches_of, IsTaken};

    ghost Value = { Batches };

    ghost coded = { coded_batches };

    ghost view = { λ s. batches_of s.batched };

    ghost invariant = { λ s. IsTaken s.batched };
}

impl Search {
    /// Plants every event, in order. Conditions, budget and count are those of `find`, and so is the refusal `Spent`;
    /// `Memory` is want of memory. Whatever the answer, the list and its events, which are shared, are as they were.
    pub fn start(alloc: Global, parked: &[Parked], budget: u64) -> Result<Search, SearchFault>
        requires rising { IsGroup (as_group parked.now) }
        requires budget { IsBudget budget }
        ensures ok { IfOk result (IsStart parked.now budget) }
        ensures spent { (paths groups : ℕ) → result ≡ Err (faults.Spent paths groups) → IsUsedUp parked.now budget paths groups }
        ensures enough { enough_for (as_group parked.now) ≤ budget → (paths groups : ℕ) → result ≢ Err (faults.Spent paths groups) }
    {
        match Batched::start(alloc, parked, budget) {
            Ok(batched) => Ok(Search {
                batched: Some(batched),
            }),
            Err(fault) => Err(fault),
        }
    }

    /// The lowest paths that were in no batch, at most 64, in rising order. Those of them that stand at a send or a receive
    /// are kept as waiting ends. The batch is empty exactly where every path was in one; then the list can't commit.
    ///
    /// Conditions: the search goes on, and every path of the earlier batches was applied. The one refusal is want of memory;
    /// then the search doesn't go on.
    pub fn batch(&mut self) -> Result<Rows<u32>, NoMemory>
        requires goes_on { self.old.goes_on ≡ true }
        requires applied { self.old.applied ≡ self.old.batched }
        ensures ok { IfOk result (λ batch. NextBatch self.old batch self.new) }
        ensures empty { IfOk result (λ batch. (batch ≡ []) ↔ (self.old.batched ≡ length self.old.trail.paths)) }
        ensures blocked { result ≡ Ok [] → ¬ CanCommit self.old.parked }
    {
        match &mut self.batched {
            Some(batched) => match batched.next_batch() {
                Ok(batch) => Ok(batch),
                Err(refused) => {
                    self.batched = None;
                    Err(refused)
                }
            },
            None => unreachable!(),
        }
    }

    /// What a path is to do: nothing more where it is at its end, nothing where it has no step, both branches at a choice,
    /// and else meetings with its partners among the lower paths. Condition: the path is in the present batch and isn't
    /// applied. The one refusal is want of memory.
    pub fn look(&self, p: u32) -> Result<Look, NoMemory>
        requires { IsInBatch self.now p }
        ensures { IfOk result (IsLook self.now p) }
    {
        match &self.batched {
            Some(batched) => batched.look(p),
            None => unreachable!(),
        }
    }

    /// How many kept ends a look at a path compares with it, which may be more than the partners that it tells. Condition:
    /// the path is in the present batch and isn't applied. It is public for the crates above alone, which share the looks
    /// among workers where they compare many.
    #[doc(hidden)]
    pub fn ends_compared(&self, p: u32) -> usize
        requires { IsInBatch self.now p }
    {
        match &self.batched {
            Some(batched) => batched.ends_compared(p),
            None => unreachable!(),
        }
    }

    /// Does what a look says of a path: makes both branches, or one meeting for each partner, or tries partial groups from a
    /// path that is at its end. `Some` has the certificate of a group, as `find` gives it; then the search doesn't go on.
    /// `None` comes only where no set of applied final paths of different threads, this one among them, is what one chain of
    /// joint steps of just these threads leaves. Then what `look` says of the other paths of the batch is as before.
    ///
    /// Conditions: the search goes on, the path is the lowest of the batch that isn't applied, and the look is what `look`
    /// says of it. The refusals are those of `find`; then the search doesn't go on.
    pub fn apply(&mut self, p: u32, look: Look) -> Result<Option<Cert>, SearchFault>
        requires in_batch { IsInBatch self.old p }
        requires lowest { p ≡ self.old.applied }
        requires look { IsLook self.old p look }
        ensures applied { result ≡ Ok None → IsApplied self.old p look self.new }
        ensures looks { result ≡ Ok None → (q : ℕ) (l : Look) → q < self.old.batched → IsLook self.old q l → IsLook self.new q l }
        ensures none { result ≡ Ok None → NoneTogether self.old p }
        ensures group { (cert : Certificate) → result ≡ Ok (Some cert) → (outcomes : List Outcome) × IsGroupOf self.old.parked cert outcomes }
        ensures spent { (paths groups : ℕ) → result ≡ Err (faults.Spent paths groups) → IsUsedUp self.old.parked self.old.budget paths groups }
        ensures enough { enough_for (as_group self.old.parked) ≤ self.old.budget → (paths groups : ℕ) → result ≢ Err (faults.Spent paths groups) }
    {
        match &mut self.batched {
            Some(batched) => match batched.apply(p, &look) {
                Ok(None) => Ok(None),
                Ok(Some(cert)) => {
                    self.batched = None;
                    Ok(Some(cert))
                }
                Err(fault) => {
                    self.batched = None;
                    Err(fault)
                }
            },
            None => unreachable!(),
        }
    }

    /// Whether the search goes on. It is public for tests alone, as the two below are.
    #[doc(hidden)]
    pub fn goes_on(&self) -> bool
        ensures { result ≡ self.now.goes_on }
    {
        match &self.batched {
            Some(_) => true,
            None => false,
        }
    }

    /// How many paths were in a batch.
    #[doc(hidden)]
    pub fn batched(&self) -> u32
        ensures { result ≡ self.now.batched }
    {
        match &self.batched {
            Some(batched) => batched.batched,
            None => 0,
        }
    }

    /// How many paths were applied.
    #[doc(hidden)]
    pub fn applied(&self) -> u32
        ensures { result ≡ self.now.applied }
    {
        match &self.batched {
            Some(batched) => batched.applied,
            None => 0,
        }
    }
}
