// A search for a group among parked events, whose looks are stolen.

ghost use Rattle.std.specs.Prelude.{◌≡◌, ◌≢◌, ◌≤◌, ◌<◌, ℕ, List, length, Ok, Err, Some, None, IfOk};
ghost use Rattle.te_cert.specs.Certificates.{Certificate};
ghost use Rattle.te_terms.specs.declared.event.Outcome.{Outcome};
ghost use Rattle.te_terms.specs.Joint.{IsGroup, as_group, CanCommit};
ghost use Rattle.te_search.specs.Bounds.{enough_for};
ghost use Rattle.te_search.specs.Findings.{IsGroupOf, IsUsedUp, IsBudget};
ghost use Rattle.te_search.specs.declared.finding.SearchFault.TheVariants as faults;
ghost use Rattle.te_search.specs.declared.finding.Found.TheVariants as finds;
ghost use Rattle.te_crew.specs.Shares.{AreLooks, IsBetweenBatches, IsOfSame};
ghost use Rattle.te_steal.specs.Stolen.{IsFullBatch, IsGang};

use crate::stealing::stolen_looks;
use std::alloc::Global;
use std::thread::Threads;
use te_crew::{apply_all, crew_for, looks_of};
use te_search::{Found, Look, Search, SearchFault};
use te_terms::{NoMemory, Parked};

// The looks at the paths of the batch: by the owner alone, where few kept ends are compared.
fn shared_looks<R: Threads + Sync>(
    rt: &R,
    alloc: Global,
    search: &Search,
    batch: &[u32],
    thieves: u32,
) -> Result<Vec<Option<Look>>, NoMemory>
    requires batch { IsFullBatch search.now batch.now }
    requires thieves { IsGang thieves }
    ensures count { IfOk result (λ looks. length looks.items ≡ length batch.now) }
    ensures looks { IfOk result (λ looks. AreLooks search.now batch.now looks.items) }
{
    if crew_for(search, batch, thieves + 1) > 1 {
        stolen_looks(rt, alloc, search, batch, thieves)
    } else {
        looks_of(rt, alloc, search, batch, 1)
    }
}

// Takes the next batch and applies it: the answer of the search, where this decides it.
fn advance<R: Threads + Sync>(
    rt: &R,
    alloc: Global,
    search: &mut Search,
    thieves: u32,
) -> Result<Option<Found>, SearchFault>
    requires between { IsBetweenBatches search.old }
    requires thieves { IsGang thieves }
    ensures between { result ≡ Ok None → IsBetweenBatches search.new }
    ensures more { result ≡ Ok None → search.old.batched < search.new.batched }
    ensures same { result ≡ Ok None → IsOfSame search.old search.new }
    ensures group { (cert : Certificate) → result ≡ Ok (Some (finds.Group cert)) → (outcomes : List Outcome) × IsGroupOf search.old.parked cert outcomes }
    ensures blocked { result ≡ Ok (Some finds.Blocked) → ¬ CanCommit search.old.parked }
    ensures spent { (paths groups : ℕ) → result ≡ Err (faults.Spent paths groups) → IsUsedUp search.old.parked search.old.budget paths groups }
    ensures enough { enough_for (as_group search.old.parked) ≤ search.old.budget → (paths groups : ℕ) → result ≢ Err (faults.Spent paths groups) }
{
    let Ok(batch) = search.batch() else {
        return Err(SearchFault::Memory);
    };
    if batch.len() == 0 {
        return Ok(Some(Found::Blocked));
    }
    let Ok(mut looks) = shared_looks(rt, alloc, search, batch.as_slice(), thieves) else {
        return Err(SearchFault::Memory);
    };
    match apply_all(search, batch.as_slice(), &mut looks) {
        Ok(None) => Ok(None),
        Ok(Some(cert)) => Ok(Some(Found::Group(cert))),
        Err(fault) => Err(fault),
    }
}

/// Searches parked events for a group, as `te_search::find` does and with its whole contract, by an owner and 1 to 7 thieves.
///
/// The search takes its paths in batches of at most 64, with a new relay for each. The owner pushes the places of a batch;
/// owner and thieves take them, each thief in a thread of its own where one can be made, and look at their paths. A thief
/// tries as many steals as the batch has paths and then ends, and the owner takes until it finds nothing; it looks at what
/// `close` gives too. Where no thread can be made, the owner does all. What the looks say is applied in order by the caller
/// alone. A batch whose looks compare few waiting ends is looked at by the caller alone: it has no relay and starts no
/// thread.
///
/// `Group` has a certificate that `check` accepts on the events of its members, which are parked in the list under their
/// threads and tickets. `Blocked` comes only where no part of the list reduces together. Which of several groups is found
/// isn't said; it may be another than that of `find`.
///
/// Conditions: threads rise strictly, the budget is 1 to 1,000,000, counted in paths and partial groups as by `find`, and
/// the thieves are 1 to 7.
///
/// The refusals: `Spent` where the next step would make paths and partial groups more than the budget, with how many
/// there were, together the budget or one less: the list has so many path names and group names, and has more than the
/// budget. So it never comes where the budget is at least `enough` of the list. `Memory` is want of memory. Whatever the
/// answer, every thread that was started has ended, the list and its events, which are shared, are as they were, and
/// nothing of the search is left.
///
/// Groups and choices are those of Donnelly and Fluet, Transactional Events, JFP 18(5-6), 2008; paths, assembly, budgets,
/// relays and thieves are this project's own.
pub fn find_steal<R: Threads + Sync>(
    rt: &R,
    alloc: Global,
    parked: &[Parked],
    budget: u64,
    thieves: u32,
) -> Result<Found, SearchFault>
    requires rising { IsGroup (as_group parked.now) }
    requires budget { IsBudget budget }
    requires thieves { IsGang thieves }
    ensures group { (cert : Certificate) → result ≡ Ok (finds.Group cert) → (outcomes : List Outcome) × IsGroupOf parked.now cert outcomes }
    ensures blocked { result ≡ Ok finds.Blocked → ¬ CanCommit parked.now }
    ensures spent { (paths groups : ℕ) → result ≡ Err (faults.Spent paths groups) → IsUsedUp parked.now budget paths groups }
    ensures enough { enough_for (as_group parked.now) ≤ budget → (paths groups : ℕ) → result ≢ Err (faults.Spent paths groups) }
{
    let mut search = match Search::start(alloc, parked, budget) {
        Ok(search) => search,
        Err(fault) => return Err(fault),
    };
    'batches: loop {
        match advance(rt, alloc, &mut search, thieves) {
            Ok(None) => {}
            Ok(Some(found)) => return Ok(found),
            Err(fault) => return Err(fault),
        }
    }
}
