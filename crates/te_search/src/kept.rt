// A search that is kept while its list changes.

ghost use Rattle.std.specs.Prelude.{◌≡◌, ◌≢◌, ◌<◌, ◌≤◌, ℕ, List, length, [], Ok, Err, OnOk, OnErr, IfOk, IsTrue, ◌↔◌, Some, take, false};
ghost use Rattle.te_terms.specs.declared.event.Outcome.{Outcome};
ghost use Rattle.te_terms.specs.Joint.{IsGroup, as_group, CanCommit};
ghost use Rattle.te_terms.specs.Limits.{most_threads};
ghost use Rattle.te_cert.specs.Certificates.{Certificate};
ghost use Rattle.te_search.specs.Bounds.{enough_for};
ghost use Rattle.te_search.specs.Findings.{IsGroupOf, IsUsedUp, IsBudget, HasThread, put_in, without};
ghost use Rattle.te_search.specs.Stacks.{IsStack};
ghost use Rattle.te_search.specs.Plantings.{has_number};
ghost use Rattle.te_search.specs.declared.finding.SearchFault.TheVariants as faults;
ghost use Rattle.te_search.specs.declared.kept.KeptFound.TheVariants as answers;
ghost use Rattle.te_search.specs.declared.finding.Found.TheVariants as finds;

use crate::finals::Finals;
use crate::finding::{Found, SearchFault};
use crate::listed::ParkedList;
use crate::planted::PlantedThreads;
use crate::stack::Stack;
use crate::work::Work;
use std::alloc::Global;
use std::marker::Model;
use te_cert::Cert;
use te_pair::Waiting;
use te_terms::{Event, NoMemory, Outcome, Parked, Rows};
use te_trail::TrailStore;

// A stack of these events, of which none is planted.
fn stack_of(alloc: Global, parked: ParkedList) -> Result<Stack, NoMemory>
    requires rise { IsGroup (as_group parked) }
    ensures stack { IfOk result (λ s. IsStack s) }
    ensures parked { IfOk result (λ s. s.parked ≡ parked) }
{
    let store = TrailStore::new(alloc, &[])?;
    Ok(Stack {
        parked,
        threads: PlantedThreads::new(alloc),
        levels: Vec::new(alloc),
        work: Work {
            store,
            moves: Vec::new(alloc),
            pending: Vec::new(alloc),
            waiting: Waiting::new(alloc),
            finals: Finals::new(alloc),
            groups: 0,
        },
    })
}

/// The same events once more.
pub(crate) fn copies_of(alloc: Global, parked: &[Parked]) -> Result<ParkedList, NoMemory>
    ensures { IfOk result (λ copies. copies ≡ parked.now) }
{
    let mut copies = ParkedList::new(alloc);
    'parked: for i in 0..parked.len() {
        let one = &parked[i];
        let event = one.event.copy()?;
        copies.insert(
            i,
            Parked {
                thread: one.thread,
                ticket: one.ticket,
                event,
            },
        )?;
    }
    Ok(copies)
}

/// Searches parked events for a group: some of them that reduce together, and can't be split into two parts with no
/// meeting between them.
///
/// `Group` has a certificate that `check` accepts on the events of its members, which are parked in the list under their
/// threads and tickets. `Blocked` comes only where no part of the list reduces together. Which of several groups is found
/// isn't said.
///
/// Conditions: threads rise strictly, and the budget is 1 to 1,000,000. It is counted in paths and partial groups: to plant
/// an event or to take a branch of a choice makes one path, a meeting makes two; a partial group is a final path with the
/// joined past of agreeing final paths, itself among them, and none is tried twice.
///
/// The refusals: `Spent` where the next step would make paths and partial groups more than the budget, with how many
/// there were, together the budget or one less: the list has so many path names and group names, and has more than the
/// budget. So it never comes where the budget is at least `enough` of the list. `Memory` is want of memory. Whatever the
/// answer, the list and its events, which are shared, are as they were, and nothing of the search is left.
///
/// Groups and choices are those of Donnelly and Fluet, Transactional Events, JFP 18(5-6), 2008; paths, assembly and budgets
/// are this project's own.
pub fn find(alloc: Global, parked: &[Parked], budget: u64) -> Result<Found, SearchFault>
    requires rising { IsGroup (as_group parked.now) }
    requires budget { IsBudget budget }
    ensures group { (cert : Certificate) → result ≡ Ok (finds.Group cert) → (outcomes : List Outcome) × IsGroupOf parked.now cert outcomes }
    ensures blocked { result ≡ Ok finds.Blocked → ¬ CanCommit parked.now }
    ensures spent { (paths groups : ℕ) → result ≡ Err (faults.Spent paths groups) → IsUsedUp parked.now budget paths groups }
    ensures enough { enough_for (as_group parked.now) ≤ budget → (paths groups : ℕ) → result ≢ Err (faults.Spent paths groups) }
{
    let Ok(copies) = copies_of(alloc, parked) else {
        return Err(SearchFault::Memory);
    };
    let Ok(mut stack) = stack_of(alloc, copies) else {
        return Err(SearchFault::Memory);
    };
    match stack.search(alloc, budget) {
        Ok(Some(group)) => Ok(Found::Group(group.cert)),
        Ok(None) => Ok(Found::Blocked),
        Err(fault) => Err(fault),
    }
}

impl Stack {
    // Puts one more event into the list. It isn't planted yet.
    fn post(&mut self, parked: Parked) -> Result<(), NoMemory>
        requires stack { IsStack self.old }
        requires none { ¬ HasThread self.old.parked parked.thread }
        ensures stack { IsStack self.new }
        ensures ok { OnOk result (self.new.parked ≡ put_in parked self.old.parked) }
        ensures err { OnErr result (self.new.parked ≡ self.old.parked) }
    {
        let place = self.parked.place_for(parked.thread);
        self.parked.insert(place, parked)?;
        Ok(())
    }

    // Goes back to before a thread's event was planted.
    fn uproot(&mut self, thread: u32)
        requires stack { IsStack self.old }
        ensures stack { IsStack self.new }
        ensures parked { self.new.parked ≡ self.old.parked }
        ensures gone { has_number self.new.threads thread ≡ false }
    {
        let Some(i) = self.threads.place(thread) else {
            return;
        };
        self.cut(i);
    }

    // Takes an event out of the list, and goes back to before it was planted.
    fn remove(&mut self, thread: u32)
        requires stack { IsStack self.old }
        requires there { HasThread self.old.parked thread }
        ensures stack { IsStack self.new }
        ensures parked { self.new.parked ≡ without thread self.old.parked }
    {
        self.uproot(thread);
        match self.parked.place(thread) {
            Some(place) => self.parked.remove(place),
            None => unreachable!(),
        }
    }
}

/// What a kept search finds: the certificate of a group with the outcomes of its members, in their order, or nothing.
#[doc(hidden)]
#[derive(Drop)]
pub enum KeptFound {
    /// These members reduce together to these outcomes, and can't be split into two parts with no meeting between them.
    Group(Cert, Rows<Outcome>),
    /// No part of the list reduces.
    Blocked,
}

/// A search that is kept while its list changes, for rounds of commits and posts. It is seen as a list of parked events
/// with threads rising. Inside it plants one event after the other, each only where nothing is left to do on those
/// before: so it can go back to how all stood before any event that is removed. This is the project's own, and public for
/// the crates above alone.
#[doc(hidden)]
#[derive(Drop)]
pub struct KeptSearch {
    stack: Option<Stack>,
}

impl Model for KeptSearch {
    ghost use Rattle.std.specs.Prelude.{List};
    ghost use Rattle.std.specs.Coded.{coded_list};
    ghost use Rattle.te_terms.specs.declared.event.Parked.{Parked};
    ghost use Rattle.te_terms.specs.contracts.event.Parked as row;

    ghost Value = { List Parked };

    ghost coded = { coded_list row.the_row.coded };

    ghost use Rattle.te_search.specs.Stacks.{parked_of, StackIsKept};

    ghost view = { λ k. parked_of k.stack };

    ghost invariant = { λ k. StackIsKept k.stack };
}

impl KeptSearch {
    /// A search of no event. Where there is no memory for it, no event can be posted to it.
    pub fn new(alloc: Global) -> KeptSearch
        ensures { result ≡ [] }
    {
        match stack_of(alloc, ParkedList::new(alloc)) {
            Ok(stack) => KeptSearch { stack: Some(stack) },
            Err(_) => KeptSearch { stack: None },
        }
    }

    /// Parks an event, which is shared, for a thread under a ticket. Conditions: the thread is below 64 and has none. The
    /// one refusal is want of memory, and leaves the list as it was. What was searched before stands.
    pub fn post(&mut self, thread: u32, ticket: u32, event: &Event) -> Result<(), NoMemory>
        requires few { thread < most_threads }
        requires none { ¬ HasThread self.old thread }
        ensures ok { OnOk result (self.new ≡ put_in (record { thread = thread; ticket = ticket; event = event.now }) self.old) }
        ensures err { OnErr result (self.new ≡ self.old) }
    {
        let event = event.copy()?;
        match &mut self.stack {
            Some(stack) => stack.post(Parked {
                thread,
                ticket,
                event,
            }),
            None => Err(NoMemory),
        }
    }

    /// Takes a thread's event out of the list. Condition: it has one. It takes no memory.
    pub fn remove(&mut self, thread: u32)
        requires { HasThread self.old thread }
        ensures { self.new ≡ without thread self.old }
    {
        match &mut self.stack {
            Some(stack) => stack.remove(thread),
            None => unreachable!(),
        }
    }

    /// Searches the parked events for a group, as `find` does: its answers, its refusals and its budget mean the same. A
    /// group comes with the outcomes that the play of its certificate gives, in the order of its members. Whatever the
    /// answer, the list is as before.
    ///
    /// Condition: the budget is 1 to 1,000,000. The paths and partial groups that stand from earlier calls count for it.
    /// Where they are more, the search first goes back until they aren't. After a group and after a refusal it goes back by
    /// one event, whose work the next call does anew.
    pub fn find(&mut self, alloc: Global, budget: u64) -> Result<KeptFound, SearchFault>
        requires { IsBudget budget }
        ensures same { self.new ≡ self.old }
        ensures group { (cert : Certificate) (outcomes : List Outcome) → result ≡ Ok (answers.Group cert outcomes) → IsGroupOf self.old cert outcomes }
        ensures blocked { result ≡ Ok answers.Blocked → ¬ CanCommit self.old }
        ensures spent { (paths groups : ℕ) → result ≡ Err (faults.Spent paths groups) → IsUsedUp self.old budget paths groups }
        ensures enough { enough_for (as_group self.old) ≤ budget → (paths groups : ℕ) → result ≢ Err (faults.Spent paths groups) }
    {
        match &mut self.stack {
            Some(stack) => match stack.search(alloc, budget) {
                Ok(Some(group)) => Ok(KeptFound::Group(group.cert, group.outcomes)),
                Ok(None) => Ok(KeptFound::Blocked),
                Err(fault) => Err(fault),
            },
            None => Ok(KeptFound::Blocked),
        }
    }

    /// Whether a thread has an event. It is public for tests alone.
    #[doc(hidden)]
    pub fn has_thread(&self, thread: u32) -> bool
        ensures { IsTrue result ↔ HasThread self.now thread }
    {
        match &self.stack {
            Some(stack) => match stack.parked.place(thread) {
                Some(_) => true,
                None => false,
            },
            None => false,
        }
    }

    /// The parked events once more, which are shared. It is public for tests alone. The one refusal is want of memory.
    #[doc(hidden)]
    pub fn listed(&self, alloc: Global) -> Result<Vec<Parked>, NoMemory>
        ensures same { IfOk result (λ parked. parked.items ≡ self.now) }
        ensures rising { IfOk result (λ parked. IsGroup (as_group parked.items)) }
    {
        match &self.stack {
            Some(stack) => stack.parked.copies(alloc),
            None => Ok(Vec::new(alloc)),
        }
    }
}
