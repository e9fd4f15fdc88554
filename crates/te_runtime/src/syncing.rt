// A caller posts its event, and looks, searches and acts in rounds until it has its outcome.

ghost use Rattle.std.specs.Prelude.{◌≡◌, ◌⊎◌, ◌∷◌, [], false, IfOk, IfErr};
ghost use Rattle.te_terms.specs.Joint.{IsGroup, as_group};
ghost use Rattle.te_lock.specs.Entries.{entries_by};
ghost use Rattle.te_lock.specs.Lock.{Knowledge, IsSamePass};
ghost use Rattle.te_history.specs.declared.entry.Entry.{Entry};
ghost use Rattle.te_history.specs.declared.entry.Entry.TheVariants as entries;
ghost use Rattle.te_history.specs.Follows.{caller_of};
ghost use Rattle.te_board.specs.Boards.{state_of};
ghost use Rattle.te_search.specs.Findings.{IsBudget};
ghost use Rattle.te_runtime.specs.declared.fault.SyncFault.TheVariants as faults;
ghost use Rattle.te_runtime.specs.Refusals.{RefusesOffer, RefusesTurn};
ghost use Rattle.te_runtime.specs.Calls.{Called, RefusedAfterWait, board_of};
ghost use Rattle.te_runtime.specs.Syncs.{ParkedUnder, IsSynced, IsSyncRefused, HasEnded, HasParkedEvent};
ghost use Rattle.te_runtime.specs.Acts.{IsFoundIn, IsUnfound, IsSnapshotOf, IsActed};
ghost use Rattle.te_runtime.specs.Rounds.{HoldsTicket, HasPartedIn, HasLookedIn, IsStageOf, unfound, after_driven};

use crate::answers::Driven;
use crate::driving::act;
use crate::fault::SyncFault;
use crate::offering::post;
use crate::parting::{Outlook, begin, part};
use crate::runtime::TeRuntime;
use crate::waking::members_of;
use std::alloc::Global;
use std::sync::Wait;
use te_board::{Board, Snapshot};
use te_lock::{Pass, Turn};
use te_search::{Found, SearchFault, find};
use te_terms::{Event, Outcome, Parked};

/// What a round leaves to do.
#[derive(Clone, Copy)]
pub enum Stage {
    /// Another round.
    Again,
    /// Another round, once some caller has changed what may be done.
    Sleep,
    /// Nothing: this is what the caller is answered.
    Over(Result<Outcome, SyncFault>),
}

// Searches a list of parked events, on the caller's own thread.
fn find_alone(alloc: Global, parked: &[Parked], budget: u64) -> Result<Found, SearchFault>
    requires rising { IsGroup (as_group parked.now) }
    requires budget { IsBudget budget }
    ensures found { IfOk result (IsFoundIn parked.now) }
    ensures refused { IfErr result (IsUnfound parked.now budget) }
{
    find(alloc, parked, budget)
}

// What a caller is told of a search that came to no end.
fn unfound(front: u64, fault: SearchFault) -> SyncFault
    ensures { result ≡ unfound front fault }
{
    match fault {
        SearchFault::Spent { paths, groups } => SyncFault::Spent {
            front,
            paths,
            groups,
        },
        SearchFault::Memory => SyncFault::Memory,
    }
}

// What is left to do after what was done with what was found.
fn after_driven(driven: Driven) -> Stage
    ensures { result ≡ after_driven driven }
{
    match driven {
        Driven::Committed { .. } => Stage::Again,
        Driven::Moved { .. } => Stage::Again,
        Driven::Blocked { .. } => Stage::Sleep,
        Driven::Stuck => Stage::Over(Err(SyncFault::Stuck)),
    }
}

impl TeRuntime {
    // The first turn: the event is posted.
    fn post_in<R: Wait>(
        &self,
        rt: &R,
        pass: &mut Pass<Board>,
        event: &Event,
    ) -> Result<u32, SyncFault>
        requires here { pass.old.lock ≡ self.now }
        requires idle { pass.old.has_turn ≡ false }
        ensures ok { IfOk result (λ ticket. Called pass.old pass.new
            (entries.Post pass.new.caller ticket event.now ∷ [])) }
        ensures holds { IfOk result (HoldsTicket (state_of (board_of pass.new)) pass.new.caller) }
        ensures refused { IfErr result (RefusedAfterWait RefusesOffer pass.old pass.new) }
    {
        let by = Turn::caller(pass);
        let mut board = self.wait_in(rt, pass);
        let ticket = post(&mut board, by, event);
        self.exit(pass, board);
        ticket
    }

    // A turn that looks, and may part.
    fn look_after<R: Wait>(
        &self,
        rt: &R,
        alloc: Global,
        pass: &mut Pass<Board>,
        ticket: u32,
    ) -> Outlook
        requires here { pass.old.lock ≡ self.now }
        requires idle { pass.old.has_turn ≡ false }
        requires whole { entries_by caller_of pass.old.caller pass.old.read ≡ pass.old.own }
        requires holds { HoldsTicket (state_of (board_of pass.old)) pass.old.caller ticket }
        ensures { HasLookedIn pass.old pass.new ticket result }
    {
        let by = Turn::caller(pass);
        let mut board = self.wait_in(rt, pass);
        let outlook = begin(alloc, &mut board, by, ticket);
        self.exit(pass, board);
        outlook
    }

    // A turn that acts on what was found in the list at the end of what the pass has read.
    fn act_after<R: Wait>(
        &self,
        rt: &R,
        alloc: Global,
        pass: &mut Pass<Board>,
        found: Found,
        snapshot: &Snapshot,
    ) -> Result<Driven, SyncFault>
        requires here { pass.old.lock ≡ self.now }
        requires idle { pass.old.has_turn ≡ false }
        requires seen { IsSnapshotOf pass.old snapshot.now }
        requires found { IsFoundIn snapshot.now.parked found }
        ensures ok { IfOk result (IsActed pass.old pass.new) }
        ensures refused { IfErr result (RefusedAfterWait (λ board _. RefusesTurn board) pass.old pass.new) }
    {
        let by = Turn::caller(pass);
        let mut board = self.wait_in(rt, pass);
        let members = members_of(&found);
        let driven = act(alloc, &mut board, by, found, snapshot);
        self.exit(pass, board);
        self.wake_after(by, &driven, &members);
        driven
    }

    // A turn that parts, for this reason.
    fn part_after<R: Wait>(
        &self,
        rt: &R,
        pass: &mut Pass<Board>,
        ticket: u32,
        reason: SyncFault,
    ) -> Result<Outcome, SyncFault>
        requires here { pass.old.lock ≡ self.now }
        requires idle { pass.old.has_turn ≡ false }
        requires whole { entries_by caller_of pass.old.caller pass.old.read ≡ pass.old.own }
        requires holds { HoldsTicket (state_of (board_of pass.old)) pass.old.caller ticket }
        ensures { HasPartedIn pass.old pass.new ticket reason result }
    {
        let by = Turn::caller(pass);
        let mut board = self.wait_in(rt, pass);
        let answer = part(&mut board, by, ticket, reason);
        self.exit(pass, board);
        answer
    }

    // The rest of a round, after the turn that looked: the caller searches, and acts on what it finds.
    fn search_after<R: Wait>(
        &self,
        rt: &R,
        alloc: Global,
        pass: &mut Pass<Board>,
        ticket: u32,
        snapshot: &Snapshot,
        budget: u64,
    ) -> Stage
        requires here { pass.old.lock ≡ self.now }
        requires idle { pass.old.has_turn ≡ false }
        requires whole { entries_by caller_of pass.old.caller pass.old.read ≡ pass.old.own }
        requires holds { HoldsTicket (state_of (board_of pass.old)) pass.old.caller ticket }
        requires seen { IsSnapshotOf pass.old snapshot.now }
        requires parks { ParkedUnder (state_of (board_of pass.old)) pass.old.caller ticket }
        requires budget { IsBudget budget }
        ensures { (first : Knowledge Entry) → Called first pass.old [] → IsStageOf budget ticket first pass.new result }
    {
        match find_alone(alloc, snapshot.parked.as_slice(), budget) {
            Ok(found) => match self.act_after(rt, alloc, pass, found, snapshot) {
                Ok(driven) => after_driven(driven),
                Err(SyncFault::Stuck) => Stage::Over(Err(SyncFault::Stuck)),
                Err(_) => Stage::Over(self.part_after(rt, pass, ticket, SyncFault::Memory)),
            },
            Err(fault) => {
                let reason = unfound(snapshot.front, fault);
                Stage::Over(self.part_after(rt, pass, ticket, reason))
            }
        }
    }

    // One round: the caller looks, and searches where it is parked still.
    fn round<R: Wait>(
        &self,
        rt: &R,
        alloc: Global,
        pass: &mut Pass<Board>,
        ticket: u32,
        budget: u64,
    ) -> Stage
        requires here { pass.old.lock ≡ self.now }
        requires idle { pass.old.has_turn ≡ false }
        requires whole { entries_by caller_of pass.old.caller pass.old.read ≡ pass.old.own }
        requires holds { HoldsTicket (state_of (board_of pass.old)) pass.old.caller ticket }
        requires budget { IsBudget budget }
        ensures { IsStageOf budget ticket pass.old pass.new result }
    {
        match self.look_after(rt, alloc, pass, ticket) {
            Outlook::Search(snapshot) => {
                self.search_after(rt, alloc, pass, ticket, &snapshot, budget)
            }
            Outlook::Over(answer) => Stage::Over(answer),
        }
    }

    /// Parks the event, which is shared, and waits until a group that it is in has committed; answers the outcome, which it
    /// takes. While it waits it searches the parked events itself, without the turn: it commits the groups that it finds,
    /// whether it is in them or not, and declares the board stuck where no group can commit and every caller is parked or has
    /// ended. Where others must come first, it sleeps until one of them has changed what may be done. Conditions: the pass is
    /// of this runtime, and hasn't the turn; the budget of a search is 1 to 1,000,000 paths and partial groups.
    ///
    /// The refusals at its first turn, in order: `Stuck` where the board is stuck; `Other` with the caller's status where it
    /// isn't idle; `Resting` where the board is resting; `Full` where the board has no room for the post and all that the
    /// caller may then need; `Memory`. Nothing is then appended.
    ///
    /// The refusals later: `Stuck` where the board is declared stuck, by this caller or another; the event is then parked
    /// still. `Resting` where the board is resting; `Spent` where a search of the list that was parked when the history had
    /// length `front` has used up its budget; `Memory`. After these three the event isn't parked any more: it was taken back,
    /// and where it was committed or the board declared stuck before that, the answer is the outcome or `Stuck`.
    pub fn sync<R: Wait>(
        &self,
        rt: &R,
        alloc: Global,
        pass: &mut Pass<Board>,
        event: &Event,
        budget: u64,
    ) -> Result<Outcome, SyncFault>
        requires here { pass.old.lock ≡ self.now }
        requires idle { pass.old.has_turn ≡ false }
        requires budget { IsBudget budget }
        ensures same { IsSamePass pass.old pass.new }
        ensures turn { pass.new.has_turn ≡ false }
        ensures ok { IfOk result (IsSynced pass.old pass.new event.now) }
        ensures refused { IfErr result (IsSyncRefused budget pass.old pass.new event.now) }
        // on a stuck board the caller is parked, or had ended before this call
        ensures stuck { IfErr result (λ fault. fault ≡ faults.Stuck → HasParkedEvent pass.new ⊎ HasEnded pass.old) }
    {
        let by = Turn::caller(pass);
        let ticket = match self.post_in(rt, pass, event) {
            Ok(ticket) => ticket,
            Err(fault) => return Err(fault),
        };
        'rounds: for _ in rt.forever() {
            match self.round(rt, alloc, pass, ticket, budget) {
                Stage::Again => {}
                Stage::Sleep => self.sleep(rt, by),
                Stage::Over(Ok(outcome)) => return Ok(outcome),
                Stage::Over(Err(fault)) => {
                    self.wake_others(by);
                    return Err(fault);
                }
            }
        }
        unreachable!()
    }
}
