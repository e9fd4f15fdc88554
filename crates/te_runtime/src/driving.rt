// The parked list is searched without the turn, and what was found is done at a second turn.

ghost use Rattle.std.specs.Prelude.{◌≡◌, ◌≢◌, ◌<◌, [], false, MatchBool, IfOk, IfErr, OnOk, OnErr};
ghost use Rattle.te_terms.specs.Joint.{IsGroup, as_group, CanCommit};
ghost use Rattle.te_lock.specs.Lock.{IsSamePass};
ghost use Rattle.te_history.specs.State.{parked_list};
ghost use Rattle.te_board.specs.Boards.{state_of};
ghost use Rattle.te_search.specs.Findings.{IsBudget};
ghost use Rattle.te_runtime.specs.Refusals.{RefusesTurn, RefusesDrive};
ghost use Rattle.te_runtime.specs.Calls.{Called, Refused, RefusedOnce};
ghost use Rattle.te_runtime.specs.Answers.{IsDriven};
ghost use Rattle.te_runtime.specs.Turns.{GrowsBy};
ghost use Rattle.te_runtime.specs.Acts.{IsGroupIn, IsFoundIn, IsUnfound, Drives, IsSnapshotOf, IsActed};

use crate::answers::Driven;
use crate::comparing::are_same;
use crate::fault::SyncFault;
use crate::looking::look;
use crate::runtime::TeRuntime;
use crate::waking::members_of;
use std::alloc::Global;
use std::thread::Threads;
use te_board::{Board, BoardFault, Snapshot};
use te_cert::Cert;
use te_crew::find_with;
use te_history::Status;
use te_lock::{Pass, Turn};
use te_search::{Found, SearchFault};
use te_terms::{Outcome, Parked};

/// Commits the group that was found in the snapshot's list, where its members are still parked so.
fn commit(
    alloc: Global,
    board: &mut Board,
    by: u32,
    cert: Cert,
    snapshot: &Snapshot,
) -> Result<Driven, SyncFault>
    requires caller { by < board.old.callers }
    requires group { IsGroupIn snapshot.now.parked cert }
    ensures ok { IfOk result (Drives board.old board.new by snapshot.now) }
    ensures same { OnErr result (board.new ≡ board.old) }
    ensures goes_on { GrowsBy by board.old board.new }
    ensures cause { IfErr result (RefusesTurn board.old) }
{
    // The checker knows the types within a fault only where the body names them.
    let _named: Option<(Status, Outcome)> = None;
    match board.commit(alloc, by, cert) {
        Ok(()) => Ok(Driven::Committed { front: board.len() }),
        Err(fault) => match fault {
            BoardFault::Closed => Err(SyncFault::Stuck),
            BoardFault::Memory => Err(SyncFault::Memory),
            _ => Ok(Driven::Moved {
                from: snapshot.front,
                front: board.len(),
            }),
        },
    }
}

/// Whether the parked list is still that of the snapshot.
fn is_unmoved(alloc: Global, board: &Board, snapshot: &Snapshot) -> Result<bool, SyncFault>
    ensures ok { IfOk result (λ same. MatchBool same
        (snapshot.now.parked ≡ parked_list (state_of board.now))
        (snapshot.now.parked ≢ parked_list (state_of board.now))) }
    ensures cause { IfErr result (RefusesTurn board.now) }
{
    let Ok(now) = board.snapshot(alloc) else {
        return Err(SyncFault::Memory);
    };
    Ok(are_same(snapshot.parked.as_slice(), now.parked.as_slice()))
}

/// Declares the board stuck, where the snapshot's list, which can't commit, is still the parked one and the caller may.
fn declare(
    alloc: Global,
    board: &mut Board,
    by: u32,
    snapshot: &Snapshot,
) -> Result<Driven, SyncFault>
    requires caller { by < board.old.callers }
    requires cannot { ¬ CanCommit snapshot.now.parked }
    ensures ok { IfOk result (Drives board.old board.new by snapshot.now) }
    ensures same { OnErr result (board.new ≡ board.old) }
    ensures goes_on { GrowsBy by board.old board.new }
    ensures cause { IfErr result (RefusesTurn board.old) }
{
    // The checker knows the types within a fault only where the body names them.
    let _named: Option<(Status, Outcome)> = None;
    let from = snapshot.front;
    match board.declare_stuck(by, snapshot) {
        Ok(()) => Ok(Driven::Stuck),
        Err(fault) => match fault {
            BoardFault::Closed => Err(SyncFault::Stuck),
            BoardFault::Moved(front) => Ok(Driven::Moved { from, front }),
            _ => {
                let front = board.len();
                if is_unmoved(alloc, board, snapshot)? {
                    Ok(Driven::Blocked { front })
                } else {
                    Ok(Driven::Moved { from, front })
                }
            }
        },
    }
}

/// Does what was found in the snapshot's list.
pub(crate) fn act(
    alloc: Global,
    board: &mut Board,
    by: u32,
    found: Found,
    snapshot: &Snapshot,
) -> Result<Driven, SyncFault>
    requires caller { by < board.old.callers }
    requires found { IsFoundIn snapshot.now.parked found }
    ensures ok { IfOk result (Drives board.old board.new by snapshot.now) }
    ensures same { OnErr result (board.new ≡ board.old) }
    ensures goes_on { GrowsBy by board.old board.new }
    ensures cause { IfErr result (RefusesTurn board.old) }
{
    match found {
        Found::Group(cert) => commit(alloc, board, by, cert, snapshot),
        Found::Blocked => declare(alloc, board, by, snapshot),
    }
}

impl TeRuntime {
    /// Tries the turn once, takes a snapshot of the parked events, and gives the turn back. It searches them without the
    /// turn, and tries it once more to do what was found: to commit a group, or to declare the board stuck where no group
    /// can commit and every caller is parked or has ended, this one parked. It waits for no other caller, only for the
    /// threads of its search, of which there are at most as many as the runtime has workers. Conditions: the pass is of this
    /// runtime, and hasn't the turn; the budget of the search is 1 to 1,000,000 paths and partial groups.
    ///
    /// The refusals: `Busy` where another caller has the turn, at the first or at the second try; `Stuck` where the board is
    /// stuck; `Spent` where the search has used up its budget, which is less than `enough` of the list that is parked at
    /// `front`; `Memory`. Nothing is then appended.
    pub fn drive<R: Threads + Sync>(
        &self,
        rt: &R,
        alloc: Global,
        pass: &mut Pass<Board>,
        budget: u64,
    ) -> Result<Driven, SyncFault>
        requires here { pass.old.lock ≡ self.now }
        requires idle { pass.old.has_turn ≡ false }
        requires budget { IsBudget budget }
        ensures same { IsSamePass pass.old pass.new }
        ensures turn { pass.new.has_turn ≡ false }
        ensures ok { IfOk result (IsDriven pass.old pass.new) }
        ensures refused { IfErr result (RefusedOnce (RefusesDrive budget) pass.old pass.new) }
    {
        let snapshot = self.look_in(alloc, pass)?;
        match self.search(rt, alloc, snapshot.parked.as_slice(), budget) {
            Ok(found) => self.act_in(alloc, pass, found, &snapshot),
            Err(SearchFault::Spent { paths, groups }) => Err(SyncFault::Spent {
                front: snapshot.front,
                paths,
                groups,
            }),
            Err(SearchFault::Memory) => Err(SyncFault::Memory),
        }
    }

    // Searches a list of parked events, by the runtime's workers.
    fn search<R: Threads + Sync>(
        &self,
        rt: &R,
        alloc: Global,
        parked: &[Parked],
        budget: u64,
    ) -> Result<Found, SearchFault>
        requires rising { IsGroup (as_group parked.now) }
        requires budget { IsBudget budget }
        ensures found { IfOk result (IsFoundIn parked.now) }
        ensures refused { IfErr result (IsUnfound parked.now budget) }
    {
        find_with(rt, alloc, parked, budget, self.workers)
    }

    // The first turn: it only looks.
    fn look_in(&self, alloc: Global, pass: &mut Pass<Board>) -> Result<Snapshot, SyncFault>
        requires here { pass.old.lock ≡ self.now }
        requires idle { pass.old.has_turn ≡ false }
        ensures called { OnOk result (Called pass.old pass.new []) }
        ensures seen { IfOk result (IsSnapshotOf pass.new) }
        ensures refused { IfErr result (Refused (λ board _. RefusesTurn board) pass.old pass.new) }
    {
        let board = self.enter(pass)?;
        let snapshot = look(alloc, &board);
        self.exit(pass, board);
        snapshot
    }

    // The second turn: it acts on what was found in the list at the end of what the pass has read.
    fn act_in(
        &self,
        alloc: Global,
        pass: &mut Pass<Board>,
        found: Found,
        snapshot: &Snapshot,
    ) -> Result<Driven, SyncFault>
        requires here { pass.old.lock ≡ self.now }
        requires idle { pass.old.has_turn ≡ false }
        requires seen { IsSnapshotOf pass.old snapshot.now }
        requires found { IsFoundIn snapshot.now.parked found }
        ensures ok { IfOk result (IsActed pass.old pass.new) }
        ensures refused { IfErr result (Refused (λ board _. RefusesTurn board) pass.old pass.new) }
    {
        let by = Turn::caller(pass);
        let mut board = self.enter(pass)?;
        let members = members_of(&found);
        let driven = act(alloc, &mut board, by, found, snapshot);
        self.exit(pass, board);
        self.wake_after(by, &driven, &members);
        driven
    }
}
