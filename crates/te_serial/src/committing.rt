// Groups of the parked list commit, each by its lowest member, and its members take their outcomes.

ghost use Rattle.std.specs.Prelude.{◌≡◌, ℕ, ◌≤◌, length, OnOk, OnErr, IfOk, IfErr, MatchBool, vec_len};
ghost use Rattle.te_terms.specs.Joint.{CanCommit};
ghost use Rattle.te_history.specs.State.{parked_list};
ghost use Rattle.te_history.specs.Follows.{IsRunning, IsLegal};
ghost use Rattle.te_board.specs.Boards.{state_of, most_entries};
ghost use Rattle.te_search.specs.Findings.{IsBudget, IsGroupOf};
ghost use Rattle.te_serial.specs.Houses.{IsHouse, Continues};
ghost use Rattle.te_serial.specs.Finishing.{HasCause};
ghost use Rattle.te_serial.specs.Runs.{NoneGiven, IsKeptOf, without_all, AreKept, AppendsCommit, HasCommittedBlock, HasCommittedAll};

use crate::fault::FinishFault;
use crate::taking::take_all;
use std::alloc::Global;
use te_board::{Board, BoardFault};
use te_cert::{Cert, Member};
use te_history::Status;
use te_script::Core;
use te_search::{KeptFound, KeptSearch, SearchFault};
use te_terms::{Outcome, Rows};

// Takes the events of members out of the kept list.
fn release(kept: &mut KeptSearch, members: &[Member])
    requires { AreKept members.now kept.old }
    ensures { kept.new ≡ without_all members.now kept.old }
{
    for member in members {
        kept.remove(member.thread);
    }
}

// A group commits by its lowest member.
fn append_commit(board: &mut Board, cert: Cert, outcomes: Rows<Outcome>)
    requires running { IsRunning (state_of board.old) }
    requires group { IsGroupOf (parked_list (state_of board.old)) cert outcomes }
    ensures { AppendsCommit board.old board.new cert outcomes }
{
    let _named: Option<(Status, Outcome)> = None;
    let lowest = cert.members.as_slice()[0].thread;
    match board.commit_played(lowest, cert, outcomes) {
        Ok(()) => {}
        Err(_) => unreachable!(),
    }
}

// A group that was found commits, and its members take their outcomes.
fn commit(
    board: &mut Board,
    cores: &mut Vec<Core>,
    kept: &mut KeptSearch,
    cert: Cert,
    outcomes: Rows<Outcome>,
)
    requires house { IsHouse board.old cores.old.items }
    requires running { IsRunning (state_of board.old) }
    requires none { NoneGiven (state_of board.old) }
    requires kept { IsKeptOf kept.old board.old }
    requires group { IsGroupOf kept.old cert outcomes }
    ensures committed { HasCommittedBlock board.old board.new }
    ensures continues { Continues board.old cores.old.items board.new cores.new.items }
    ensures kept { IsKeptOf kept.new board.new }
{
    let place = board.len();
    release(kept, cert.members.as_slice());
    append_commit(board, cert, outcomes);
    take_all(board, cores, place);
}

// One group commits, where one can.
fn commit_block(
    alloc: Global,
    board: &mut Board,
    cores: &mut Vec<Core>,
    kept: &mut KeptSearch,
    budget: u64,
) -> Result<bool, FinishFault>
    requires house { IsHouse board.old cores.old.items }
    requires running { IsRunning (state_of board.old) }
    requires none { NoneGiven (state_of board.old) }
    requires kept { IsKeptOf kept.old board.old }
    requires budget { IsBudget budget }
    ensures committed { IfOk result (λ some. MatchBool some (HasCommittedBlock board.old board.new)
        ((board.new ≡ board.old) × (¬ CanCommit (parked_list (state_of board.old))))) }
    ensures continues { Continues board.old cores.old.items board.new cores.new.items }
    ensures kept { OnOk result (IsKeptOf kept.new board.new) }
    ensures cause { IfErr result (λ fault. HasCause board.new cores.new.items budget fault) }
    ensures short { length board.old.entries ≤ most_entries }
{
    let front = board.len();
    match kept.find(alloc, budget) {
        Ok(KeptFound::Group(cert, outcomes)) => {
            commit(board, cores, kept, cert, outcomes);
            Ok(true)
        }
        Ok(KeptFound::Blocked) => Ok(false),
        Err(SearchFault::Spent { paths, groups }) => Err(FinishFault::Spent {
            front,
            paths,
            groups,
        }),
        Err(SearchFault::Memory) => Err(FinishFault::Memory),
    }
}

/// Groups commit until none can.
pub(crate) fn commit_all(
    alloc: Global,
    board: &mut Board,
    cores: &mut Vec<Core>,
    kept: &mut KeptSearch,
    budget: u64,
) -> Result<(), FinishFault>
    requires house { IsHouse board.old cores.old.items }
    requires running { IsRunning (state_of board.old) }
    requires none { NoneGiven (state_of board.old) }
    requires kept { IsKeptOf kept.old board.old }
    requires budget { IsBudget budget }
    ensures committed { OnOk result (HasCommittedAll board.old board.new) }
    ensures continues { Continues board.old cores.old.items board.new cores.new.items }
    ensures kept { OnOk result (IsKeptOf kept.new board.new) }
    ensures cause { IfErr result (λ fault. HasCause board.new cores.new.items budget fault) }
{
    while commit_block(alloc, board, cores, kept, budget)? {}
    Ok(())
}
