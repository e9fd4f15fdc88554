// Rounds of openings, groups and ends, until every caller has ended.

ghost use Rattle.std.specs.Prelude.{◌≡◌, ℕ, ◌≤◌, [], length, OnOk, IfErr, MatchBool};
ghost use Rattle.te_history.specs.Follows.{IsRunning, IsLegal};
ghost use Rattle.te_report.specs.Whole.{IsWhole};
ghost use Rattle.te_board.specs.Boards.{state_of, most_entries};
ghost use Rattle.te_search.specs.Findings.{IsBudget};
ghost use Rattle.te_serial.specs.Houses.{IsHouse, Continues};
ghost use Rattle.te_serial.specs.Finishing.{HasCause};
ghost use Rattle.te_serial.specs.Runs.{NoneGiven, IsKeptOf, AreReady, HasRound, HasRounds};

use crate::closing::close;
use crate::committing::commit_all;
use crate::fault::FinishFault;
use crate::opening::{keep, open_all};
use crate::place::{Place, callers_of, place_of};
use std::alloc::Global;
use te_board::Board;
use te_script::Core;
use te_search::KeptSearch;
use te_terms::NoMemory;

// Keeps the events of all parked callers for the search.
fn keep_parked(board: &Board, kept: &mut KeptSearch) -> Result<(), NoMemory>
    requires { kept.old ≡ [] }
    ensures { OnOk result (IsKeptOf kept.new board.now) }
{
    for t in 0..callers_of(board) {
        match place_of(board, t) {
            Place::Parked => keep(board, kept, t)?,
            Place::Idle | Place::Given | Place::Ended => {}
        }
    }
    Ok(())
}

// Whether every caller has ended.
fn all_ended(board: &Board) -> bool
    ensures all { MatchBool result (IsWhole board.now.callers board.now.entries) (¬ IsWhole board.now.callers board.now.entries) }
    ensures short { length board.now.entries ≤ most_entries }
{
    for t in 0..callers_of(board) {
        match place_of(board, t) {
            Place::Idle | Place::Parked | Place::Given => return false,
            Place::Ended => {}
        }
    }
    true
}

// One round: openings, groups, and the end where nothing is left to do.
fn round(
    alloc: Global,
    board: &mut Board,
    cores: &mut Vec<Core>,
    kept: &mut KeptSearch,
    budget: u64,
) -> Result<(), FinishFault>
    requires house { IsHouse board.old cores.old.items }
    requires running { IsRunning (state_of board.old) }
    requires none { NoneGiven (state_of board.old) }
    requires kept { IsKeptOf kept.old board.old }
    requires budget { IsBudget budget }
    ensures round { OnOk result (HasRound board.old board.new) }
    ensures ready { OnOk result (AreReady board.new kept.new) }
    ensures continues { Continues board.old cores.old.items board.new cores.new.items }
    ensures cause { IfErr result (λ fault. HasCause board.new cores.new.items budget fault) }
{
    open_all(board, cores, kept)?;
    commit_all(alloc, board, cores, kept, budget)?;
    close(alloc, board)?;
    Ok(())
}

/// Runs rounds until every caller has ended.
pub(crate) fn run(
    alloc: Global,
    board: &mut Board,
    cores: &mut Vec<Core>,
    budget: u64,
) -> Result<(), FinishFault>
    requires house { IsHouse board.old cores.old.items }
    requires running { IsRunning (state_of board.old) }
    requires none { NoneGiven (state_of board.old) }
    requires budget { IsBudget budget }
    ensures rounds { OnOk result (HasRounds board.old board.new) }
    ensures continues { Continues board.old cores.old.items board.new cores.new.items }
    ensures cause { IfErr result (λ fault. HasCause board.new cores.new.items budget fault) }
{
    let mut kept = KeptSearch::new(alloc);
    keep_parked(board, &mut kept)?;
    'rounds: while !all_ended(board) {
        round(alloc, board, cores, &mut kept, budget)?;
    }
    Ok(())
}
