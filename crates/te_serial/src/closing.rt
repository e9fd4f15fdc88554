// The end of a round where nothing is left to do: the board is declared stuck, and the parked callers end.

ghost use Rattle.std.specs.Prelude.{◌≡◌, ◌⊎◌, ℕ, true, [], ◌∷◌, OnOk, OnErr, IfSome, IfNone, ◌<◌};
ghost use Rattle.std.specs.List.{AllByRecursion};
ghost use Rattle.te_terms.specs.Joint.{CanCommit};
ghost use Rattle.te_history.specs.declared.entry.Entry.TheVariants as entries;
ghost use Rattle.te_history.specs.State.{parked_list};
ghost use Rattle.te_history.specs.Follows.{IsRunning, IsParkedOrEnded};
ghost use Rattle.te_board.specs.Boards.{state_of};
ghost use Rattle.te_script.specs.Cores.{At};
ghost use Rattle.std.specs.Prelude.{List};
ghost use Rattle.te_serial.specs.Rounds.{IsStuckDue, IsLowestParked};
ghost use Rattle.te_serial.specs.Houses.{IsHouse, Continues, grown};
ghost use Rattle.te_serial.specs.Runs.{IsParkedAt, HasEndedAll, HasClosed};

use crate::opening::end;
use crate::place::{Place, callers_of, place_of};
use std::alloc::Global;
use te_board::Board;
use te_history::{How, Status};
use te_terms::{NoMemory, Outcome};

// The lowest parked caller, where every caller is parked or ended and one is parked.
fn due(board: &Board) -> Option<u32>
    ensures some { IfSome result (λ t. IsStuckDue (state_of board.now) × IsLowestParked (parked_list (state_of board.now)) t) }
    ensures none { IfNone result (¬ IsStuckDue (state_of board.now)) }
{
    let mut lowest = None;
    for t in 0..callers_of(board) {
        match place_of(board, t) {
            Place::Idle | Place::Given => return None,
            Place::Parked => {
                if lowest.is_none() {
                    lowest = Some(t);
                }
            }
            Place::Ended => {}
        }
    }
    lowest
}

// The caller tells that the board is stuck.
fn declare_stuck(alloc: Global, board: &mut Board, by: u32) -> Result<(), NoMemory>
    requires running { IsRunning (state_of board.old) }
    requires parked { IsParkedAt (state_of board.old) by }
    requires caller { by < board.old.callers }
    requires all { AllByRecursion IsParkedOrEnded (state_of board.old).callers }
    requires cannot { ¬ CanCommit (parked_list (state_of board.old)) }
    ensures ok { OnOk result (board.new ≡ grown board.old (entries.Stuck by ∷ [])) }
    ensures err { OnErr result (board.new ≡ board.old) }
{
    let _named: Option<(Status, Outcome)> = None;
    let snapshot = board.snapshot(alloc)?;
    match board.declare_stuck(by, &snapshot) {
        Ok(()) => Ok(()),
        Err(_) => unreachable!(),
    }
}

/// On a stuck board each parked caller ends, in order.
pub(crate) fn end_parked(board: &mut Board)
    requires stuck { (state_of board.old).stuck ≡ true }
    requires settled { AllByRecursion IsParkedOrEnded (state_of board.old).callers }
    ensures { HasEndedAll board.old board.new }
{
    for t in 0..callers_of(board) {
        match place_of(board, t) {
            Place::Parked => end(board, t, How::Stuck),
            Place::Idle | Place::Given | Place::Ended => {}
        }
    }
}

/// Declares the board stuck and ends the parked callers, where that is due.
pub(crate) fn close(alloc: Global, board: &mut Board) -> Result<(), NoMemory>
    requires running { IsRunning (state_of board.old) }
    requires none_left { ¬ CanCommit (parked_list (state_of board.old)) }
    ensures ok { OnOk result (HasClosed board.old board.new) }
    ensures err { OnErr result (board.new ≡ board.old) }
{
    match due(board) {
        None => Ok(()),
        Some(lowest) => {
            declare_stuck(alloc, board, lowest)?;
            end_parked(board);
            Ok(())
        }
    }
}
