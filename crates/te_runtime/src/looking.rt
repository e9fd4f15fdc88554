// What a caller sees of the board while it has the turn.

ghost use Rattle.std.specs.Prelude.{◌≡◌, true, length, IfOk, IfErr};
ghost use Rattle.te_history.specs.State.{parked_list};
ghost use Rattle.te_board.specs.Boards.{state_of};
ghost use Rattle.te_runtime.specs.Refusals.{HasStuck, HasRest, RefusesTurn};

use crate::fault::SyncFault;
use std::alloc::Global;
use te_board::{Board, Snapshot};
use te_history::{Phase, declarations_stand};

/// Whether the board is stuck; then an entry says so.
pub(crate) fn is_stuck(board: &Board) -> bool
    ensures value { result ≡ (state_of board.now).stuck }
    ensures declared { result ≡ true → HasStuck board.now }
{
    declarations_stand();
    match board.phase() {
        Phase::Stuck => true,
        Phase::Running => false,
    }
}

/// Whether the board is resting; then an entry says so.
pub(crate) fn is_resting(board: &Board) -> bool
    ensures value { result ≡ (state_of board.now).resting }
    ensures declared { result ≡ true → HasRest board.now }
{
    declarations_stand();
    board.resting()
}

/// The length of the history and the parked list, on a board that isn't stuck.
pub(crate) fn look(alloc: Global, board: &Board) -> Result<Snapshot, SyncFault>
    ensures front { IfOk result (λ seen. seen.front ≡ length board.now.entries) }
    ensures parked { IfOk result (λ seen. seen.parked ≡ parked_list (state_of board.now)) }
    ensures cause { IfErr result (RefusesTurn board.now) }
{
    if is_stuck(board) {
        return Err(SyncFault::Stuck);
    }
    match board.snapshot(alloc) {
        Ok(snapshot) => Ok(snapshot),
        Err(_) => Err(SyncFault::Memory),
    }
}
