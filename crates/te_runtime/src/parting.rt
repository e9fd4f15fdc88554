// A caller that synchronises looks at the board: it goes on to search, or parts from it.

ghost use Rattle.std.specs.Prelude.{◌≡◌, ◌<◌, ℕ};
ghost use Rattle.te_board.specs.Boards.{state_of};
ghost use Rattle.te_runtime.specs.Turns.{GrowsBy};
ghost use Rattle.te_runtime.specs.Rounds.{HoldsTicket, HasParted, HasLooked};

use crate::fault::SyncFault;
use crate::looking::{is_resting, is_stuck, look};
use std::alloc::Global;
use te_board::{Board, Snapshot};
use te_history::Status;
use te_terms::Outcome;

/// What a look at the board leaves to do.
#[derive(Drop)]
pub enum Outlook {
    /// To search these parked events, of which the caller's own is one.
    Search(Snapshot),
    /// Nothing: this is what the caller is answered.
    Over(Result<Outcome, SyncFault>),
}

/// Ends the wait of a caller that has posted under this ticket: it takes the outcome that it was given, or else takes its
/// event back, for this reason. On a stuck board it does nothing, and tells that.
pub(crate) fn part(
    board: &mut Board,
    by: u32,
    ticket: u32,
    reason: SyncFault,
) -> Result<Outcome, SyncFault>
    requires caller { by < board.old.callers }
    requires holds { HoldsTicket (state_of board.old) by ticket }
    ensures parted { HasParted board.old board.new by ticket reason result }
    ensures goes_on { GrowsBy by board.old board.new }
{
    if is_stuck(board) {
        return Err(SyncFault::Stuck);
    }
    if let Ok(outcome) = board.take(by) {
        return Ok(outcome);
    }
    match board.withdraw(by) {
        Ok(_) => Err(reason),
        Err(_) => unreachable!(),
    }
}

/// Looks at the board for a caller that has posted under this ticket. It parts where the caller was given its outcome,
/// where the board is stuck or resting, or for want of memory.
pub(crate) fn begin(alloc: Global, board: &mut Board, by: u32, ticket: u32) -> Outlook
    requires caller { by < board.old.callers }
    requires holds { HoldsTicket (state_of board.old) by ticket }
    ensures looked { HasLooked board.old board.new by ticket result }
    ensures goes_on { GrowsBy by board.old board.new }
{
    if is_resting(board) {
        return Outlook::Over(part(board, by, ticket, SyncFault::Resting));
    }
    if let Status::Parked(_) = board.status(by) {
        if let Ok(snapshot) = look(alloc, board) {
            return Outlook::Search(snapshot);
        }
    }
    // Who isn't parked takes its outcome or finds the board stuck, so that only who is parked tells want of memory.
    Outlook::Over(part(board, by, ticket, SyncFault::Memory))
}
