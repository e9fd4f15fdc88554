// A caller asks after its parked event.

ghost use Rattle.std.specs.Prelude.{◌≡◌, ◌<◌, Ok, false, length, IfOk, IfErr, OnErr};
ghost use Rattle.te_lock.specs.Lock.{IsSamePass};
ghost use Rattle.te_board.specs.Boards.{state_of};
ghost use Rattle.te_runtime.specs.declared.answers.Polled.TheVariants as polled;
ghost use Rattle.te_runtime.specs.Calls.{Refused, FoundFree, board_of};
ghost use Rattle.te_runtime.specs.Turns.{GrowsBy};
ghost use Rattle.te_runtime.specs.Refusals.{RefusesPoll};
ghost use Rattle.te_runtime.specs.Answers.{CallerWaits, IsPolled};
ghost use Rattle.te_runtime.specs.Acts.{Polls};

use crate::answers::Polled;
use crate::fault::SyncFault;
use crate::looking::is_stuck;
use crate::runtime::TeRuntime;
use te_board::{Board, BoardFault};
use te_history::Status;
use te_lock::{Pass, Turn};
use te_terms::Outcome;

/// Takes the outcome that the caller was given, or finds it parked still, on a board that isn't stuck.
pub(crate) fn take(board: &mut Board, by: u32) -> Result<Polled, SyncFault>
    requires caller { by < board.old.callers }
    ensures ok { IfOk result (Polls board.old board.new by) }
    ensures same { OnErr result (board.new ≡ board.old) }
    ensures goes_on { GrowsBy by board.old board.new }
    ensures cause { IfErr result (RefusesPoll board.old by) }
{
    // The checker knows the types within a fault only where the body names them.
    let _named: Option<(Status, Outcome)> = None;
    if is_stuck(board) {
        return Err(SyncFault::Stuck);
    }
    match board.take(by) {
        Ok(outcome) => Ok(Polled::Ready(outcome)),
        Err(BoardFault::NotGiven(status)) => match status {
            Status::Parked(_) => Ok(Polled::Waiting { front: board.len() }),
            other => Err(SyncFault::Other(other)),
        },
        Err(_) => unreachable!(),
    }
}

impl TeRuntime {
    /// Tries the turn once, and takes the outcome that the caller was given, or tells that it is parked still, on a running
    /// board. It waits for nobody, and takes no memory. Conditions: the pass is of this runtime, and hasn't the turn.
    ///
    /// The refusals, in order: `Busy` where another caller has the turn; `Stuck` where the board is stuck; `Other` with the
    /// caller's status where it is idle or has ended. Nothing is then appended.
    pub fn poll(&self, pass: &mut Pass<Board>) -> Result<Polled, SyncFault>
        requires here { pass.old.lock ≡ self.now }
        requires idle { pass.old.has_turn ≡ false }
        ensures same { IsSamePass pass.old pass.new }
        ensures turn { pass.new.has_turn ≡ false }
        ensures ok { IfOk result (IsPolled pass.old pass.new) }
        ensures refused { IfErr result (Refused RefusesPoll pass.old pass.new) }
        // it answers that the caller waits wherever the turn was free and the caller does
        ensures waits { FoundFree pass.new.looks → CallerWaits (state_of (board_of pass.new)) pass.new.caller
            → result ≡ Ok (polled.Waiting (length pass.new.read)) }
    {
        let by = Turn::caller(pass);
        let mut board = self.enter(pass)?;
        let answer = take(&mut board, by);
        self.exit(pass, board);
        answer
    }
}
