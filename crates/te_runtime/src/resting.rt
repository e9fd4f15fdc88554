// The callers are told to come back.

ghost use Rattle.std.specs.Prelude.{◌≡◌, ◌<◌, ◌∷◌, [], false, IfErr, OnOk, OnErr};
ghost use Rattle.te_lock.specs.Lock.{IsSamePass};
ghost use Rattle.te_history.specs.declared.entry.Entry.TheVariants as entries;
ghost use Rattle.te_board.specs.Boards.{Appends};
ghost use Rattle.te_runtime.specs.Calls.{Called, RefusedAfterWait};
ghost use Rattle.te_runtime.specs.Turns.{GrowsBy};
ghost use Rattle.te_runtime.specs.Refusals.{RefusesResting};

use crate::fault::SyncFault;
use crate::looking::{is_resting, is_stuck};
use crate::runtime::TeRuntime;
use std::sync::Wait;
use te_board::Board;
use te_history::Status;
use te_lock::{Pass, Turn};
use te_terms::Outcome;

/// Rests a board that is neither stuck nor resting.
fn rest(board: &mut Board, by: u32) -> Result<(), SyncFault>
    requires caller { by < board.old.callers }
    ensures ok { OnOk result (Appends board.old board.new (entries.Rest by)) }
    ensures same { OnErr result (board.new ≡ board.old) }
    ensures goes_on { GrowsBy by board.old board.new }
    ensures cause { IfErr result (λ fault. RefusesResting board.old fault) }
{
    // The checker knows the types within a fault only where the body names them.
    let _named: Option<(Status, Outcome)> = None;
    if is_stuck(board) {
        return Err(SyncFault::Stuck);
    }
    if is_resting(board) {
        return Err(SyncFault::Resting);
    }
    match board.rest(by) {
        Ok(()) => Ok(()),
        Err(_) => unreachable!(),
    }
}

impl TeRuntime {
    /// Waits for the turn, and tells the callers to come back: no event may be parked any more, and each caller that waits
    /// in `sync` takes its event back, unless it is given its outcome first. It takes no memory. Conditions: the pass is of
    /// this runtime, and hasn't the turn.
    ///
    /// The refusals, in order: `Stuck` where the board is stuck; `Resting` where it is resting already. Nothing is then
    /// appended.
    pub fn rest<R: Wait>(&self, rt: &R, pass: &mut Pass<Board>) -> Result<(), SyncFault>
        requires here { pass.old.lock ≡ self.now }
        requires idle { pass.old.has_turn ≡ false }
        ensures same { IsSamePass pass.old pass.new }
        ensures turn { pass.new.has_turn ≡ false }
        ensures ok { OnOk result (Called pass.old pass.new (entries.Rest pass.new.caller ∷ [])) }
        ensures refused { IfErr result (RefusedAfterWait (λ board _. RefusesResting board) pass.old pass.new) }
    {
        let by = Turn::caller(pass);
        let mut board = self.wait_in(rt, pass);
        let answer = rest(&mut board, by);
        self.exit(pass, board);
        self.wake_others(by);
        answer
    }
}
