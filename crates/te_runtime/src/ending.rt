// A caller ends.

ghost use Rattle.std.specs.Prelude.{◌≡◌, ◌<◌, ◌↔◌, ◌∷◌, [], false, IsTrue, IfErr, OnOk, OnErr};
ghost use Rattle.te_lock.specs.Lock.{IsSamePass};
ghost use Rattle.te_history.specs.declared.entry.Entry.TheVariants as entries;
ghost use Rattle.te_history.specs.declared.status.How.TheVariants as ways;
ghost use Rattle.te_board.specs.Boards.{Appends};
ghost use Rattle.te_runtime.specs.Calls.{Called, RefusedAfterWait, board_of};
ghost use Rattle.te_runtime.specs.Turns.{GrowsBy};
ghost use Rattle.te_runtime.specs.Refusals.{HasStuck, RefusesEnding};

use crate::fault::SyncFault;
use crate::looking::is_stuck;
use crate::runtime::TeRuntime;
use std::sync::Wait;
use te_board::{Board, BoardFault};
use te_history::{How, Status};
use te_lock::{Pass, Turn};
use te_terms::Outcome;

/// Whether this is to end as stuck.
fn is_as_stuck(how: &How) -> bool
    ensures { IsTrue result ↔ (how.now ≡ ways.Stuck) }
{
    match how {
        How::Stuck => true,
        _ => false,
    }
}

/// Ends the caller: an idle one on a running board, a parked one on a stuck board.
fn end(board: &mut Board, by: u32, how: How) -> Result<(), SyncFault>
    requires caller { by < board.old.callers }
    requires how { how ≡ ways.Stuck → HasStuck board.old }
    ensures ok { OnOk result (Appends board.old board.new (entries.End by how)) }
    ensures same { OnErr result (board.new ≡ board.old) }
    ensures goes_on { GrowsBy by board.old board.new }
    ensures cause { IfErr result (RefusesEnding how board.old by) }
{
    // The checker knows the types within a fault only where the body names them.
    let _named: Option<(Status, Outcome)> = None;
    if is_stuck(board) && !is_as_stuck(&how) {
        return Err(SyncFault::Stuck);
    }
    match board.end(by, how) {
        Ok(()) => Ok(()),
        Err(BoardFault::NotIdle(status)) => Err(SyncFault::Other(status)),
        Err(BoardFault::NotParked(status)) => Err(SyncFault::Other(status)),
        Err(_) => unreachable!(),
    }
}

impl TeRuntime {
    /// Waits for the turn, and ends the caller. It takes no memory. Conditions: the pass is of this runtime, and hasn't the
    /// turn; `how` is `Stuck` only where the pass has read that the board is declared stuck.
    ///
    /// The refusals, in order: `Stuck` where the board is stuck and `how` isn't; `Other` with the caller's status where it
    /// isn't idle on a running board, or isn't parked on a stuck one. Nothing is then appended.
    pub fn end<R: Wait>(&self, rt: &R, pass: &mut Pass<Board>, how: How) -> Result<(), SyncFault>
        requires here { pass.old.lock ≡ self.now }
        requires idle { pass.old.has_turn ≡ false }
        requires how { how ≡ ways.Stuck → HasStuck (board_of pass.old) }
        ensures same { IsSamePass pass.old pass.new }
        ensures turn { pass.new.has_turn ≡ false }
        ensures ok { OnOk result (Called pass.old pass.new (entries.End pass.new.caller how ∷ [])) }
        ensures refused { IfErr result (RefusedAfterWait (RefusesEnding how) pass.old pass.new) }
    {
        let by = Turn::caller(pass);
        let mut board = self.wait_in(rt, pass);
        let answer = end(&mut board, by, how);
        self.exit(pass, board);
        self.wake_others(by);
        answer
    }
}
