// The turn, taken and given back: all that a call says of its pass comes from these.

ghost use Rattle.std.specs.Prelude.{◌≡◌, IfOk, IfErr, true, false};
ghost use Rattle.te_runtime.specs.Calls.{IsBusy};
ghost use Rattle.te_runtime.specs.Turns.{Entered, TurnGoesOn, Left};

use crate::fault::SyncFault;
use crate::runtime::TeRuntime;
use std::sync::Wait;
use te_board::Board;
use te_lock::{Kept, Pass, Turn};

impl TeRuntime {
    /// Asks for the turn once.
    pub(crate) fn enter(&self, pass: &mut Pass<Board>) -> Result<Board, SyncFault>
        requires here { pass.old.lock ≡ self.now }
        requires idle { pass.old.has_turn ≡ false }
        ensures ok { IfOk result (Entered pass.old pass.new) }
        ensures busy { IfErr result (IsBusy pass.old pass.new) }
    {
        // The pass tells that what it has read is lawful, which stays so where the turn is held.
        let _caller = Turn::caller(pass);
        match self.lock.try_turn(pass) {
            Ok(board) => Ok(board),
            Err(busy) => Err(SyncFault::Busy { word: busy.word }),
        }
    }

    /// Waits for the turn.
    pub(crate) fn wait_in<R: Wait>(&self, rt: &R, pass: &mut Pass<Board>) -> Board
        requires here { pass.old.lock ≡ self.now }
        requires idle { pass.old.has_turn ≡ false }
        ensures { Entered pass.old pass.new result }
    {
        self.lock.turn(rt, pass)
    }

    /// Gives the turn back, with a board that has entries of this caller more.
    pub(crate) fn exit(&self, pass: &mut Pass<Board>, board: Board)
        requires here { pass.old.lock ≡ self.now }
        requires turn { pass.old.has_turn ≡ true }
        requires goes_on { TurnGoesOn pass.old board }
        ensures { Left pass.old pass.new board.entries }
    {
        // The board tells that its history is short.
        let _length = board.length();
        self.lock.leave(pass, board);
    }
}
