// A parked event is taken back.

ghost use Rattle.std.specs.Prelude.{◌≡◌, ◌<◌, ◌∷◌, [], false, IfOk, IfErr, OnErr};
ghost use Rattle.te_lock.specs.Lock.{IsSamePass};
ghost use Rattle.te_history.specs.declared.entry.Entry.TheVariants as entries;
ghost use Rattle.te_board.specs.Boards.{Appends};
ghost use Rattle.te_runtime.specs.Calls.{Called, Refused};
ghost use Rattle.te_runtime.specs.Turns.{GrowsBy};
ghost use Rattle.te_runtime.specs.Refusals.{RefusesRecall};

use crate::fault::SyncFault;
use crate::looking::is_stuck;
use crate::runtime::TeRuntime;
use te_board::{Board, BoardFault};
use te_history::Status;
use te_lock::{Pass, Turn};
use te_terms::Outcome;

/// Takes back the event of a parked caller, on a board that isn't stuck.
pub(crate) fn withdraw(board: &mut Board, by: u32) -> Result<u32, SyncFault>
    requires caller { by < board.old.callers }
    ensures ok { IfOk result (λ ticket. Appends board.old board.new (entries.Withdraw by ticket)) }
    ensures same { OnErr result (board.new ≡ board.old) }
    ensures goes_on { GrowsBy by board.old board.new }
    ensures cause { IfErr result (RefusesRecall board.old by) }
{
    // The checker knows the types within a fault only where the body names them.
    let _named: Option<(Status, Outcome)> = None;
    if is_stuck(board) {
        return Err(SyncFault::Stuck);
    }
    match board.withdraw(by) {
        Ok(ticket) => Ok(ticket),
        Err(BoardFault::NotParked(status)) => Err(SyncFault::Other(status)),
        Err(_) => unreachable!(),
    }
}

impl TeRuntime {
    /// Tries the turn once and takes back the caller's parked event; answers its ticket. It waits for nobody, and takes no
    /// memory. Conditions: the pass is of this runtime, and hasn't the turn.
    ///
    /// The refusals, in order: `Busy` where another caller has the turn; `Stuck` where the board is stuck; `Other` with the
    /// caller's status where it isn't parked. Nothing is then appended.
    pub fn recall(&self, pass: &mut Pass<Board>) -> Result<u32, SyncFault>
        requires here { pass.old.lock ≡ self.now }
        requires idle { pass.old.has_turn ≡ false }
        ensures same { IsSamePass pass.old pass.new }
        ensures turn { pass.new.has_turn ≡ false }
        ensures ok { IfOk result (λ ticket. Called pass.old pass.new (entries.Withdraw pass.new.caller ticket ∷ [])) }
        ensures refused { IfErr result (Refused RefusesRecall pass.old pass.new) }
    {
        let by = Turn::caller(pass);
        let mut board = self.enter(pass)?;
        let answer = withdraw(&mut board, by);
        self.exit(pass, board);
        self.wake_others(by);
        answer
    }
}
