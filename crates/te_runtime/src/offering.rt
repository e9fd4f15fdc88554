// An event is parked.

ghost use Rattle.std.specs.Prelude.{◌≡◌, ◌<◌, ◌∷◌, [], false, IfOk, IfErr, OnErr};
ghost use Rattle.te_lock.specs.Lock.{IsSamePass};
ghost use Rattle.te_history.specs.declared.entry.Entry.TheVariants as entries;
ghost use Rattle.te_board.specs.Boards.{Appends};
ghost use Rattle.te_runtime.specs.Calls.{Called, Refused};
ghost use Rattle.te_runtime.specs.Turns.{GrowsBy};
ghost use Rattle.te_runtime.specs.Refusals.{RefusesOffer};

use crate::fault::SyncFault;
use crate::looking::{is_resting, is_stuck};
use crate::runtime::TeRuntime;
use te_board::{Board, BoardFault};
use te_history::Status;
use te_lock::{Pass, Turn};
use te_terms::{Event, Outcome};

/// Parks a copy of the event for an idle caller, on a board that is neither stuck nor resting.
pub(crate) fn post(board: &mut Board, by: u32, event: &Event) -> Result<u32, SyncFault>
    requires caller { by < board.old.callers }
    ensures ok { IfOk result (λ ticket. Appends board.old board.new (entries.Post by ticket event.now)) }
    ensures same { OnErr result (board.new ≡ board.old) }
    ensures goes_on { GrowsBy by board.old board.new }
    ensures cause { IfErr result (RefusesOffer board.old by) }
{
    // The checker knows the types within a fault only where the body names them.
    let _named: Option<(Status, Outcome)> = None;
    if is_stuck(board) {
        return Err(SyncFault::Stuck);
    }
    match board.status(by) {
        Status::Idle => {}
        status => return Err(SyncFault::Other(status)),
    }
    if is_resting(board) {
        return Err(SyncFault::Resting);
    }
    let Ok(copy) = event.copy() else {
        return Err(SyncFault::Memory);
    };
    match board.post(by, copy) {
        Ok(ticket) => Ok(ticket),
        Err(BoardFault::Full) => Err(SyncFault::Full),
        Err(_) => unreachable!(),
    }
}

impl TeRuntime {
    /// Tries the turn once and parks the event, which is shared; answers its ticket. It waits for nobody. Conditions: the
    /// pass is of this runtime, and hasn't the turn.
    ///
    /// The refusals, in order: `Busy` where another caller has the turn; `Stuck` where the board is stuck; `Other` with the
    /// caller's status where it isn't idle; `Resting` where the board is resting; `Full` where the board has no room for the
    /// post and all that the caller may then need; `Memory`. Nothing is then appended.
    pub fn offer(&self, pass: &mut Pass<Board>, event: &Event) -> Result<u32, SyncFault>
        requires here { pass.old.lock ≡ self.now }
        requires idle { pass.old.has_turn ≡ false }
        ensures same { IsSamePass pass.old pass.new }
        ensures turn { pass.new.has_turn ≡ false }
        ensures ok { IfOk result (λ ticket. Called pass.old pass.new
            (entries.Post pass.new.caller ticket event.now ∷ [])) }
        ensures refused { IfErr result (Refused RefusesOffer pass.old pass.new) }
    {
        let by = Turn::caller(pass);
        let mut board = self.enter(pass)?;
        let answer = post(&mut board, by, event);
        self.exit(pass, board);
        self.wake_others(by);
        answer
    }
}
