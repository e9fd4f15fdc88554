// Where the callers of a board stand.

ghost use Rattle.std.specs.Prelude.{◌≡◌, ◌<◌, ◌≤◌, length, slice_get};
ghost use Rattle.te_terms.specs.Limits.{most_threads};
ghost use Rattle.te_history.specs.Follows.{IsLegal};
ghost use Rattle.te_board.specs.Boards.{state_of, most_entries};
ghost use Rattle.te_serial.specs.Runs.{ShowsPlace};

use te_board::Board;
use te_history::Status;
use te_terms::Outcome;

/// Where a caller stands.
#[derive(Clone, Copy, Debug, PartialEq, Eq)]
pub(crate) enum Place {
    Idle,
    Parked,
    Given,
    Ended,
}

/// Where a caller stands, on a board whose history is legal.
pub(crate) fn place_of(board: &Board, by: u32) -> Place
    requires { by < board.now.callers }
    ensures place { ShowsPlace (slice_get (state_of board.now).callers by) result }
    ensures legal { IsLegal board.now.callers board.now.entries }
{
    // The checker knows the types within a status only where the body names them.
    let _named: Option<Outcome> = None;
    match board.history().status(by) {
        Status::Idle => Place::Idle,
        Status::Parked(_) => Place::Parked,
        Status::Given(_, _) => Place::Given,
        Status::Ended => Place::Ended,
    }
}

/// The number of callers of a board, whose history is legal and within the limit.
pub(crate) fn callers_of(board: &Board) -> u32
    ensures value { result ≡ board.now.callers }
    ensures each { length (state_of board.now).callers ≡ board.now.callers }
    ensures few { board.now.callers ≤ most_threads }
    ensures legal { IsLegal board.now.callers board.now.entries }
    ensures short { length board.now.entries ≤ most_entries }
{
    board.history().callers()
}
