// The openings of a round: each idle caller posts what its core wishes, or ends.

ghost use Rattle.std.specs.Prelude.{◌≡◌, ◌⊎◌, ℕ, ◌<◌, ◌≤◌, [], ◌∷◌, OnOk, OnErr, IfErr};
ghost use Rattle.te_terms.specs.Limits.{most_threads};
ghost use Rattle.te_terms.specs.Terms.{Term};
ghost use Rattle.te_history.specs.declared.entry.Entry.TheVariants as entries;
ghost use Rattle.te_history.specs.State.{idle, parked};
ghost use Rattle.te_history.specs.Follows.{IsRunning, Stands, MayEndAs};
ghost use Rattle.te_board.specs.Boards.{state_of};
ghost use Rattle.te_search.specs.Findings.{HasThread, put_in};
ghost use Rattle.te_serial.specs.Houses.{IsHouse, Continues, grown, texts_of};
ghost use Rattle.te_serial.specs.Finishing.{HasCause};
ghost use Rattle.te_serial.specs.Runs.{IsParkedAt, IsKeptOf, NoneGiven, HasOpened, MayHaveOpened, HasOpenedAll, PostFails, OpenFails, posted};

use crate::fault::FinishFault;
use crate::place::{Place, callers_of, place_of};
use te_board::{Board, BoardFault};
use te_history::{How, Status};
use te_script::{Core, Want};
use te_search::KeptSearch;
use te_terms::{Event, NoMemory, Outcome};

/// Keeps the event of a parked caller for the search.
pub(crate) fn keep(board: &Board, kept: &mut KeptSearch, t: u32) -> Result<(), NoMemory>
    requires parked { IsParkedAt (state_of board.now) t }
    requires caller { t < board.now.callers }
    requires few { t < most_threads }
    requires apart { ¬ HasThread kept.old t }
    ensures { OnOk result ((ticket : ℕ) (event : Term) → Stands (state_of board.now) t (parked ticket event) → kept.new ≡ put_in (record { thread = t; ticket = ticket; event = event }) kept.old) }
{
    let _named: Option<Outcome> = None;
    let hist = board.history();
    match hist.status(t) {
        Status::Parked(ticket) => kept.post(t, ticket, hist.parked_event(t)),
        _ => unreachable!(),
    }
}

// The caller ends.
pub(crate) fn end(board: &mut Board, by: u32, how: How)
    requires ends { MayEndAs (state_of board.old) by how }
    requires caller { by < board.old.callers }
    ensures { board.new ≡ grown board.old (entries.End by how ∷ []) }
{
    let _named: Option<(Status, Outcome)> = None;
    match board.end(by, how) {
        Ok(()) => {}
        Err(_) => unreachable!(),
    }
}

// Parks the event of an idle caller, and keeps it for the search.
fn post(board: &mut Board, kept: &mut KeptSearch, t: u32, event: Event) -> Result<(), FinishFault>
    requires running { IsRunning (state_of board.old) }
    requires idle { Stands (state_of board.old) t idle }
    requires caller { t < board.old.callers }
    requires few { t < most_threads }
    requires kept { IsKeptOf kept.old board.old }
    ensures may { (board.new ≡ board.old) ⊎ (board.new ≡ posted board.old t event) }
    ensures ok { OnOk result (board.new ≡ posted board.old t event) }
    ensures kept { OnOk result (IsKeptOf kept.new board.new) }
    ensures cause { IfErr result (λ fault. PostFails board.new t fault) }
{
    let _named: Option<(Status, Outcome)> = None;
    match board.post(t, event) {
        Ok(_) => {
            keep(board, kept, t)?;
            Ok(())
        }
        Err(BoardFault::Full) => Err(FinishFault::Full),
        Err(_) => unreachable!(),
    }
}

// Posts what the core of an idle caller wishes, or ends the caller.
fn open(board: &mut Board, core: &Core, kept: &mut KeptSearch, t: u32) -> Result<(), FinishFault>
    requires running { IsRunning (state_of board.old) }
    requires idle { Stands (state_of board.old) t idle }
    requires caller { t < board.old.callers }
    requires few { t < most_threads }
    requires kept { IsKeptOf kept.old board.old }
    ensures may { MayHaveOpened board.old board.new t core.now.stand }
    ensures ok { OnOk result (HasOpened board.old board.new t core.now.stand) }
    ensures kept { OnOk result (IsKeptOf kept.new board.new) }
    ensures cause { IfErr result (λ fault. OpenFails board.new t core.now.stand fault) }
{
    match core.want()? {
        Want::Sync(event) => post(board, kept, t, event),
        Want::Done => {
            let values = core.copy_emitted()?;
            end(board, t, How::Done(values));
            Ok(())
        }
        Want::Raised(value) => {
            end(board, t, How::Raised(value));
            Ok(())
        }
    }
}

/// Each idle caller, in order, posts what its core wishes, or ends.
pub(crate) fn open_all(
    board: &mut Board,
    cores: &Vec<Core>,
    kept: &mut KeptSearch,
) -> Result<(), FinishFault>
    requires house { IsHouse board.old cores.now.items }
    requires running { IsRunning (state_of board.old) }
    requires none { NoneGiven (state_of board.old) }
    requires kept { IsKeptOf kept.old board.old }
    ensures continues { Continues board.old cores.now.items board.new cores.now.items }
    ensures opened { OnOk result (HasOpenedAll board.old board.new) }
    ensures kept { OnOk result (IsKeptOf kept.new board.new) }
    ensures cause { (budget : ℕ) → IfErr result (λ fault. HasCause board.new cores.now.items budget fault) }
{
    for t in 0..callers_of(board) {
        match place_of(board, t) {
            Place::Idle => open(board, &cores[t as usize], kept, t)?,
            Place::Parked | Place::Given | Place::Ended => {}
        }
    }
    Ok(())
}
