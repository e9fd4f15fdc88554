ghost use Rattle.std.specs.Prelude.{◌≡◌, ◌≢◌, ◌≤◌, ℕ, [], Err, OnOk, IfErr};
ghost use Rattle.te_terms.specs.Joint.{as_group};
ghost use Rattle.te_board.specs.Boards.{state_of};
ghost use Rattle.te_history.specs.State.{parked_list};
ghost use Rattle.te_search.specs.Bounds.{enough_for};
ghost use Rattle.te_serial.specs.declared.fault.FinishFault.TheVariants as faults;
ghost use Rattle.te_history.specs.Follows.{IsLegal};
ghost use Rattle.te_report.specs.Whole.{IsWhole};
ghost use Rattle.te_search.specs.Findings.{IsBudget};
ghost use Rattle.te_serial.specs.Rounds.{IsInRounds};
ghost use Rattle.te_serial.specs.Houses.{IsHouse, Continues};
ghost use Rattle.te_serial.specs.Finishing.{HasCause};

use crate::closing::end_parked;
use crate::fault::FinishFault;
use crate::place::callers_of;
use crate::rounds::run;
use crate::taking::take_given;
use std::alloc::Global;
use std::mem;
use te_board::Board;
use te_history::Phase;
use te_script::Core;
use te_terms::Rows;

// What `finish` does, over the cores as a `Vec`.
fn finish_cores(
    alloc: Global,
    board: &mut Board,
    cores: &mut Vec<Core>,
    budget: u64,
) -> Result<(), FinishFault>
    requires house { IsHouse board.old cores.old.items }
    requires budget { IsBudget budget }
    ensures continues { Continues board.old cores.old.items board.new cores.new.items }
    ensures whole { OnOk result (IsWhole board.new.callers board.new.entries) }
    ensures rounds { OnOk result (board.old.entries ≡ [] → IsInRounds board.new.callers board.new.entries) }
    ensures cause { IfErr result (λ fault. HasCause board.new cores.new.items budget fault) }
{
    take_given(board, cores);
    match board.phase() {
        Phase::Stuck => {
            // The board tells that its history is legal: on a stuck board all are parked or have ended.
            let _callers = callers_of(board);
            end_parked(board);
            Ok(())
        }
        Phase::Running => run(alloc, board, cores, budget),
    }
}

/// Runs the threads of a board to their end: callers that hold an outcome take it, in order; on a stuck board the parked
/// callers end; then serial rounds run until every caller has ended. In a round each idle caller, in order, posts what
/// its core wishes to synchronise on, or ends. Then, while a search of the parked list finds a group, its lowest member
/// commits it, and its members take their outcomes in order. Where nothing is left to do but the list can't commit, the
/// lowest parked caller declares the board stuck, and the parked callers end. Serial rounds are this project's own; what a
/// group is comes from Donnelly and Fluet, Transactional Events, JFP 18(5-6), 2008.
///
/// Conditions: one core a caller, each where the outcomes that its caller has taken leave it; the history is of the
/// cores' texts; the budget of each search is 1 to 1,000,000 paths and partial groups.
///
/// Refused with `Spent` where a search has used up its budget, which is then less than `enough` of the list that is parked;
/// with `Full` where the board has no room for the post of an idle caller; and with `Memory` for want of memory. What was
/// appended by then stands: the history is legal and begins with the earlier one, no withdrawal, no rest and no commit but a
/// tight one was appended, each core has its old text and is where its takes leave it. So the conditions of a further call
/// are met again, which goes on from there.
pub fn finish(
    alloc: Global,
    board: &mut Board,
    cores: &mut Rows<Core>,
    budget: u64,
) -> Result<(), FinishFault>
    requires house { IsHouse board.old cores.old }
    requires budget { IsBudget budget }
    ensures legal { IsLegal board.new.callers board.new.entries }
    ensures continues { Continues board.old cores.old board.new cores.new }
    ensures whole { OnOk result (IsWhole board.new.callers board.new.entries) }
    ensures rounds { OnOk result (board.old.entries ≡ [] → IsInRounds board.new.callers board.new.entries) }
    ensures cause { IfErr result (λ fault. HasCause board.new cores.new budget fault) }
    ensures enough { enough_for (as_group (parked_list (state_of board.new))) ≤ budget → (front paths groups : ℕ) → result ≢ Err (faults.Spent front paths groups) }
{
    let mut list = mem::replace(cores, Rows::new(alloc)).into_vec();
    let finished = finish_cores(alloc, board, &mut list, budget);
    *cores = Rows::from(list);
    // The board tells that its history is legal.
    let _callers = callers_of(board);
    finished
}
