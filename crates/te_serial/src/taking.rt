// Callers take the outcomes that they hold, and their cores move on.

ghost use Rattle.std.specs.Prelude.{◌≡◌, ℕ, ◌<◌, ◌≤◌, Some, slice_get};
ghost use Rattle.te_cert.specs.declared.cert.Cert.{Cert};
ghost use Rattle.te_cert.specs.declared.cert.Member.{Member};
ghost use Rattle.te_terms.specs.declared.event.Outcome.{Outcome as Given};
ghost use Rattle.te_history.specs.declared.entry.Entry.TheVariants as entries;
ghost use Rattle.te_history.specs.Follows.{IsLegal};
ghost use Rattle.te_board.specs.Boards.{state_of, HasTaken};
ghost use Rattle.te_serial.specs.Houses.{IsHouse, Continues};
ghost use Rattle.te_serial.specs.Runs.{IsGivenIn, HasTakenOne, HasTakenGiven, IsToTake, HasTakenAll, IsCommitAt, TellsCount, HasMember, TellsMember};

use crate::place::{Place, callers_of, place_of};
use te_board::Board;
use te_history::{Entry, Hist, Status};
use te_script::Core;
use te_terms::Outcome;

// The caller takes the outcome that it holds.
fn take_outcome(board: &mut Board, t: u32) -> Outcome
    requires given { IsGivenIn (state_of board.old) t }
    requires caller { t < board.old.callers }
    ensures { HasTaken board.old board.new t result }
{
    let _named: Option<(Status, Outcome)> = None;
    match board.take(t) {
        Ok(outcome) => outcome,
        Err(_) => unreachable!(),
    }
}

// The caller takes the outcome that it holds, and its core moves on by it.
fn take(board: &mut Board, cores: &mut Vec<Core>, t: u32)
    requires house { IsHouse board.old cores.old.items }
    requires legal { IsLegal board.old.callers board.old.entries }
    requires given { IsGivenIn (state_of board.old) t }
    ensures taken { HasTakenOne board.old board.new t }
    ensures continues { Continues board.old cores.old.items board.new cores.new.items }
{
    let outcome = take_outcome(board, t);
    let core = &mut cores[t as usize];
    core.give(outcome);
}

/// Whoever holds an outcome takes it, in order of the callers.
pub(crate) fn take_given(board: &mut Board, cores: &mut Vec<Core>)
    requires { IsHouse board.old cores.old.items }
    ensures taken { HasTakenGiven board.old board.new }
    ensures continues { Continues board.old cores.old.items board.new cores.new.items }
{
    for t in 0..callers_of(board) {
        match place_of(board, t) {
            Place::Given => take(board, cores, t),
            Place::Idle | Place::Parked | Place::Ended => {}
        }
    }
}

// How many members the commit at a place has.
fn members_at(hist: &Hist, place: u64) -> usize
    requires { IsCommitAt hist.now.entries place }
    ensures { TellsCount hist.now.entries place result }
{
    match hist.get(place) {
        Some(Entry::Commit { cert, .. }) => cert.members.len(),
        _ => unreachable!(),
    }
}

// The thread of a member of the commit at a place.
fn member_at(hist: &Hist, place: u64, i: usize) -> u32
    requires { HasMember hist.now.entries place i }
    ensures { TellsMember hist.now.entries place i result }
{
    match hist.get(place) {
        Some(Entry::Commit { cert, .. }) => match cert.members.get(i) {
            Some(member) => member.thread,
            None => unreachable!(),
        },
        _ => unreachable!(),
    }
}

/// The members of the commit that is the entry at a place take their outcomes, in order.
pub(crate) fn take_all(board: &mut Board, cores: &mut Vec<Core>, place: u64)
    requires house { IsHouse board.old cores.old.items }
    requires to_take { IsToTake board.old place }
    ensures taken { HasTakenAll board.old board.new place }
    ensures continues { Continues board.old cores.old.items board.new cores.new.items }
{
    let count = members_at(board.history(), place);
    for i in 0..count {
        let t = member_at(board.history(), place, i);
        take(board, cores, t);
    }
}
