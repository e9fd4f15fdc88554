// The ways in which the threads of a script run.

ghost use Rattle.std.specs.Prelude.{◌≡◌, [], length, IfOk, map};
ghost use Rattle.te_script.specs.Scripts.{IsProgram};
ghost use Rattle.te_script.specs.Cores.{core_after};
ghost use Rattle.te_search.specs.Findings.{IsBudget};
ghost use Rattle.te_serial.specs.Houses.{IsHouse};
ghost use Rattle.tevents.specs.Runs.{in_rounds, in_threads, RunEndsSo};
ghost use Rattle.tevents.specs.Completing.{IsCompleted};

use std::alloc::Global;
use std::sync::{Arc, Wait};
use std::thread::Threads;
use te_board::Board;
use te_report::Ending;
use te_runtime::{Gate, House, run_threads};
use te_script::{Core, Script};
use te_serial::{FinishFault, finish};
use te_terms::{NoMemory, Rows};

/// What a run leaves: the board with its history, and how it ended.
#[derive(Drop)]
pub(crate) struct Run {
    pub(crate) board: Board,
    pub(crate) ending: Ending,
}

// A core for each thread, before any of them has done anything.
fn cores_of(alloc: Global, script: &Script) -> Result<Rows<Core>, NoMemory>
    ensures { IfOk result (λ cores. cores ≡ map (λ t. core_after t []) script.now.threads) }
{
    let mut cores = Rows::new(alloc);
    for text in script.threads.as_slice() {
        cores.push(Core::new(alloc, Arc::try_clone(text)?)?)?;
    }
    Ok(cores)
}

// Runs the threads of a house on to their end, in serial rounds.
fn complete(
    alloc: Global,
    mut board: Board,
    mut cores: Rows<Core>,
    budget: u64,
) -> Result<Run, NoMemory>
    requires house { IsHouse board cores }
    requires budget { IsBudget budget }
    ensures { IfOk result (λ run. IsCompleted budget board cores run.board run.ending) }
{
    let ending = match finish(alloc, &mut board, &mut cores, budget) {
        Ok(()) => Ending::Closed,
        Err(FinishFault::Full) => Ending::Full,
        Err(
            FinishFault::Spent {
                front,
                paths,
                groups,
            },
        ) => Ending::Spent {
            front,
            paths,
            groups,
        },
        Err(FinishFault::Memory) => return Err(NoMemory),
    };
    let _whole = board.len();
    Ok(Run { board, ending })
}

/// Runs the threads of a script in serial rounds, by a budget for each search. The one refusal is want of memory.
pub(crate) fn run_rounds(alloc: Global, script: &Script, budget: u64) -> Result<Run, NoMemory>
    requires budget { IsBudget budget }
    requires program { IsProgram script.now }
    ensures callers { IfOk result (λ run. run.board.callers ≡ length script.now.threads) }
    ensures ends { IfOk result (λ run. RunEndsSo in_rounds budget script.now run.board.entries run.ending) }
{
    let cores = cores_of(alloc, script)?;
    let board = Board::new(alloc, cores.len() as u32)?;
    complete(alloc, board, cores, budget)
}

/// Runs each thread of a script in a thread of its own, through the gate before each sync, and in serial rounds what these
/// leave undone, by a budget for each search. The one refusal is want of memory.
pub(crate) fn run_workers<R: Threads + Wait + Sync, G: Gate + Sync>(
    rt: &R,
    alloc: Global,
    script: &Script,
    budget: u64,
    gate: &G,
) -> Result<Run, NoMemory>
    requires budget { IsBudget budget }
    ensures callers { IfOk result (λ run. run.board.callers ≡ length script.now.threads) }
    ensures ends { IfOk result (λ run. RunEndsSo in_threads budget script.now run.board.entries run.ending) }
{
    let House { board, cores } = run_threads(rt, alloc, script, budget, gate)?;
    complete(alloc, board, cores, budget)
}
