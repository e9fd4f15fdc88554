ghost use Rattle.std.specs.Prelude.{◌≡◌, ◌≤◌, IfOk};
ghost use Rattle.te_serial.specs.Houses.{IsHouse, AreFresh};

use std::alloc::Global;
use std::sync::Arc;
use std::test::Fail;
use te_board::Board;
use te_history::Entry;
use te_script::{Core, Script, generate};
use te_serial::*;
use te_terms::Rows;

// The cores of a script's threads, at their first wishes.
fn first_cores(alloc: Global, script: &Script) -> Result<Rows<Core>, Fail>
    ensures { IfOk result (λ cores. AreFresh cores) }
{
    let mut cores = Rows::new(alloc);
    for text in script.threads.as_slice() {
        cores.push(Core::new(alloc, Arc::try_clone(text)?)?)?;
    }
    Ok(cores)
}

// A board of the generator's threads, before any of them has done anything, with their cores.
fn house(alloc: Global, number: u32) -> Result<(Board, Rows<Core>), Fail>
    requires { number ≤ 999 }
    ensures { IfOk result (λ house. IsHouse house.0 house.1) }
{
    let script = generate(alloc, number)?;
    let cores = first_cores(alloc, &script)?;
    let callers = cores.len();
    if callers == 0 || callers > 64 {
        Err("a number of callers")?;
    }
    let board = Board::new(alloc, callers as u32)?;
    Ok((board, cores))
}

// How many groups have committed.
fn commits_of(board: &Board) -> u64 {
    let hist = board.history();
    let mut count = 0;
    for i in 0..hist.len() {
        if let Some(Entry::Commit { .. }) = hist.get(i) {
            count += 1;
        }
    }
    count
}

#[test]
fn rings_commit_and_end(rt: HostRuntime) -> Result<(), Fail> {
    fresh_channels_are_made_by_commits();
    fresh_channels_are_different();
    for (number, commits, entries) in [(0, 1, 10), (20, 441, 3150), (299, 1800, 12618)] {
        let (mut board, mut cores) = house(rt.alloc(), number)?;
        let finished = finish(rt.alloc(), &mut board, &mut cores, 100_000);
        assert_eq!(rt; finished, Ok(()), "the rings of {number}");
        assert_eq!(rt; commits_of(&board), commits, "the commits of {number}");
        assert_eq!(rt; board.len(), entries, "the entries of {number}");
    }
    Ok(())
}

#[test]
fn a_second_call_goes_on_after_the_budget(rt: HostRuntime) -> Result<(), Fail> {
    let (mut board, mut cores) = house(rt.alloc(), 0)?;
    let spent = FinishFault::Spent {
        front: 3,
        paths: 1,
        groups: 0,
    };
    assert_eq!(rt; finish(rt.alloc(), &mut board, &mut cores, 1), Err(spent));
    assert_eq!(rt; board.len(), 3);
    assert_eq!(rt; finish(rt.alloc(), &mut board, &mut cores, 100_000), Ok(()));
    assert_eq!(rt; board.len(), 10);
    assert_eq!(rt; commits_of(&board), 1);
    Ok(())
}
