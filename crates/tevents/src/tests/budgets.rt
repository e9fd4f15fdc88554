// Budgets that are enough for the lists of a run.

ghost use Rattle.te_script.specs.Scripts.{IsProgram};

use super::checks::{BRANCHES, traders};
use super::modes::RING;
use super::{EXCHANGE, words};
use crate::program::tevents;
use crate::running::run_rounds;
use std::alloc::Global;
use std::sync::Wait;
use std::test::Fail;
use std::thread::Threads;
use te_io::{SteadySink, SteadySource};
use te_reader::read_script;
use te_runtime::OpenGate;
use te_script::{Script, generate};
use te_search::enough;

// The budget that is enough for the list that the threads of a script park first.
fn enough_at_first(alloc: Global, script: &Script) -> Result<Option<u64>, Fail>
    requires { IsProgram script.now }
{
    let run = run_rounds(alloc, script, 1)?;
    let list = run.board.snapshot(alloc)?;
    Ok(enough(list.parked.as_slice()))
}

/// The status of `serial` by a budget.
fn status_by<R: Threads + Wait + Sync>(
    rt: &R,
    alloc: Global,
    budget: u64,
    script: &[u8],
) -> Result<u8, Fail> {
    let number = format!(in alloc; "{budget}")?;
    let words = words(alloc, &["serial", "--budget", number.as_str()])?;
    let mut source = SteadySource::new(alloc, script)?;
    let mut sink = SteadySink::new(alloc, 10_000)?;
    Ok(tevents(
        rt,
        alloc,
        words.as_slice(),
        &mut source,
        &mut sink,
        &OpenGate,
    ))
}

#[test]
fn a_budget_that_is_enough_ends_the_run(rt: HostRuntime) -> Result<(), Fail> {
    let alloc = rt.alloc();
    // In odd rounds the traders park other events than in even ones.
    let odd = traders(alloc, false)?;
    let even = traders(alloc, true)?;
    for (bytes, budget, status) in [
        (EXCHANGE, 8, 0),
        (RING, 384, 0),
        (BRANCHES, 1152, 1),
        (odd.as_bytes(), 93_750, 0),
        (even.as_bytes(), 93_750, 0),
    ] {
        let script = read_script(alloc, bytes).ok().ok_or("a script")?;
        assert_eq!(rt; enough_at_first(alloc, &script)?, Some(budget));
        assert_eq!(rt; status_by(&rt, alloc, budget, bytes)?, status);
    }
    let rings = generate(alloc, 20)?;
    assert_eq!(rt; enough_at_first(alloc, &rings)?, None);
    Ok(())
}
