// Each event is synchronised by a caller in a thread of its own.

ghost use Rattle.std.specs.Prelude.{◌≡◌, ◌≤◌, ◌+◌, All, IfOk, length, vec_len};
ghost use Rattle.std.specs.Vec.{vec_capacity};
ghost use Rattle.te_example.specs.Passes.{IsFreePass};

use std::alloc::Global;
use std::sync::Wait;
use std::thread;
use std::thread::Threads;
use te_board::Board;
use te_lock::Pass;
use te_runtime::{SyncFault, TeRuntime};
use te_terms::{Event, NoMemory, Outcome};

/// What a caller was answered.
pub type Answer = Result<Outcome, SyncFault>;

// A runtime of so many callers and one more, which posts nothing: where a thread can't be started, it tells the others to
// come back. The passes of the others, and its own.
fn open(alloc: Global, callers: u32) -> Result<(TeRuntime, Vec<Pass<Board>>, Pass<Board>), NoMemory>
    requires { callers ≤ 63 }
    ensures free { IfOk result (λ made. All (IsFreePass made.0) made.1.items) }
    ensures count { IfOk result (λ made. length made.1.items ≡ callers) }
    ensures host { IfOk result (λ made. IsFreePass made.0 made.2) }
{
    let (runtime, mut passes) = TeRuntime::new(alloc, callers + 1, 1)?;
    match passes.pop() {
        Some(host) => Ok((runtime, passes, host)),
        None => unreachable!(),
    }
}

// Each event is synchronised with its pass, in a thread of its own; the answers, in order.
fn synchronise_all<R: Threads + Wait + Sync>(
    rt: &R,
    alloc: Global,
    runtime: &TeRuntime,
    events: &[Event],
    passes: Vec<Pass<Board>>,
    host: Pass<Board>,
) -> Result<Vec<Answer>, NoMemory>
    requires free { All (IsFreePass runtime.now) passes.items }
    requires count { length passes.items ≡ length events.now }
    requires host { IsFreePass runtime.now host }
{
    let mut begun = Vec::new(alloc);
    begun.reserve(events.len())?;
    let mut told = Vec::new(alloc);
    told.reserve(events.len())?;
    Ok(thread::scope(
        thread::scope_env(),
        rt,
        |scope| -> Vec<Answer>
            requires free { All (IsFreePass runtime.now) passes.items }
            requires count { length passes.items ≡ length events.now }
            requires host { IsFreePass runtime.now host }
            requires none { (length begun.items ≡ 0) × (length told.items ≡ 0) }
            requires room { (vec_len passes ≤ vec_capacity begun) × (vec_len passes ≤ vec_capacity told) }
        {
            let mut host = host;
            let mut left = passes;
            let mut started = begun;
            let mut answers = told;
            'starts: while let Some(pass) = left.pop() {
                let event = &events[left.len()];
                match scope.spawn(
                    move || -> Answer
                        requires { IsFreePass runtime.now pass }
                    {
                        let mut pass = pass;
                        runtime.sync(rt, alloc, &mut pass, event, 100_000)
                    },
                ) {
                    Ok(handle) => started.push_reserved(handle),
                    Err(_) => {
                        let _told = runtime.rest(rt, &mut host);
                        break;
                    }
                }
            }
            'joins: while let Some(handle) = started.pop() {
                answers.push_reserved(handle.join(rt));
            }
            answers
        },
    ))
}

/// Synchronises each of these events, in threads of their own; the answers, in order of the events. Where a thread can't be
/// started, the others are told to come back. The one refusal is want of memory.
pub fn all_synchronise<R: Threads + Wait + Sync>(
    rt: &R,
    alloc: Global,
    events: &[Event],
) -> Result<Vec<Answer>, NoMemory>
    requires { length events.now ≤ 63 }
{
    let (runtime, passes, host) = open(alloc, events.len() as u32)?;
    synchronise_all(rt, alloc, &runtime, events, passes, host)
}
