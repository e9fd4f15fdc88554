// One worker: it runs the thread of its caller by the calls of the runtime.

ghost use Rattle.std.specs.Prelude.{◌≡◌, true, false};
ghost use Rattle.te_script.specs.Wishes.{syncs};
ghost use Rattle.te_script.specs.Cores.{wish_at};
ghost use Rattle.te_history.specs.declared.status.How.TheVariants as ways;
ghost use Rattle.te_report.specs.OfScript.{EndsSo};
ghost use Rattle.te_search.specs.Findings.{IsBudget};
ghost use Rattle.te_runtime.specs.Calls.{board_of};
ghost use Rattle.te_runtime.specs.Refusals.{HasStuck};
ghost use Rattle.te_runtime.specs.Working.{IsJobHeld, IsJobReady, WorkGoesOn, WorkHasStopped, Worked};

use crate::fault::SyncFault;
use crate::gate::Gate;
use crate::runtime::TeRuntime;
use std::alloc::Global;
use std::sync::Wait;
use std::sync::atomic::{AtomicBool, Ordering};
use te_board::Board;
use te_history::{How, Status};
use te_lock::{Pass, Turn};
use te_script::{Core, Want};
use te_terms::{Event, Outcome};

/// What a worker owns: the pass of its caller, the core of its caller's thread, and the ticket of its next post.
#[derive(Drop)]
pub struct Job {
    pub pass: Pass<Board>,
    pub core: Core,
    pub ticket: u32,
}

// Tells all callers to come back, where that isn't refused: the thread can't go on.
fn halt<R: Wait>(rt: &R, runtime: &TeRuntime, job: &mut Job)
    requires held { IsJobHeld runtime.now job.old }
    ensures { Worked job.old job.new }
{
    match runtime.rest(rt, &mut job.pass) {
        Ok(()) => {}
        Err(_) => {}
    }
}

// Ends the caller.
fn end<R: Wait>(rt: &R, runtime: &TeRuntime, job: &mut Job, how: How)
    requires held { IsJobHeld runtime.now job.old }
    requires wished { EndsSo (wish_at job.old.core.stand) how }
    requires stuck { how ≡ ways.Stuck → HasStuck (board_of job.old.pass) }
    ensures { Worked job.old job.new }
{
    // The checker knows the types within a fault only where the body names them.
    let _named: Option<(Status, Outcome)> = None;
    match runtime.end(rt, &mut job.pass, how) {
        Ok(()) => {}
        Err(SyncFault::Stuck) => {}
        Err(_) => halt(rt, runtime, job),
    }
}

// One sync of the thread; whether there is more to do.
fn sync<R: Wait>(
    rt: &R,
    alloc: Global,
    runtime: &TeRuntime,
    budget: u64,
    job: &mut Job,
    event: &Event,
) -> bool
    requires ready { IsJobReady runtime.now job.old }
    requires budget { IsBudget budget }
    requires wished { wish_at job.old.core.stand ≡ syncs event.now }
    ensures goes { WorkGoesOn job.old job.new }
    ensures more { result ≡ true → IsJobReady runtime.now job.new }
    ensures over { result ≡ false → WorkHasStopped job.new.pass }
{
    // The checker knows the types within a fault only where the body names them.
    let _named: Option<Status> = None;
    match runtime.sync(rt, alloc, &mut job.pass, event, budget) {
        Ok(outcome) => {
            job.core.give(outcome);
            job.ticket += 1;
            true
        }
        Err(SyncFault::Stuck) => {
            end(rt, runtime, job, How::Stuck);
            false
        }
        Err(SyncFault::Resting) => false,
        Err(_) => {
            halt(rt, runtime, job);
            false
        }
    }
}

// What the thread wishes next: a sync, or its end; whether there is more to do.
fn advance<R: Wait, G: Gate>(
    rt: &R,
    alloc: Global,
    runtime: &TeRuntime,
    budget: u64,
    gate: &G,
    job: &mut Job,
) -> bool
    requires ready { IsJobReady runtime.now job.old }
    requires budget { IsBudget budget }
    ensures goes { WorkGoesOn job.old job.new }
    ensures more { result ≡ true → IsJobReady runtime.now job.new }
    ensures over { result ≡ false → WorkHasStopped job.new.pass }
{
    let Ok(want) = job.core.want() else {
        halt(rt, runtime, job);
        return false;
    };
    match want {
        Want::Sync(event) => {
            gate.pass(Turn::caller(&job.pass), job.ticket);
            sync(rt, alloc, runtime, budget, job, &event)
        }
        Want::Done => {
            match job.core.copy_emitted() {
                Ok(values) => end(rt, runtime, job, How::Done(values)),
                Err(_) => halt(rt, runtime, job),
            }
            false
        }
        Want::Raised(value) => {
            end(rt, runtime, job, How::Raised(value));
            false
        }
    }
}

/// The whole work of a thread: it synchronises, through the gate each time, until it ends, or the board is stuck, where it
/// ends as stuck, or resting. Where it has no memory, no room or a search that is used up, it rests the board and stops; so
/// it does at once where it finds itself told at its start not to begin.
pub fn work<R: Wait, G: Gate>(
    rt: &R,
    alloc: Global,
    runtime: &TeRuntime,
    budget: u64,
    gate: &G,
    refused: &AtomicBool,
    mut job: Job,
) -> Job
    requires ready { IsJobReady runtime.now job }
    requires budget { IsBudget budget }
    ensures { Worked job result }
{
    if refused.load(Ordering::SeqCst) {
        halt(rt, runtime, &mut job);
        return job;
    }
    'steps: for _ in rt.forever() {
        if !advance(rt, alloc, runtime, budget, gate, &mut job) {
            return job;
        }
    }
    unreachable!()
}
