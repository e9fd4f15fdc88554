// The threads of a script run in threads of their own, a worker each.

ghost use Rattle.std.specs.Prelude.{◌≡◌, ◌≤◌, ◌+◌, ℕ, All, IfOk, length, vec_len};
ghost use Rattle.std.specs.List.{AllByRecursion};
ghost use Rattle.std.specs.Vec.{vec_capacity};
ghost use Rattle.te_terms.specs.Limits.{most_threads};
ghost use Rattle.te_lock.specs.Lock.{new_passes};
ghost use Rattle.te_history.specs.Follows.{IsLegal};
ghost use Rattle.te_report.specs.OfScript.{IsOfScript};
ghost use Rattle.te_report.specs.Whole.{IsWhole};
ghost use Rattle.te_search.specs.Findings.{IsBudget};
ghost use Rattle.te_serial.specs.Houses.{texts_of, IsHouse, CommitsTightly};
ghost use Rattle.te_runtime.specs.Refusals.{HasStuck, HasRest};
ghost use Rattle.te_runtime.specs.Households.{withdrawals_by};
ghost use Rattle.te_runtime.specs.Working.{IsJobReady, Worked, AreJobsOf};
ghost use Rattle.te_runtime.specs.Started.{IsStarted, AreLeft};

use crate::gate::Gate;
use crate::house::House;
use crate::runtime::TeRuntime;
use crate::working::{Job, work};
use std::alloc::Global;
use std::snapshot::Snapshot;
use std::sync::atomic::{AtomicBool, Ordering};
use std::sync::{Arc, Wait};
use std::thread;
use std::thread::{Promise, PromisedHandle, Threads};
use te_board::Board;
use te_lock::{Pass, Turn};
use te_script::{Core, Script};
use te_terms::{NoMemory, Rows};

/// Workers of each search that `drive` would make.
const SEARCHERS: u32 = 2;

/// That a job comes back worked.
#[derive(Drop)]
pub struct Works(pub Snapshot<Job>);

impl Promise<Job> for Works {
    ghost use Rattle.te_runtime.specs.Working.{Worked};

    ghost kept_by = { λ p done. Worked p.0.value done };
}

/// A job in a thread of its own, or done here.
#[derive(Drop)]
pub enum Started {
    There(PromisedHandle<Job, Works>),
    Here(Job),
}

// The number of a script's threads.
fn callers_of(script: &Script) -> u32
    ensures value { result ≡ length script.now.threads }
    ensures some { 1 ≤ result }
    ensures few { result ≤ most_threads }
{
    script.threads.len() as u32
}

// Each pass, with the core of the thread of its caller's number, at its first wish.
fn jobs_of(alloc: Global, script: &Script, passes: Vec<Pass<Board>>) -> Result<Vec<Job>, NoMemory>
    requires passes { (lock : _) × (passes.items ≡ new_passes lock (length script.now.threads)) }
    ensures { (lock : _) → passes.items ≡ new_passes lock (length script.now.threads) → IfOk result (λ jobs. AreJobsOf script.now.threads lock jobs.items) }
{
    let mut jobs = Vec::new(alloc);
    'passes: for pass in passes {
        let text = &script.threads.as_slice()[Turn::caller(&pass) as usize];
        let core = Core::new(alloc, Arc::try_clone(text)?)?;
        jobs.push(Job {
            pass,
            core,
            ticket: 0,
        })?;
    }
    Ok(jobs)
}

// What a job that was started comes to.
fn joined<R: Threads>(rt: &R, one: Started) -> Job
    ensures { (job : Job) → IsStarted job one → Worked job result }
{
    match one {
        Started::There(handle) => handle.join(rt),
        Started::Here(job) => job,
    }
}

// Does each job in a thread of its own, and gives their passes and cores back, in order. Where a thread can't be started,
// no job begins any more, and that one is done here.
fn run_jobs<R: Threads + Wait + Sync, G: Gate + Sync>(
    rt: &R,
    alloc: Global,
    runtime: &TeRuntime,
    budget: u64,
    gate: &G,
    jobs: Vec<Job>,
) -> Result<(Vec<Pass<Board>>, Vec<Core>), NoMemory>
    requires ready { All (IsJobReady runtime.now) jobs.items }
    requires budget { IsBudget budget }
    ensures { IfOk result (λ left. AreLeft jobs.items left.0.items left.1.items) }
{
    let mut begun = Vec::new(alloc);
    begun.reserve(jobs.len())?;
    let mut first = Vec::new(alloc);
    first.reserve(jobs.len())?;
    let mut second = Vec::new(alloc);
    second.reserve(jobs.len())?;
    let flag = AtomicBool::new(false);
    let refused = &flag;
    Ok(thread::scope(
        thread::scope_env(),
        rt,
        |scope| -> (Vec<Pass<Board>>, Vec<Core>)
            requires ready { All (IsJobReady runtime.now) jobs.items }
            requires budget { IsBudget budget }
            requires none { (length begun.items ≡ 0) × (length first.items ≡ 0) × (length second.items ≡ 0) }
            requires room { (vec_len jobs ≤ vec_capacity begun) × (vec_len jobs ≤ vec_capacity first) × (vec_len jobs ≤ vec_capacity second) }
            ensures { AreLeft jobs.items result.0.items result.1.items }
        {
            let was = Snapshot::of(&jobs);
            let mut queue = jobs;
            let mut started = begun;
            let mut passes = first;
            let mut cores = second;
            'starts: while let Some(job) = queue.pop() {
                let promise = Works(Snapshot::of(&job));
                let one = match scope.spawn_with(
                    promise,
                    move || -> Job
                        requires ready { IsJobReady runtime.now job }
                        requires budget { IsBudget budget }
                        ensures { Worked job result }
                    { work(rt, alloc, runtime, budget, gate, refused, job) },
                ) {
                    Ok(handle) => Started::There(handle),
                    Err(kept) => {
                        refused.store(true, Ordering::SeqCst);
                        Started::Here((kept.value)())
                    }
                };
                started.push_reserved(one);
            }
            'joins: while let Some(one) = started.pop() {
                let Job {
                    pass,
                    core,
                    ticket: _,
                } = joined(rt, one);
                passes.push_reserved(pass);
                cores.push_reserved(core);
            }
            drop(was);
            (passes, cores)
        },
    ))
}

/// Runs each thread of a script in a thread of its own, and gives what they leave once all have stopped. A thread
/// synchronises on what it wishes, through the gate each time, until it ends. Where the board is declared stuck, the callers
/// that are parked end as stuck. Where a thread finds no memory, no room for a post or a search that has used up its budget,
/// it tells all to come back, by a Rest entry; so it is where a thread can't be started. The others then take back what
/// they have parked, and stop. So where the history has neither a Rest nor a Stuck entry, every caller has ended.
/// `te_serial::finish` completes the house, whose condition it meets. This project's own.
///
/// Condition: the budget of each search is 1 to 1,000,000 paths and partial groups. The one refusal is want of memory,
/// before a thread was started. It waits for all the threads that it starts.
pub fn run_threads<R: Threads + Wait + Sync, G: Gate + Sync>(
    rt: &R,
    alloc: Global,
    script: &Script,
    budget: u64,
    gate: &G,
) -> Result<House, NoMemory>
    requires budget { IsBudget budget }
    ensures texts { IfOk result (λ house. texts_of house.cores ≡ script.now.threads) }
    ensures house { IfOk result (λ house. IsHouse house.board house.cores) }
    ensures legal { IfOk result (λ house. IsLegal house.board.callers house.board.entries) }
    ensures of_script { IfOk result (λ house. IsOfScript script.now house.board.entries) }
    ensures tight { IfOk result (λ house. AllByRecursion CommitsTightly house.board.entries) }
    ensures once { IfOk result (λ house. (t : ℕ) → withdrawals_by t house.board.entries ≤ 1) }
    ensures ended { IfOk result (λ house. ¬ HasRest house.board → ¬ HasStuck house.board → IsWhole house.board.callers house.board.entries) }
{
    let (runtime, passes) = TeRuntime::new(alloc, callers_of(script), SEARCHERS)?;
    let jobs = jobs_of(alloc, script, passes)?;
    let (passes, cores) = run_jobs(rt, alloc, &runtime, budget, gate, jobs)?;
    Ok(House {
        board: runtime.close(passes),
        cores: Rows::from(cores),
    })
}
