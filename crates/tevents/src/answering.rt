ghost use Rattle.std.specs.Prelude.{◌≡◌, ◌≢◌, ◌⊎◌, ℕ, length, IfOk};
ghost use Rattle.te_io.specs.Stream.{GrewBy, GrewByPrefix};
ghost use Rattle.te_io.specs.Causes.{Rose};
ghost use Rattle.te_reader.specs.declared.fault.ScriptFault.TheVariants as faults;
ghost use Rattle.te_script.specs.Scripts.{IsProgram};
ghost use Rattle.te_search.specs.Findings.{IsBudget};
ghost use Rattle.tevents.specs.Runs.{Way, in_rounds, RunEndsSo, IsRunReport, IsStatusAt};
ghost use Rattle.tevents.specs.FaultLines.{fault_line};
ghost use Rattle.tevents.specs.Causes.{Tells, PartsFor, IsAnswer, IsRunAnswer, IsTask, IsPrinted};

use crate::checking::{check, lift};
use crate::faults::put_fault;
use crate::parting::part;
use crate::reporting::{has_stuck_end, report_of};
use crate::running::{Run, run_rounds, run_workers};
use crate::task::Task;
use std::alloc::Global;
use std::sync::Wait;
use std::thread::Threads;
use te_history::Hist;
use te_io::{Sink, write_whole};
use te_reader::{ScriptFault, print_script, read_script};
use te_report::Ending;
use te_runtime::Gate;
use te_script::Script;
use te_terms::{NoMemory, Rows};

/// A text to be written, and the status to end with once it is.
#[derive(Drop)]
pub(crate) struct Written {
    pub(crate) status: u8,
    pub(crate) text: Rows<u8>,
}

/// What a task answers to these bytes: what it tells of the script, or the line that tells the fault of bytes that are
/// no script. The one refusal is want of memory.
pub(crate) fn answer(alloc: Global, task: Task, bytes: &[u8]) -> Result<Written, NoMemory>
    requires { IsTask task }
    ensures { IfOk result (λ told. IsAnswer in_rounds task bytes.now told.text told.status) }
{
    let (upper, lower) = parts_for(task, bytes);
    match read_script(alloc, upper) {
        Ok(script) => tell(alloc, task, &script, lower),
        Err(told) => fault(alloc, told),
    }
}

/// What a run of the script in threads of their own answers to these bytes, or the line that tells the fault of bytes that
/// are no script. The one refusal is want of memory.
pub(crate) fn answer_by_threads<R: Threads + Wait + Sync, G: Gate + Sync>(
    rt: &R,
    alloc: Global,
    budget: u64,
    bytes: &[u8],
    gate: &G,
) -> Result<Written, NoMemory>
    requires { IsBudget budget }
    ensures { IfOk result (λ told. IsRunAnswer budget bytes.now told.text told.status) }
{
    match read_script(alloc, bytes) {
        Ok(script) => {
            let run = run_workers(rt, alloc, &script, budget, gate)?;
            report(alloc, &script, &run)
        }
        Err(told) => fault(alloc, told),
    }
}

// The part of the bytes that should be a text of a script, and that which should be its report.
fn parts_for(task: Task, bytes: &[u8]) -> (&[u8], &[u8])
    ensures { PartsFor task bytes.now result.0.now result.1.now }
{
    match task {
        Task::Run { .. } => (bytes, &[]),
        Task::Print => (bytes, &[]),
        Task::Check { .. } => part(bytes),
        Task::Lift => part(bytes),
    }
}

// What a task tells of a script, and of what should be its report.
fn tell(alloc: Global, task: Task, script: &Script, lower: &[u8]) -> Result<Written, NoMemory>
    requires task { IsTask task }
    requires program { IsProgram script.now }
    ensures { IfOk result (λ told. Tells in_rounds task lower.now script.now told.text told.status) }
{
    match task {
        Task::Run { budget } => run_and_report(alloc, script, budget),
        Task::Print => print(alloc, script),
        Task::Check { budget } => check(alloc, budget, script, lower),
        Task::Lift => lift(alloc, script, lower),
    }
}

// The report of a serial run.
fn run_and_report(alloc: Global, script: &Script, budget: u64) -> Result<Written, NoMemory>
    requires budget { IsBudget budget }
    requires program { IsProgram script.now }
    ensures { IfOk result (λ told. IsRunReport in_rounds budget script.now told.text told.status) }
{
    let run = run_rounds(alloc, script, budget)?;
    report(alloc, script, &run)
}

// The report of a run.
fn report(alloc: Global, script: &Script, run: &Run) -> Result<Written, NoMemory>
    requires program { IsProgram script.now }
    requires callers { run.now.board.callers ≡ length script.now.threads }
    requires ends { (way : Way) × (budget : ℕ) × RunEndsSo way budget script.now run.now.board.entries run.now.ending }
    ensures { (way : Way) (budget : ℕ) → RunEndsSo way budget script.now run.now.board.entries run.now.ending
        → IfOk result (λ told. IsRunReport way budget script.now told.text told.status) }
{
    let hist = run.board.history();
    let text = report_of(alloc, script, hist, run.ending)?;
    Ok(Written {
        status: status_of(hist, run.ending),
        text,
    })
}

// The canonical text.
fn print(alloc: Global, script: &Script) -> Result<Written, NoMemory>
    ensures { IfOk result (λ told. IsPrinted script.now told.text told.status) }
{
    Ok(Written {
        status: 0,
        text: print_script(alloc, script)?,
    })
}

// The line that tells the fault of bytes that are no script; want of memory has none.
fn fault(alloc: Global, fault: ScriptFault) -> Result<Written, NoMemory>
    ensures named { IfOk result (λ told. fault ≢ faults.Memory) }
    ensures line { IfOk result (λ told. (told.text ≡ fault_line fault) × (told.status ≡ 5)) }
{
    if matches!(fault, ScriptFault::Memory) {
        return Err(NoMemory);
    }
    let mut text = Vec::new(alloc);
    put_fault(&mut text, fault)?;
    Ok(Written {
        status: 5,
        text: Rows::from(text),
    })
}

// The status that goes with the report of a run.
fn status_of(hist: &Hist, ending: Ending) -> u8
    ensures { IsStatusAt hist.now.entries ending result }
{
    match ending {
        Ending::Closed => { if has_stuck_end(hist) { 1 } else { 0 } }
        Ending::Full => 6,
        Ending::Spent { .. } => 7,
    }
}

/// Writes a text, and answers its status, or that the sink failed.
pub(crate) fn write<K: Sink>(sink: &mut K, told: &Written) -> u8
    ensures whole { result ≢ 4 → (result ≡ told.now.status) × GrewBy (K.bytes_held sink.old) (K.bytes_held sink.new) told.now.text }
    ensures failed { result ≡ 4 → (told.now.status ≡ 4) ⊎ (Rose (K.faults sink.old) (K.faults sink.new) × GrewByPrefix (K.bytes_held sink.old) (K.bytes_held sink.new) told.now.text) }
{
    match write_whole(sink, told.text.as_slice()) {
        Ok(()) => told.status,
        Err(_) => 4,
    }
}
