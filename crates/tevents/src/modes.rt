// The modes of the program, each with its own call.

ghost use Rattle.std.specs.Prelude.{◌≡◌, ℕ, List, [], Some};
ghost use Rattle.te_io.specs.Stream.{GrewBy, GrewByPrefix};
ghost use Rattle.te_io.specs.Causes.{Rose};
ghost use Rattle.te_reader.specs.declared.fault.ScriptFault.{ScriptFault};
ghost use Rattle.te_search.specs.Findings.{IsBudget};
ghost use Rattle.tevents.specs.Runs.{in_rounds};
ghost use Rattle.tevents.specs.FaultLines.{fault_line};
ghost use Rattle.tevents.specs.Causes.{IsAnswer, IsSerialAnswer, IsRunAnswer, IsPrintAnswer, IsCheckAnswer, IsLiftAnswer, IsTask, most_of, IsStatus, IsTold, IsSilent, IsReadWhole};

use crate::answering::{answer, answer_by_threads, write};
use crate::task::Task;
use std::alloc::Global;
use std::sync::Wait;
use std::thread::Threads;
use te_io::{ReadFault, Sink, Source, read_up_to};
use te_reader::MOST_BYTES;
use te_runtime::Gate;

// Those of a script, of the line `---` with its line feed, and of a report.
const MOST_BYTES_WITH_REPORT: usize = MOST_BYTES + 4 + 67_108_864;

/// Runs the script that the source gives in serial rounds, by a budget of 1 to 1,000,000 for each search, writes the
/// report of the run to the sink, and answers the status of the program. It waits for nobody, and returns.
pub(crate) fn serial_run<S: Source, K: Sink>(
    alloc: Global,
    budget: u64,
    source: &mut S,
    sink: &mut K,
) -> u8
    requires { IsBudget budget }
    ensures statuses { IsStatus result }
    ensures told { IsTold result → (read : List ℕ) → S.bytes_left source.old ≡ Some read
        → (written : List ℕ) × IsSerialAnswer budget read written result
        × GrewBy (K.bytes_held sink.old) (K.bytes_held sink.new) written }
    ensures read_to_the_end { IsReadWhole result → (read : List ℕ) → S.bytes_left source.old ≡ Some read
        → S.bytes_left source.new ≡ Some [] }
    ensures line { result ≡ 5 → (fault : ScriptFault) × GrewBy (K.bytes_held sink.old) (K.bytes_held sink.new) (fault_line fault) }
    ensures unwritten { IsSilent result → sink.new ≡ sink.old }
    ensures known { result ≡ 2 → ⊥ }
    ensures source_failed { result ≡ 3 → Rose (S.faults source.old) (S.faults source.new) }
    ensures sink_failed { result ≡ 4 → Rose (K.faults sink.old) (K.faults sink.new) }
    ensures cut_short { result ≡ 4 → (read : List ℕ) → S.bytes_left source.old ≡ Some read
        → (written : List ℕ) × (status : ℕ) × IsSerialAnswer budget read written status
        × GrewByPrefix (K.bytes_held sink.old) (K.bytes_held sink.new) written }
{
    task_run(alloc, Task::Run { budget }, source, sink)
}

/// Runs each thread of the script that the source gives in a thread of its own, through the gate before each sync, by a
/// budget of 1 to 1,000,000 for each search; runs in serial rounds what these leave undone; writes the report of the run to
/// the sink, and answers the status of the program. It waits for all the threads that it starts.
pub(crate) fn threads_run<R: Threads + Wait + Sync, S: Source, K: Sink, G: Gate + Sync>(
    rt: &R,
    alloc: Global,
    budget: u64,
    source: &mut S,
    sink: &mut K,
    gate: &G,
) -> u8
    requires { IsBudget budget }
    ensures statuses { IsStatus result }
    ensures told { IsTold result → (read : List ℕ) → S.bytes_left source.old ≡ Some read
        → (written : List ℕ) × IsRunAnswer budget read written result
        × GrewBy (K.bytes_held sink.old) (K.bytes_held sink.new) written }
    ensures read_to_the_end { IsReadWhole result → (read : List ℕ) → S.bytes_left source.old ≡ Some read
        → S.bytes_left source.new ≡ Some [] }
    ensures line { result ≡ 5 → (fault : ScriptFault) × GrewBy (K.bytes_held sink.old) (K.bytes_held sink.new) (fault_line fault) }
    ensures unwritten { IsSilent result → sink.new ≡ sink.old }
    ensures known { result ≡ 2 → ⊥ }
    ensures source_failed { result ≡ 3 → Rose (S.faults source.old) (S.faults source.new) }
    ensures sink_failed { result ≡ 4 → Rose (K.faults sink.old) (K.faults sink.new) }
    ensures cut_short { result ≡ 4 → (read : List ℕ) → S.bytes_left source.old ≡ Some read
        → (written : List ℕ) × (status : ℕ) × IsRunAnswer budget read written status
        × GrewByPrefix (K.bytes_held sink.old) (K.bytes_held sink.new) written }
{
    let bytes = match read_up_to(alloc, source, MOST_BYTES) {
        Ok(bytes) => bytes,
        Err(ReadFault::Failed) => return 3,
        Err(ReadFault::Memory) => return 9,
    };
    match answer_by_threads(rt, alloc, budget, bytes.as_slice(), gate) {
        Ok(told) => write(sink, &told),
        Err(_) => 9,
    }
}

/// Writes the canonical text of the script that the source gives to the sink, and answers the status of the program. It
/// waits for nobody, and returns.
pub(crate) fn print_run<S: Source, K: Sink>(alloc: Global, source: &mut S, sink: &mut K) -> u8
    ensures statuses { IsStatus result }
    ensures told { IsTold result → (read : List ℕ) → S.bytes_left source.old ≡ Some read
        → (written : List ℕ) × IsPrintAnswer read written result
        × GrewBy (K.bytes_held sink.old) (K.bytes_held sink.new) written }
    ensures read_to_the_end { IsReadWhole result → (read : List ℕ) → S.bytes_left source.old ≡ Some read
        → S.bytes_left source.new ≡ Some [] }
    ensures line { result ≡ 5 → (fault : ScriptFault) × GrewBy (K.bytes_held sink.old) (K.bytes_held sink.new) (fault_line fault) }
    ensures unwritten { IsSilent result → sink.new ≡ sink.old }
    ensures known { result ≡ 2 → ⊥ }
    ensures source_failed { result ≡ 3 → Rose (S.faults source.old) (S.faults source.new) }
    ensures sink_failed { result ≡ 4 → Rose (K.faults sink.old) (K.faults sink.new) }
    ensures cut_short { result ≡ 4 → (read : List ℕ) → S.bytes_left source.old ≡ Some read
        → (written : List ℕ) × (status : ℕ) × IsPrintAnswer read written status
        × GrewByPrefix (K.bytes_held sink.old) (K.bytes_held sink.new) written }
{
    task_run(alloc, Task::Print, source, sink)
}

/// Decides whether the source gives a script, a line `---` and the report of a whole legal run of the script, by a budget of 1 to
/// 1,000,000 for the search of the list on which a board is declared stuck. It writes a line to the sink, and answers the
/// status of the program. It waits for nobody, and returns.
pub(crate) fn check_run<S: Source, K: Sink>(
    alloc: Global,
    budget: u64,
    source: &mut S,
    sink: &mut K,
) -> u8
    requires { IsBudget budget }
    ensures statuses { IsStatus result }
    ensures told { IsTold result → (read : List ℕ) → S.bytes_left source.old ≡ Some read
        → (written : List ℕ) × IsCheckAnswer budget read written result
        × GrewBy (K.bytes_held sink.old) (K.bytes_held sink.new) written }
    ensures read_to_the_end { IsReadWhole result → (read : List ℕ) → S.bytes_left source.old ≡ Some read
        → S.bytes_left source.new ≡ Some [] }
    ensures line { result ≡ 5 → (fault : ScriptFault) × GrewBy (K.bytes_held sink.old) (K.bytes_held sink.new) (fault_line fault) }
    ensures unwritten { IsSilent result → sink.new ≡ sink.old }
    ensures known { result ≡ 2 → ⊥ }
    ensures source_failed { result ≡ 3 → Rose (S.faults source.old) (S.faults source.new) }
    ensures sink_failed { result ≡ 4 → Rose (K.faults sink.old) (K.faults sink.new) }
    ensures cut_short { result ≡ 4 → (read : List ℕ) → S.bytes_left source.old ≡ Some read
        → (written : List ℕ) × (status : ℕ) × IsCheckAnswer budget read written status
        × GrewByPrefix (K.bytes_held sink.old) (K.bytes_held sink.new) written }
{
    task_run(alloc, Task::Check { budget }, source, sink)
}

/// Writes the report in the second version that tells the same as the one that the source gives behind a script and a line
/// `---`, and answers the status of the program. No declaration of a stuck board is searched. It waits for nobody, and returns.
pub(crate) fn lift_run<S: Source, K: Sink>(alloc: Global, source: &mut S, sink: &mut K) -> u8
    ensures statuses { IsStatus result }
    ensures told { IsTold result → (read : List ℕ) → S.bytes_left source.old ≡ Some read
        → (written : List ℕ) × IsLiftAnswer read written result
        × GrewBy (K.bytes_held sink.old) (K.bytes_held sink.new) written }
    ensures read_to_the_end { IsReadWhole result → (read : List ℕ) → S.bytes_left source.old ≡ Some read
        → S.bytes_left source.new ≡ Some [] }
    ensures line { result ≡ 5 → (fault : ScriptFault) × GrewBy (K.bytes_held sink.old) (K.bytes_held sink.new) (fault_line fault) }
    ensures unwritten { IsSilent result → sink.new ≡ sink.old }
    ensures known { result ≡ 2 → ⊥ }
    ensures source_failed { result ≡ 3 → Rose (S.faults source.old) (S.faults source.new) }
    ensures sink_failed { result ≡ 4 → Rose (K.faults sink.old) (K.faults sink.new) }
    ensures cut_short { result ≡ 4 → (read : List ℕ) → S.bytes_left source.old ≡ Some read
        → (written : List ℕ) × (status : ℕ) × IsLiftAnswer read written status
        × GrewByPrefix (K.bytes_held sink.old) (K.bytes_held sink.new) written }
{
    task_run(alloc, Task::Lift, source, sink)
}

// How many bytes a task reads at most.
fn most(task: Task) -> usize
    ensures { result ≡ most_of task }
{
    match task {
        Task::Run { .. } => MOST_BYTES,
        Task::Print => MOST_BYTES,
        Task::Check { .. } => MOST_BYTES_WITH_REPORT,
        Task::Lift => MOST_BYTES_WITH_REPORT,
    }
}

// Reads the input of a task, and writes what the task tells of it.
fn task_run<S: Source, K: Sink>(alloc: Global, task: Task, source: &mut S, sink: &mut K) -> u8
    requires { IsTask task }
    ensures statuses { IsStatus result }
    ensures told { IsTold result → (read : List ℕ) → S.bytes_left source.old ≡ Some read
        → (written : List ℕ) × IsAnswer in_rounds task read written result
        × GrewBy (K.bytes_held sink.old) (K.bytes_held sink.new) written }
    ensures read_to_the_end { IsReadWhole result → (read : List ℕ) → S.bytes_left source.old ≡ Some read
        → S.bytes_left source.new ≡ Some [] }
    ensures line { result ≡ 5 → (fault : ScriptFault) × GrewBy (K.bytes_held sink.old) (K.bytes_held sink.new) (fault_line fault) }
    ensures unwritten { IsSilent result → sink.new ≡ sink.old }
    ensures known { result ≡ 2 → ⊥ }
    ensures source_failed { result ≡ 3 → Rose (S.faults source.old) (S.faults source.new) }
    ensures sink_failed { result ≡ 4 → Rose (K.faults sink.old) (K.faults sink.new) }
    ensures cut_short { result ≡ 4 → (read : List ℕ) → S.bytes_left source.old ≡ Some read
        → (written : List ℕ) × (status : ℕ) × IsAnswer in_rounds task read written status
        × GrewByPrefix (K.bytes_held sink.old) (K.bytes_held sink.new) written }
{
    let bytes = match read_up_to(alloc, source, most(task)) {
        Ok(bytes) => bytes,
        Err(ReadFault::Failed) => return 3,
        Err(ReadFault::Memory) => return 9,
    };
    match answer(alloc, task, bytes.as_slice()) {
        Ok(told) => write(sink, &told),
        Err(_) => 9,
    }
}
