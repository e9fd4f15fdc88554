// What is told of a script and of the bytes that should be its report.

ghost use Rattle.std.specs.Prelude.{◌≡◌, ◌≢◌, ◌+◌, ◌++◌, ◌≤◌, List, ℕ, length, IfOk, OnOk, Some, None};
ghost use Rattle.te_script.specs.Scripts.{IsProgram, IsScript};
ghost use Rattle.te_history.specs.declared.entry.Entry.{Entry as Line};
ghost use Rattle.te_report.specs.declared.ending.Ending.{Ending as End};
ghost use Rattle.te_report.specs.declared.ending.Ending.TheVariants as endings;
ghost use Rattle.te_report.specs.declared.fault.ReportFault.TheVariants as faults;
ghost use Rattle.te_report.specs.Declarations.{IsDeclared, DeclaredIn};
ghost use Rattle.te_search.specs.Findings.{IsBudget};
ghost use Rattle.tevents.specs.ReportLines.{report_line, report_fault_line, legal_line, undecided_line};
ghost use Rattle.tevents.specs.Checks.{IsOnlyReading, IsDecided, IsLifted};

use crate::answering::Written;
use crate::faults::put_number;
use crate::reporting::report_of;
use std::alloc::Global;
use te_report::{Declaration, Ending, Reading, ReportFault, read_declared, readings_are_one};
use te_script::Script;
use te_search::{Found, SearchFault, find};
use te_terms::{NoMemory, Rows};

// The line of a fault of a report.
fn faulty(alloc: Global, fault: u64, line: u64) -> Result<Written, NoMemory>
    ensures { IfOk result (λ told. (told.text ≡ report_line fault line) × (told.status ≡ 8)) }
{
    let mut text = Vec::new(alloc);
    text.extend_from_slice(b"report fault ")?;
    put_number(&mut text, fault)?;
    text.extend_from_slice(b" at line ")?;
    put_number(&mut text, line)?;
    text.extend_from_slice(b"\n")?;
    Ok(Written {
        status: 8,
        text: Rows::from(text),
    })
}

// The line of the fault that a report was refused for.
fn refused(alloc: Global, fault: ReportFault) -> Result<Written, NoMemory>
    ensures { IfOk result (λ told. (fault ≢ faults.Memory) × (told.text ≡ report_fault_line fault) × (told.status ≡ 8)) }
{
    match fault {
        ReportFault::Head => faulty(alloc, 1, 1),
        ReportFault::Line(n) => faulty(alloc, 2, u64::from(n)),
        ReportFault::Illegal(n, _) => faulty(alloc, 3, u64::from(n)),
        ReportFault::Tail(n) => faulty(alloc, 4, u64::from(n)),
        ReportFault::Long => faulty(alloc, 5, 1),
        ReportFault::Memory => Err(NoMemory),
    }
}

// The line of a legal history of so many entries.
fn legal(alloc: Global, count: u64) -> Result<Written, NoMemory>
    ensures { IfOk result (λ told. (told.text ≡ legal_line count) × (told.status ≡ 0)) }
{
    let mut text = Vec::new(alloc);
    text.extend_from_slice(b"legal ")?;
    put_number(&mut text, count)?;
    text.extend_from_slice(b"\n")?;
    Ok(Written {
        status: 0,
        text: Rows::from(text),
    })
}

// The line that tells that a search has used up its budget.
fn undecided(
    alloc: Global,
    line: u64,
    front: u64,
    paths: u64,
    groups: u64,
) -> Result<Written, NoMemory>
    ensures { IfOk result (λ told. (told.text ≡ undecided_line line front paths groups) × (told.status ≡ 7)) }
{
    let mut text = Vec::new(alloc);
    text.extend_from_slice(b"check spent at line ")?;
    put_number(&mut text, line)?;
    text.extend_from_slice(b" front ")?;
    put_number(&mut text, front)?;
    text.extend_from_slice(b" paths ")?;
    put_number(&mut text, paths)?;
    text.extend_from_slice(b" groups ")?;
    put_number(&mut text, groups)?;
    text.extend_from_slice(b"\n")?;
    Ok(Written {
        status: 7,
        text: Rows::from(text),
    })
}

// Whether the board may be declared stuck where it is.
fn check_declared(
    alloc: Global,
    budget: u64,
    script: &Script,
    reading: &Reading,
    declared: &Declaration,
) -> Result<Written, NoMemory>
    requires budget { IsBudget budget }
    requires few { length reading.now.hist.entries ≤ 200000 }
    requires declared { IsDeclared (length script.now.threads) reading.now.hist.entries declared.now.before declared.now.parked }
    requires closed { reading.now.ending ≡ endings.Closed }
    ensures { (report : List ℕ) → IsOnlyReading script.now report reading.now.hist.entries reading.now.ending
        → IfOk result (λ told. IsDecided budget script.now report told.text told.status) }
{
    match find(alloc, declared.parked.as_slice(), budget) {
        Ok(Found::Blocked) => legal(alloc, reading.hist.len()),
        Ok(Found::Group(_)) => faulty(alloc, 3, declared.before + 2),
        Err(SearchFault::Spent { paths, groups }) => {
            undecided(alloc, declared.before + 2, declared.before, paths, groups)
        }
        Err(SearchFault::Memory) => Err(NoMemory),
    }
}

// What is told of a report that was read.
fn check_reading(
    alloc: Global,
    budget: u64,
    script: &Script,
    reading: &Reading,
) -> Result<Written, NoMemory>
    requires budget { IsBudget budget }
    requires few { length reading.now.hist.entries ≤ 200000 }
    requires declared { DeclaredIn (length script.now.threads) reading.now.hist.entries reading.now.declared }
    ensures { (report : List ℕ) → IsOnlyReading script.now report reading.now.hist.entries reading.now.ending
        → IfOk result (λ told. IsDecided budget script.now report told.text told.status) }
{
    match reading.ending {
        Ending::Closed => match &reading.declared {
            Some(declared) => check_declared(alloc, budget, script, reading, declared),
            None => legal(alloc, reading.hist.len()),
        },
        Ending::Spent { .. } => faulty(alloc, 4, reading.hist.len() + 2),
        Ending::Full => faulty(alloc, 4, reading.hist.len() + 2),
    }
}

// The script is one that can be spelled.
fn keeps(script: &Script)
    ensures { IsScript script.now }
{
    let _ = script.threads.len();
}

/// Whether the bytes are the report of a whole legal run of the script, by a budget for the search of the list on which the
/// board is declared stuck. The one refusal is want of memory.
pub(crate) fn check(
    alloc: Global,
    budget: u64,
    script: &Script,
    report: &[u8],
) -> Result<Written, NoMemory>
    requires { IsBudget budget }
    ensures { IfOk result (λ told. IsDecided budget script.now report.now told.text told.status) }
{
    keeps(script);
    readings_are_one();
    match read_declared(alloc, script, report) {
        Ok(reading) => check_reading(alloc, budget, script, &reading),
        Err(fault) => refused(alloc, fault),
    }
}

/// The report of the second version that tells the same as the bytes, where they are a report of the script. The one refusal
/// is want of memory.
pub(crate) fn lift(alloc: Global, script: &Script, report: &[u8]) -> Result<Written, NoMemory>
    requires { IsProgram script.now }
    ensures { IfOk result (λ told. IsLifted script.now report.now told.text told.status) }
{
    keeps(script);
    readings_are_one();
    match read_declared(alloc, script, report) {
        Ok(reading) => Ok(Written {
            status: 0,
            text: report_of(alloc, script, &reading.hist, reading.ending)?,
        }),
        Err(fault) => refused(alloc, fault),
    }
}
