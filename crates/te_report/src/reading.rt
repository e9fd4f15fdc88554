ghost use Rattle.std.specs.Prelude.{◌≡◌, ◌≢◌, ◌<◌, ◌≤◌, ◌^◌, ◌++◌, ◌∷◌, [], List, ℕ, length, IfOk, IfErr, OnOk, IfSome, IfNone, IsTrue, MatchBool};
ghost use Rattle.std.specs.List.{AllByRecursion};
ghost use Rattle.te_script.specs.Scripts.{IsScript};
ghost use Rattle.te_history.specs.declared.entry.Entry.{Entry as Event};
ghost use Rattle.te_history.specs.Follows.{LooselyFollows};
ghost use Rattle.te_report.specs.Following.{AreFollowed};
ghost use Rattle.te_report.specs.Whole.{IsWhole};
ghost use Rattle.te_report.specs.Report.{first, second, head_line, most_reported_entries};
ghost use Rattle.te_report.specs.Told.{most_report_bytes, BeginsLast, LineStandsAt, IsReadAs, IsRefusedFor};
ghost use Rattle.te_report.specs.Declarations.{DeclaredIn};
ghost use Rattle.te_report.specs.Judging.{HasUnposted, IsWishedAt, sayer, TakesEntryIn, FailsSaid, ReadingGoesOn, NextFails, FailsLast, EndIsWished};
ghost use Rattle.te_report.specs.Sayings.{called_of, version_of};

use crate::cutting::behind_prefix;
use crate::ending::Ending;
use crate::fault::ReportFault;
use crate::following::{first_cores, follow};
use crate::judging::{Verdict, judge};
use crate::lines::{is_last, read_last, read_line};
use crate::names::{Called, names_of};
use crate::saying::Said;
use std::alloc::Global;
use te_history::{Entry, Hist, Status, parked_of};
use te_script::{Core, Script};
use te_terms::{NoMemory, Parked, Rows};

/// The greatest number of bytes that are read.
const MOST_BYTES: usize = 67_108_864;

/// The greatest number of entries of which there is a report.
const MOST_ENTRIES: u64 = 200_000;

/// Where a history declares that its board is stuck. This project's own.
#[doc(hidden)]
#[derive(Drop)]
pub struct Declaration {
    /// The number of entries before the declaration.
    pub before: u64,
    /// The callers that are parked there with ticket and event, threads rising.
    pub parked: Rows<Parked>,
}

/// A report that was read. This project's own.
#[doc(hidden)]
#[derive(Drop)]
pub struct Reading {
    /// The history that it tells.
    pub hist: Hist,
    /// How it ends.
    pub ending: Ending,
    /// Where it declares that the board is stuck, if it does.
    pub declared: Option<Declaration>,
}

// Whether posts tell their sites, and the bytes behind the head.
#[derive(Drop)]
struct Head<'a> {
    sites: bool,
    rest: &'a [u8],
}

// The head of a report, if one of the two stands first.
fn read_head(bytes: &[u8]) -> Option<Head<'_>>
    ensures some { IfSome result (λ head. bytes.now ≡ head_line (version_of head.sites) ++ head.rest.now) }
    ensures none_first { IfNone result ((rest : List ℕ) → bytes.now ≢ head_line first ++ rest) }
    ensures none_second { IfNone result ((rest : List ℕ) → bytes.now ≢ head_line second ++ rest) }
{
    if let Some(rest) = behind_prefix(bytes, b"tevents report 1\n") {
        return Some(Head { sites: false, rest });
    }
    if let Some(rest) = behind_prefix(bytes, b"tevents report 2\n") {
        return Some(Head { sites: true, rest });
    }
    None
}

// Notes a declaration that the board is stuck, as the next entry.
fn note(
    alloc: Global,
    hist: &Hist,
    declared: &mut Option<Declaration>,
    entry: &Entry,
) -> Result<(), NoMemory>
    requires { DeclaredIn hist.now.callers hist.now.entries declared.old }
    ensures { OnOk result (DeclaredIn hist.now.callers (hist.now.entries ++ entry.now ∷ []) declared.new) }
{
    match entry {
        Entry::Stuck { .. } => {
            let parked = parked_of(alloc, hist)?;
            let before = hist.len();
            *declared = Some(Declaration { before, parked });
            Ok(())
        }
        _ => Ok(()),
    }
}

// Appends an entry that follows and is wished: the core of its thread moves on.
fn append(
    script: &Script,
    hist: &mut Hist,
    cores: &mut Vec<Core>,
    entry: Entry,
) -> Result<(), NoMemory>
    requires so_far { AreFollowed script.now hist.old cores.old.items }
    requires follows { LooselyFollows hist.old.callers hist.old.entries entry }
    requires wished { IsWishedAt script.now hist.old.entries entry }
    requires few { length hist.old.entries < most_reported_entries }
    ensures callers { OnOk result (hist.new.callers ≡ hist.old.callers) }
    ensures entries { OnOk result (hist.new.entries ≡ hist.old.entries ++ entry ∷ []) }
    ensures so_far { OnOk result (AreFollowed script.now hist.new cores.new.items) }
{
    // What the contract reads of them stands on these.
    let _ = script;
    let _ = hist.len();
    follow(cores, &entry);
    hist.reserve(1)?;
    hist.push(entry);
    Ok(())
}

// Takes in the entry that a line says, or tells why it may not stand there; the line has this number.
fn take_said(
    alloc: Global,
    script: &Script,
    sites: bool,
    hist: &mut Hist,
    cores: &mut Vec<Core>,
    declared: &mut Option<Declaration>,
    said: Said,
    at: u32,
) -> Result<(), ReportFault>
    requires so_far { AreFollowed script.now hist.old cores.old.items }
    requires caller { sayer said < length cores.old.items }
    requires unposted { HasUnposted said }
    requires within { length hist.old.entries < most_reported_entries }
    requires declared { DeclaredIn hist.old.callers hist.old.entries declared.old }
    ensures takes { OnOk result (TakesEntryIn sites script.now hist.old hist.new said) }
    ensures so_far { OnOk result (AreFollowed script.now hist.new cores.new.items) }
    ensures declared { OnOk result (DeclaredIn hist.new.callers hist.new.entries declared.new) }
    ensures refused { IfErr result (λ fault. FailsSaid sites script.now hist.old said at fault) }
{
    let verdict = judge(alloc, script, hist, cores, sites, said)?;
    match verdict {
        Verdict::Stands(entry) => {
            note(alloc, hist, declared, &entry)?;
            append(script, hist, cores, entry)?;
            Ok(())
        }
        Verdict::Fails(cause) => Err(ReportFault::Illegal(at, cause)),
    }
}

// Reads the next line, which is no last one: takes its entry in, and gives what stands behind it.
fn take_line<'a>(
    alloc: Global,
    script: &Script,
    called: &Called,
    sites: bool,
    hist: &mut Hist,
    cores: &mut Vec<Core>,
    declared: &mut Option<Declaration>,
    rest: &'a [u8],
) -> Result<&'a [u8], ReportFault>
    requires script { IsScript script.now }
    requires called { called.now ≡ called_of script.now }
    requires so_far { AreFollowed script.now hist.old cores.old.items }
    requires within { length hist.old.entries ≤ most_reported_entries }
    requires few { length rest.now < 2 ^ 32 }
    requires declared { DeclaredIn hist.old.callers hist.old.entries declared.old }
    ensures goes_on { IfOk result (λ behind. ReadingGoesOn (version_of sites) script.now hist.old hist.new rest.now behind.now) }
    ensures so_far { OnOk result (AreFollowed script.now hist.new cores.new.items) }
    ensures declared { OnOk result (DeclaredIn hist.new.callers hist.new.entries declared.new) }
    ensures refused { IfErr result (λ fault. NextFails (version_of sites) script.now hist.old rest.now fault) }
{
    let count = hist.len();
    let at = count as u32 + 2;
    if count >= MOST_ENTRIES {
        return Err(ReportFault::Line(at));
    }
    let found = read_line(alloc, script, called, sites, count + 1, rest)?;
    match found {
        Some(line) => {
            take_said(alloc, script, sites, hist, cores, declared, line.said, at)?;
            Ok(line.rest)
        }
        None => Err(ReportFault::Line(at)),
    }
}

// Whether every caller has ended.
fn is_whole(hist: &Hist) -> bool
    ensures { MatchBool result (IsWhole hist.now.callers hist.now.entries) (¬ IsWhole hist.now.callers hist.now.entries) }
{
    for t in 0..hist.callers() {
        match hist.status(t) {
            Status::Ended => {}
            Status::Idle | Status::Parked(_) | Status::Given(_, _) => return false,
        }
    }
    true
}

// Reads the last line.
fn read_end(alloc: Global, hist: &Hist, rest: &[u8]) -> Result<Ending, ReportFault>
    requires within { length hist.now.entries ≤ most_reported_entries }
    requires ends { (rest.now ≢ []) → BeginsLast rest.now }
    ensures ok { IfOk result (λ ending. EndIsWished hist.now rest.now ending) }
    ensures refused { IfErr result (λ fault. FailsLast hist.now rest.now fault) }
{
    let count = hist.len();
    let at = count as u32 + 2;
    if rest.is_empty() {
        return Err(ReportFault::Tail(at));
    }
    let found = read_last(alloc, count, rest)?;
    match found {
        Some(last) => {
            if last.ending == Ending::Closed && !is_whole(hist) {
                return Err(ReportFault::Tail(at));
            }
            if !last.rest.is_empty() {
                return Err(ReportFault::Tail(at + 1));
            }
            Ok(last.ending)
        }
        None => Err(ReportFault::Tail(at)),
    }
}

/// Reads a report as `read_report` does, and tells the list that is parked where it declares that the board is stuck.
#[doc(hidden)]
pub fn read_declared(alloc: Global, script: &Script, bytes: &[u8]) -> Result<Reading, ReportFault>
    ensures callers { IfOk result (λ reading. reading.hist.callers ≡ length script.now.threads) }
    ensures read { IfOk result (λ reading. IsReadAs script.now reading.hist.entries reading.ending bytes.now) }
    ensures declared { IfOk result (λ reading. DeclaredIn (length script.now.threads) reading.hist.entries reading.declared) }
    ensures refused { IfErr result (λ fault. IsRefusedFor script.now bytes.now fault) }
{
    if bytes.len() > MOST_BYTES {
        return Err(ReportFault::Long);
    }
    let Some(head) = read_head(bytes) else {
        return Err(ReportFault::Head);
    };
    let called = names_of(alloc, script)?;
    let mut cores = first_cores(alloc, script)?;
    let mut hist = Hist::new(alloc, script.threads.len() as u32)?;
    let mut declared = None;
    let mut rest = head.rest;
    'lines: while !rest.is_empty() && !is_last(rest) {
        rest = take_line(
            alloc,
            script,
            &called,
            head.sites,
            &mut hist,
            &mut cores,
            &mut declared,
            rest,
        )?;
    }
    let ending = read_end(alloc, &hist, rest)?;
    Ok(Reading {
        hist,
        ending,
        declared,
    })
}

/// Reads a report of a history of the script's threads, in either version, and how it ends.
///
/// It is `Ok` exactly where there are at most 67,108,864 bytes and they are the report of a loose history of the script's
/// threads, in version 1 or 2, with that ending; where it says closed, every thread has ended. The text tells no event:
/// each post has that of its thread's wish. That a declared board can't commit isn't asked.
///
/// Else the first line that fails is told, as `ReportFault` says; `Long` comes before all else, and of one line `Line`
/// before `Illegal`. Want of memory is `Memory`, and tells nothing of the bytes. Reports are this project's own.
pub fn read_report(
    alloc: Global,
    script: &Script,
    bytes: &[u8],
) -> Result<(Hist, Ending), ReportFault>
    ensures callers { IfOk result (λ read. read.0.callers ≡ length script.now.threads) }
    ensures read { IfOk result (λ read. IsReadAs script.now read.0.entries read.1 bytes.now) }
    ensures refused { IfErr result (λ fault. IsRefusedFor script.now bytes.now fault) }
{
    let reading = read_declared(alloc, script, bytes)?;
    Ok((reading.hist, reading.ending))
}
