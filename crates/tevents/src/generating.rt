// A run of a generated script, told by a summary.

ghost use Rattle.std.specs.Prelude.{◌≡◌, ◌⊎◌, ◌<◌, ◌≤◌, ◌+◌, ◌++◌, ◌∷◌, [], ℕ, suc, List, length, take, IfOk, OnOk};
ghost use Rattle.std.specs.Fmt.{decimal};
ghost use Rattle.te_io.specs.Stream.{GrewBy, GrewByPrefix};
ghost use Rattle.te_io.specs.Causes.{Rose};
ghost use Rattle.te_search.specs.Findings.{IsBudget};
ghost use Rattle.tevents.specs.Causes.{IsStatus, IsTold, IsSilent};
ghost use Rattle.tevents.specs.Summaries.{IsSummary, summary_text, summary_status, posts_in, commits_in};

use crate::answering::{Written, write};
use crate::running::run_rounds;
use itoa::Buffer;
use std::alloc::Global;
use te_history::{Entry, Hist};
use te_io::Sink;
use te_report::Ending;
use te_script::generate;
use te_terms::{NoMemory, Rows};

// How many posts and commits a history has.
#[derive(Clone, Copy)]
struct Counts {
    posts: u64,
    commits: u64,
}

fn counts_of(hist: &Hist) -> Counts
    ensures posts { result.posts ≡ posts_in hist.now.entries }
    ensures commits { result.commits ≡ commits_in hist.now.entries }
{
    let mut posts = 0;
    let mut commits = 0;
    for at in 0..hist.len() {
        posts += post_at(hist, at);
        commits += commit_at(hist, at);
    }
    Counts { posts, commits }
}

// One where the entry at a place is a post, else none.
fn post_at(hist: &Hist, at: u64) -> u64
    requires { at < length hist.now.entries }
    ensures count { posts_in (take (suc at) hist.now.entries) ≡ posts_in (take at hist.now.entries) + result }
    ensures one { result ≤ 1 }
{
    match hist.get(at) {
        Some(entry) => post_of(entry),
        None => 0,
    }
}

fn post_of(entry: &Entry) -> u64
    ensures count { result ≡ posts_in (entry.now ∷ []) }
    ensures one { result ≤ 1 }
{
    match entry {
        Entry::Post { .. } => 1,
        _ => 0,
    }
}

// One where the entry at a place is a commit, else none.
fn commit_at(hist: &Hist, at: u64) -> u64
    requires { at < length hist.now.entries }
    ensures count { commits_in (take (suc at) hist.now.entries) ≡ commits_in (take at hist.now.entries) + result }
    ensures one { result ≤ 1 }
{
    match hist.get(at) {
        Some(entry) => commit_of(entry),
        None => 0,
    }
}

fn commit_of(entry: &Entry) -> u64
    ensures count { result ≡ commits_in (entry.now ∷ []) }
    ensures one { result ≤ 1 }
{
    match entry {
        Entry::Commit { .. } => 1,
        _ => 0,
    }
}

// Appends a word and a number.
fn put(out: &mut Vec<u8>, word: &[u8], n: u64) -> Result<(), NoMemory>
    ensures { OnOk result (out.new.items ≡ out.old.items ++ (word.now ++ decimal n)) }
{
    out.extend_from_slice(word)?;
    out.extend_from_slice(Buffer::new().format(n).as_bytes())?;
    Ok(())
}

// The summary of a run.
fn summary(alloc: Global, number: u32, hist: &Hist, ending: Ending) -> Result<Rows<u8>, NoMemory>
    ensures { IfOk result (λ text. text ≡ summary_text number hist.now.callers hist.now.entries ending) }
{
    let mut out = Vec::new(alloc);
    match ending {
        Ending::Closed => {
            let counts = counts_of(hist);
            put(&mut out, b"gen ", number as u64)?;
            put(&mut out, b" threads ", hist.callers() as u64)?;
            put(&mut out, b" posts ", counts.posts)?;
            put(&mut out, b" commits ", counts.commits)?;
            put(&mut out, b" entries ", hist.len())?;
            out.extend_from_slice(b"\n")?;
        }
        Ending::Full => {}
        Ending::Spent {
            front,
            paths,
            groups,
        } => {
            put(&mut out, b"gen ", number as u64)?;
            put(&mut out, b" spent front ", front)?;
            put(&mut out, b" paths ", paths)?;
            put(&mut out, b" groups ", groups)?;
            out.extend_from_slice(b"\n")?;
        }
    }
    Ok(Rows::from(out))
}

// The status that goes with the summary of a run.
fn status_at(ending: Ending) -> u8
    ensures { result ≡ summary_status ending }
{
    match ending {
        Ending::Spent { .. } => 7,
        Ending::Closed => 0,
        Ending::Full => 0,
    }
}

// The summary of a serial run of a generated script.
fn generate_and_run(alloc: Global, number: u32, budget: u64) -> Result<Written, NoMemory>
    requires number { number ≤ 999 }
    requires budget { IsBudget budget }
    ensures { IfOk result (λ told. IsSummary number budget told.text told.status) }
{
    let script = generate(alloc, number)?;
    let run = run_rounds(alloc, &script, budget)?;
    let hist = run.board.history();
    let text = summary(alloc, number, hist, run.ending)?;
    Ok(Written {
        status: status_at(run.ending),
        text,
    })
}

/// Runs the generated script of a number, at most 999, in serial rounds, by a budget of 1 to 1,000,000 for each search,
/// writes a summary of the run to the sink, and answers the status of the program. It waits for nobody, and returns.
pub(crate) fn gen_run<K: Sink>(alloc: Global, number: u32, budget: u64, sink: &mut K) -> u8
    requires number { number ≤ 999 }
    requires budget { IsBudget budget }
    ensures statuses { (result ≡ 0) ⊎ ((result ≡ 4) ⊎ ((result ≡ 7) ⊎ (result ≡ 9))) }
    ensures told { IsTold result → (written : List ℕ) × IsSummary number budget written result
        × GrewBy (K.bytes_held sink.old) (K.bytes_held sink.new) written }
    ensures unwritten { IsSilent result → sink.new ≡ sink.old }
    ensures sink_failed { result ≡ 4 → Rose (K.faults sink.old) (K.faults sink.new) }
    ensures cut_short { result ≡ 4 → (written : List ℕ) × (status : ℕ) × IsSummary number budget written status
        × GrewByPrefix (K.bytes_held sink.old) (K.bytes_held sink.new) written }
{
    match generate_and_run(alloc, number, budget) {
        Ok(told) => write(sink, &told),
        Err(_) => 9,
    }
}
