ghost use Rattle.std.specs.Prelude.{◌≡◌, ◌<◌, ◌≤◌, length, IfOk, IsTrue, ◌↔◌, Any};
ghost use Rattle.te_script.specs.Scripts.{IsProgram};
ghost use Rattle.te_report.specs.Report.{second, IsReport};
ghost use Rattle.te_report.specs.OfScript.{IsOfScript};
ghost use Rattle.te_history.specs.Follows.{IsLoose};
ghost use Rattle.tevents.specs.StuckEnds.{IsStuckEnd, IsStuckAt};

use std::alloc::Global;
use te_history::{Entry, Hist, How};
use te_report::{Ending, channels_are_of_the_script, write_report};
use te_script::Script;
use te_terms::{NoMemory, Rows};

/// The report of a history of the script. The one refusal is want of memory.
pub(crate) fn report_of(
    alloc: Global,
    script: &Script,
    hist: &Hist,
    ending: Ending,
) -> Result<Rows<u8>, NoMemory>
    requires callers { hist.now.callers ≡ length script.now.threads }
    requires program { IsProgram script.now }
    requires loose { IsLoose (length script.now.threads) hist.now.entries }
    requires of_script { IsOfScript script.now hist.now.entries }
    requires few { length hist.now.entries ≤ 200000 }
    ensures { IfOk result (λ text. IsReport second script.now hist.now.entries ending text) }
{
    channels_are_of_the_script();
    write_report(alloc, script, hist, ending)
}

/// Whether some thread ends stuck.
pub(crate) fn has_stuck_end(hist: &Hist) -> bool
    ensures { IsTrue result ↔ Any IsStuckEnd hist.now.entries }
{
    for at in 0..hist.len() {
        if is_stuck_at(hist, at) {
            return true;
        }
    }
    false
}

// Whether the entry at a place is the end of a thread in a synchronisation that no group can complete.
fn is_stuck_at(hist: &Hist, at: u64) -> bool
    requires { at < length hist.now.entries }
    ensures { IsTrue result ↔ IsStuckAt hist.now.entries at }
{
    match hist.get(at) {
        Some(entry) => is_stuck_end(entry),
        None => false,
    }
}

fn is_stuck_end(entry: &Entry) -> bool
    ensures { IsTrue result ↔ IsStuckEnd entry.now }
{
    match entry {
        Entry::End { how, .. } => matches!(how, How::Stuck),
        _ => false,
    }
}
