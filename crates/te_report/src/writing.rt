ghost use Rattle.std.specs.Prelude.{◌≡◌, ◌≤◌, ◌++◌, [], length, IfOk, OnOk};
ghost use Rattle.std.specs.List.{AllByRecursion};
ghost use Rattle.te_report.specs.OfScript.{IsOfScript};
ghost use Rattle.te_report.specs.ScriptChannels.{HasChannelsOf};
ghost use Rattle.te_report.specs.Report.{second, entry_lines, IsReport, most_reported_entries};

use crate::ending::Ending;
use crate::entries::{put_last_line, put_line};
use crate::following::{first_cores, follow, site_of};
use std::alloc::Global;
use te_history::Hist;
use te_script::Script;
use te_terms::{NoMemory, Rows};

// Appends a line for each entry, numbered from 1.
fn put_entries(
    out: &mut Vec<u8>,
    alloc: Global,
    script: &Script,
    hist: &Hist,
) -> Result<(), NoMemory>
    requires callers { hist.now.callers ≡ length script.now.threads }
    requires of_script { IsOfScript script.now hist.now.entries }
    ensures { OnOk result (out.new.items ≡ out.old.items ++ entry_lines second script.now [] hist.now.entries) }
{
    let mut cores = first_cores(alloc, script)?;
    for at in 0..hist.len() {
        let Some(entry) = hist.get(at) else {
            return Ok(());
        };
        let site = site_of(&cores, entry);
        put_line(out, script, at + 1, site, entry)?;
        follow(&mut cores, entry);
    }
    Ok(())
}

/// The report of a history of the script's threads, in version 2: a line for each entry, in order, and how it ends. A
/// post's line tells the place in the text of the wish that it posts. The one refusal is want of memory.
///
/// Conditions: the history has as many callers as the script has threads, and is a history of the script; each channel
/// in it is one of the script or a fresh one of one of its threads, which `channels_are_of_the_script` shows of each
/// such history; and it has at most 200,000 entries. Reports are this project's own.
pub fn write_report(
    alloc: Global,
    script: &Script,
    hist: &Hist,
    ending: Ending,
) -> Result<Rows<u8>, NoMemory>
    requires callers { hist.now.callers ≡ length script.now.threads }
    requires channels { AllByRecursion (HasChannelsOf script.now) hist.now.entries }
    requires few { length hist.now.entries ≤ most_reported_entries }
    requires of_script { IsOfScript script.now hist.now.entries }
    ensures { IfOk result (λ text. IsReport second script.now hist.now.entries ending text) }
{
    let mut out = Vec::from_slice(alloc, b"tevents report 2\n")?;
    put_entries(&mut out, alloc, script, hist)?;
    put_last_line(&mut out, hist.len(), ending)?;
    Ok(Rows::from(out))
}
