ghost use Rattle.std.specs.Prelude.{◌≡◌, ◌++◌, OnOk, codes, decimal};
ghost use Rattle.std.specs.List.{flat_map};
ghost use Rattle.te_report.specs.Report.{second, name_of, outcome_text, commit_text, spaced_value, end_text, site_text, entry_text, numbered, last_line};

use crate::commits::{put_meetings, put_members};
use crate::ending::Ending;
use crate::values::{put_number, put_outcome, put_value, thread_name};
use te_cert::Cert;
use te_history::{Entry, How};
use te_script::{Script, Site};
use te_terms::{NoMemory, Outcome, Value};

fn put_emitted(out: &mut Vec<u8>, script: &Script, values: &[Value]) -> Result<(), NoMemory>
    ensures { OnOk result (out.new.items ≡ out.old.items ++ flat_map (spaced_value script.now) values.now) }
{
    for value in values {
        out.extend_from_slice(b" ")?;
        put_value(out, script, value)?;
    }
    Ok(())
}

fn put_how(out: &mut Vec<u8>, script: &Script, how: &How) -> Result<(), NoMemory>
    ensures { OnOk result (out.new.items ≡ out.old.items ++ end_text script.now how.now) }
{
    match how {
        How::Done(values) => {
            out.extend_from_slice(b"done")?;
            put_emitted(out, script, values.as_slice())
        }
        How::Raised(value) => {
            out.extend_from_slice(b"raised ")?;
            put_value(out, script, value)
        }
        How::Stuck => {
            out.extend_from_slice(b"stuck")?;
            Ok(())
        }
    }
}

/// Appends a word and the name of a thread.
fn put_named(out: &mut Vec<u8>, script: &Script, word: &[u8], by: u32) -> Result<(), NoMemory>
    ensures { OnOk result (out.new.items ≡ out.old.items ++ word.now ++ name_of script.now by) }
{
    out.extend_from_slice(word)?;
    out.extend_from_slice(thread_name(script, by))?;
    Ok(())
}

/// Appends a word, the name of a thread, and a ticket.
fn put_ticket(
    out: &mut Vec<u8>,
    script: &Script,
    word: &[u8],
    by: u32,
    ticket: u32,
) -> Result<(), NoMemory>
    ensures { OnOk result (out.new.items ≡ out.old.items ++ word.now ++ name_of script.now by ++ codes " " ++ decimal ticket) }
{
    put_named(out, script, word, by)?;
    out.extend_from_slice(b" ")?;
    put_number(out, ticket as u64)
}

/// Appends where a posted wish stands in its thread's text.
fn put_site(out: &mut Vec<u8>, site: Option<Site>) -> Result<(), NoMemory>
    ensures { OnOk result (out.new.items ≡ out.old.items ++ site_text second site) }
{
    let Some(site) = site else {
        return Ok(());
    };
    out.extend_from_slice(b" at ")?;
    put_number(out, site.statement as u64)?;
    out.extend_from_slice(b".")?;
    put_number(out, site.pass as u64)
}

pub(crate) fn put_post(
    out: &mut Vec<u8>,
    script: &Script,
    by: u32,
    ticket: u32,
    site: Option<Site>,
) -> Result<(), NoMemory>
    ensures { OnOk result (out.new.items ≡ out.old.items
        ++ codes "post " ++ name_of script.now by ++ codes " " ++ decimal ticket ++ site_text second site) }
{
    put_ticket(out, script, b"post ", by, ticket)?;
    put_site(out, site)
}

fn put_commit(
    out: &mut Vec<u8>,
    script: &Script,
    by: u32,
    cert: &Cert,
    outcomes: &[Outcome],
) -> Result<(), NoMemory>
    ensures { OnOk result (out.new.items ≡ out.old.items
        ++ codes "commit " ++ name_of script.now by ++ codes ": " ++ commit_text script.now cert.now outcomes.now) }
{
    put_named(out, script, b"commit ", by)?;
    out.extend_from_slice(b": ")?;
    put_members(out, script, cert.members.as_slice(), outcomes)?;
    out.extend_from_slice(b";")?;
    put_meetings(out, script, cert.members.as_slice(), cert.meets.as_slice())
}

fn put_take(
    out: &mut Vec<u8>,
    script: &Script,
    by: u32,
    ticket: u32,
    outcome: &Outcome,
) -> Result<(), NoMemory>
    ensures { OnOk result (out.new.items ≡ out.old.items
        ++ codes "take " ++ name_of script.now by ++ codes " " ++ decimal ticket ++ codes " " ++ outcome_text script.now outcome.now) }
{
    put_ticket(out, script, b"take ", by, ticket)?;
    out.extend_from_slice(b" ")?;
    put_outcome(out, script, outcome)
}

fn put_end(out: &mut Vec<u8>, script: &Script, by: u32, how: &How) -> Result<(), NoMemory>
    ensures { OnOk result (out.new.items ≡ out.old.items ++ codes "end " ++ name_of script.now by ++ codes " " ++ end_text script.now how.now) }
{
    put_named(out, script, b"end ", by)?;
    out.extend_from_slice(b" ")?;
    put_how(out, script, how)
}

fn put_entry(
    out: &mut Vec<u8>,
    script: &Script,
    site: Option<Site>,
    entry: &Entry,
) -> Result<(), NoMemory>
    ensures { OnOk result (out.new.items ≡ out.old.items ++ entry_text second script.now site entry.now) }
{
    match entry {
        Entry::Post { by, ticket, .. } => put_post(out, script, *by, *ticket, site),
        Entry::Commit { by, cert, outcomes } => put_commit(
            out,
            script,
            *by,
            cert,
            outcomes.as_slice(),
        ),
        Entry::Withdraw { by, ticket } => put_ticket(out, script, b"withdraw ", *by, *ticket),
        Entry::Take {
            by,
            ticket,
            outcome,
        } => put_take(out, script, *by, *ticket, outcome),
        Entry::Rest { by } => put_named(out, script, b"rest ", *by),
        Entry::Stuck { by } => put_named(out, script, b"stuck ", *by),
        Entry::End { by, how } => put_end(out, script, *by, how),
    }
}

/// Appends the line of an entry: its number, the entry, with the site where it is a post, and the end of the line.
pub(crate) fn put_line(
    out: &mut Vec<u8>,
    script: &Script,
    number: u64,
    site: Option<Site>,
    entry: &Entry,
) -> Result<(), NoMemory>
    ensures { OnOk result (out.new.items ≡ out.old.items ++ numbered number (entry_text second script.now site entry.now)) }
{
    put_number(out, number)?;
    out.extend_from_slice(b" ")?;
    put_entry(out, script, site, entry)?;
    out.extend_from_slice(b"\n")?;
    Ok(())
}

/// Appends a word and a number.
fn put_count(out: &mut Vec<u8>, word: &[u8], count: u64) -> Result<(), NoMemory>
    ensures { OnOk result (out.new.items ≡ out.old.items ++ word.now ++ decimal count) }
{
    out.extend_from_slice(word)?;
    put_number(out, count)
}

/// Appends a word, a number and the end of the line.
fn put_last_count(out: &mut Vec<u8>, word: &[u8], count: u64) -> Result<(), NoMemory>
    ensures { OnOk result (out.new.items ≡ out.old.items ++ word.now ++ decimal count ++ codes "\n") }
{
    put_count(out, word, count)?;
    out.extend_from_slice(b"\n")?;
    Ok(())
}

/// Appends the last line, by the number of entries.
pub(crate) fn put_last_line(out: &mut Vec<u8>, count: u64, ending: Ending) -> Result<(), NoMemory>
    ensures { OnOk result (out.new.items ≡ out.old.items ++ last_line count ending) }
{
    match ending {
        Ending::Closed => put_last_count(out, b"closed ", count),
        Ending::Spent {
            front,
            paths,
            groups,
        } => {
            put_count(out, b"spent ", count)?;
            put_count(out, b" front ", front)?;
            put_count(out, b" paths ", paths)?;
            put_last_count(out, b" groups ", groups)
        }
        Ending::Full => put_last_count(out, b"full ", count),
    }
}
