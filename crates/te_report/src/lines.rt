// The lines of a report: a line is one of an entry, or a last line, exactly where it is the text of what it says.

ghost use Rattle.std.specs.Prelude.{◌≡◌, ◌≢◌, ◌⊎◌, ◌++◌, ◌<◌, ◌≤◌, ◌^◌, ℕ, List, length, codes, false, IsTrue, IfOk, IfSome, IfNone, OnOk, MatchBool};
ghost use Rattle.te_report.specs.Report.{numbered, last_line};
ghost use Rattle.te_report.specs.Told.{BeginsLast, HasCounts};
ghost use Rattle.te_report.specs.Sayings.{up_to, said, said_text, said_spent, said_ending};

use crate::cutting::{behind, behind_prefix, cut, up_to};
use crate::ending::Ending;
use crate::entries::{put_last_line, put_line, put_post};
use crate::names::Called;
use crate::numbers::number;
use crate::saying::{Said, first_byte, read_said};
use crate::values::put_number;
use std::alloc::Global;
use te_script::Script;
use te_terms::NoMemory;

// Appends the line of what is said, with a number.
fn put_said(out: &mut Vec<u8>, script: &Script, number: u64, said: &Said) -> Result<(), NoMemory>
    ensures { OnOk result (out.new.items ≡ out.old.items ++ numbered number (said_text script.now said.now)) }
{
    match said {
        Said::Post { by, ticket, site } => {
            put_number(out, number)?;
            out.extend_from_slice(b" ")?;
            put_post(out, script, *by, *ticket, *site)?;
            out.extend_from_slice(b"\n")?;
            Ok(())
        }
        Said::Entry(entry) => put_line(out, script, number, None, entry),
    }
}

/// What a line says, and the bytes behind it.
#[derive(Drop)]
pub(crate) struct Line<'a> {
    pub(crate) said: Said,
    pub(crate) rest: &'a [u8],
}

/// The next line, where it is the line of an entry with this number.
pub(crate) fn read_line<'a>(
    alloc: Global,
    script: &Script,
    called: &Called,
    sites: bool,
    number: u64,
    rest: &'a [u8],
) -> Result<Option<Line<'a>>, NoMemory>
    requires threads { length called.now.threads ≤ 64 }
    requires channels { length called.now.channels ≤ 256 }
    requires few { length rest.now < 2 ^ 32 }
    ensures said { IfOk result (λ found. IfSome found (λ line. line.said ≡ said called.now sites (up_to 10 rest.now))) }
    ensures split { IfOk result (λ found. IfSome found (λ line. rest.now ≡ numbered number (said_text script.now line.said) ++ line.rest.now)) }
    ensures none { IfOk result (λ found. IfNone found ((more : List ℕ) → rest.now ≢ numbered number (said_text script.now (said called.now sites (up_to 10 rest.now))) ++ more)) }
{
    let said = read_said(alloc, called, sites, up_to(rest, b'\n'))?;
    let mut line = Vec::new(alloc);
    put_said(&mut line, script, number, &said)?;
    match behind_prefix(rest, line.as_slice()) {
        Some(rest) => Ok(Some(Line { said, rest })),
        None => Ok(None),
    }
}

/// Whether a word of a last line stands first.
pub(crate) fn is_last(rest: &[u8]) -> bool
    ensures last { IsTrue result → BeginsLast rest.now }
    ensures not { result ≡ false → ¬ BeginsLast rest.now }
{
    rest.starts_with(b"closed") || rest.starts_with(b"spent") || rest.starts_with(b"full")
}

fn read_spent(text: &[u8]) -> Ending
    ensures { result ≡ said_spent text.now }
{
    let (front, text) = cut(behind(text, b' '), b' ');
    let (paths, text) = cut(behind(text, b' '), b' ');
    Ending::Spent {
        front: number(front),
        paths: number(paths),
        groups: number(behind(text, b' ')),
    }
}

#[tactic(auto, unfolding(crate::specs::Sayings::said_ending))]
fn read_ending(line: &[u8]) -> Ending
    ensures { result ≡ said_ending line.now }
{
    let letter = first_byte(line);
    if letter == b's' {
        return read_spent(behind(behind(line, b' '), b' '));
    }
    if letter == b'f' {
        return Ending::Full;
    }
    Ending::Closed
}

/// What a last line says, and the bytes behind it.
#[derive(Drop)]
pub(crate) struct Last<'a> {
    pub(crate) ending: Ending,
    pub(crate) rest: &'a [u8],
}

/// The next line, where it is a last line of so many entries.
pub(crate) fn read_last<'a>(
    alloc: Global,
    count: u64,
    rest: &'a [u8],
) -> Result<Option<Last<'a>>, NoMemory>
    ensures said { IfOk result (λ found. IfSome found (λ last. last.ending ≡ said_ending (up_to 10 rest.now))) }
    ensures split { IfOk result (λ found. IfSome found (λ last. rest.now ≡ last_line count last.ending ++ last.rest.now)) }
    ensures none { IfOk result (λ found. IfNone found ((more : List ℕ) → rest.now ≢ last_line count (said_ending (up_to 10 rest.now)) ++ more)) }
{
    let ending = read_ending(up_to(rest, b'\n'));
    let mut line = Vec::new(alloc);
    put_last_line(&mut line, count, ending)?;
    match behind_prefix(rest, line.as_slice()) {
        Some(rest) => Ok(Some(Last { ending, rest })),
        None => Ok(None),
    }
}
