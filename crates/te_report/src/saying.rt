// What a line says, by the places of its spaces and signs. Whether it is spelled so is seen by its text being told again.

ghost use Rattle.std.specs.Prelude.{◌≡◌, ◌<◌, ◌≤◌, ◌^◌, length, IfOk};
ghost use Rattle.te_report.specs.Sayings.{said, said_entry, said_words, said_how, said_site, said_commit, first_byte};

use crate::commits_told::{read_meets, read_members, read_outcomes};
use crate::cutting::{behind, cut, up_to};
use crate::names::{Called, thread};
use crate::numbers::ticket;
use crate::values_told::{read_outcome, read_value, read_values};
use std::alloc::Global;
use te_cert::Cert;
use te_history::{Entry, How};
use te_script::Site;
use te_terms::NoMemory;

/// What a line says: a post, whose event it doesn't tell, with the site in a version that tells sites; or another entry.
#[derive(Drop)]
pub(crate) enum Said {
    Post {
        by: u32,
        ticket: u32,
        site: Option<Site>,
    },
    Entry(Entry),
}

pub(crate) fn first_byte(text: &[u8]) -> u8
    ensures { result ≡ first_byte text.now }
{
    match text {
        [b, ..] => *b,
        [] => 0,
    }
}

fn read_site(sites: bool, text: &[u8]) -> Option<Site>
    ensures { result ≡ said_site sites text.now }
{
    if !sites {
        return None;
    }
    let (statement, pass) = cut(text, b'.');
    Some(Site {
        statement: ticket(statement),
        pass: ticket(pass),
    })
}

fn read_commit(
    alloc: Global,
    called: &Called,
    by: u32,
    members: &[u8],
    meets: &[u8],
) -> Result<Said, NoMemory>
    requires threads { length called.now.threads ≤ 64 }
    requires channels { length called.now.channels ≤ 256 }
    requires few_members { length members.now < 2 ^ 32 }
    requires few_meets { length meets.now < 2 ^ 32 }
    ensures { IfOk result (λ s. s ≡ said_commit called.now by members.now meets.now) }
{
    let outcomes = read_outcomes(alloc, called, members)?;
    let members = read_members(alloc, called, members)?;
    let meets = read_meets(alloc, called, members.as_slice(), meets)?;
    Ok(Said::Entry(Entry::Commit {
        by,
        cert: Cert { members, meets },
        outcomes,
    }))
}

fn read_how(alloc: Global, called: &Called, text: &[u8]) -> Result<How, NoMemory>
    requires threads { length called.now.threads ≤ 64 }
    requires channels { length called.now.channels ≤ 256 }
    ensures { IfOk result (λ how. how ≡ said_how called.now text.now) }
{
    match text {
        [b'd', ..] => Ok(How::Done(read_values(alloc, called, behind(text, b' '))?)),
        [b'r', ..] => Ok(How::Raised(read_value(called, behind(text, b' ')))),
        _ => Ok(How::Stuck),
    }
}

// By the first letter of the word for the entry.
fn read_entry(
    alloc: Global,
    called: &Called,
    sites: bool,
    letter: u8,
    by: u32,
    tail: &[u8],
) -> Result<Said, NoMemory>
    requires threads { length called.now.threads ≤ 64 }
    requires channels { length called.now.channels ≤ 256 }
    requires few { length tail.now < 2 ^ 32 }
    ensures { IfOk result (λ s. s ≡ said_entry called.now sites letter by tail.now) }
{
    if letter == b'p' {
        let (under, tail) = cut(tail, b' ');
        return Ok(Said::Post {
            by,
            ticket: ticket(under),
            site: read_site(sites, behind(tail, b' ')),
        });
    }
    if letter == b'c' {
        let (members, meets) = cut(tail, b';');
        return read_commit(alloc, called, by, members, behind(meets, b' '));
    }
    if letter == b'w' {
        return Ok(Said::Entry(Entry::Withdraw {
            by,
            ticket: ticket(tail),
        }));
    }
    if letter == b't' {
        let (under, outcome) = cut(tail, b' ');
        return Ok(Said::Entry(Entry::Take {
            by,
            ticket: ticket(under),
            outcome: read_outcome(called, outcome),
        }));
    }
    if letter == b'r' {
        return Ok(Said::Entry(Entry::Rest { by }));
    }
    if letter == b's' {
        return Ok(Said::Entry(Entry::Stuck { by }));
    }
    let how = read_how(alloc, called, tail)?;
    Ok(Said::Entry(Entry::End { by, how }))
}

/// What a line says, in a version that tells sites or not.
#[tactic(auto, unfolding(crate::specs::Sayings::said))]
pub(crate) fn read_said(
    alloc: Global,
    called: &Called,
    sites: bool,
    line: &[u8],
) -> Result<Said, NoMemory>
    requires threads { length called.now.threads ≤ 64 }
    requires channels { length called.now.channels ≤ 256 }
    requires few { length line.now < 2 ^ 32 }
    ensures { IfOk result (λ s. s ≡ said called.now sites line.now) }
{
    let words = behind(line, b' ');
    let (who, tail) = cut(behind(words, b' '), b' ');
    let by = thread(called, up_to(who, b':'));
    read_entry(alloc, called, sites, first_byte(words), by, tail)
}
